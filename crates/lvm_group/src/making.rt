//! The making of a group.
ghost use Rattle.std.specs.Prelude.{IfOk};
ghost use Rattle.lvm_disk.specs.Device.{IsReady};
ghost use Rattle.lvm_group.specs.passed.SessionStart.{AreFaults};
ghost use Rattle.lvm_group.specs.passed.Core.{HaveAllLanded, IsRoom, state_of, BringsOn, IsStarted, shelf_left, history_left};
ghost use Rattle.lvm_group.specs.Made.{MkvgGives};
ghost use Rattle.lvm_group.specs.NewGroup.{IsWellFormed};

use crate::below::{CommandDriver, Refused, Room};
use crate::make::{Asked, make};
use lvm_disk::Shelf;
use lvm_history::History;
use lvm_num::{Name, Stamp};
use lvm_transfer::Patience;
use std::alloc::Global;

/// Makes a group of the disks named, in their order, and varies it on at the moment, which is its id too. Without a size
/// in MiB its partitions are as small as the largest of the disks lets them be. With `force` groups without volumes give
/// way. All memory is taken before the first write, and the contents of the disks are given up just then.
///
/// The causes, in their order: `NoDisk`, the first disk named that isn't there; `TooMany`, above 32; `TooSmall`, the first
/// on which no partition fits; `HistoryFull`, fewer entries to spare than the disks and one; of the survey of all disks
/// `Dark`, `Stuck`, and `DiskFailed`, the lowest that couldn't be read; `GroupExists`, where a disk shows a group, or with
/// force one that has a volume; `ClockBack`, where the moment isn't later than the last that the disks show, or is the last
/// that there is; and from the first write on `Dark`, `Stuck`, and `DiskFailed`, the lowest that couldn't be written.
/// `Memory` may come before the first write, where none of the causes before the survey holds.
pub fn mkvg<S: Shelf>(
    alloc: Global,
    shelf: S,
    history: History,
    name: Name,
    mib: Option<u16>,
    disks: &[u16],
    force: bool,
    moment: u64,
    room: Room,
    patience: &mut Patience,
) -> Result<CommandDriver<S>, Refused<S>>
    requires ready { IsReady (S.device shelf) }
    requires landed { HaveAllLanded history.facts }
    requires asked { IsWellFormed (record { name = name; mib = mib; disks = disks.now; force = force; moment = moment }) }
    requires room { IsRoom room }
    ensures gives { MkvgGives S.device (record { name = name; mib = mib; disks = disks.now; force = force; moment = moment }) room patience.old.left history (S.device shelf) result }
    ensures starts { IfOk result (λ driver. IsStarted history.run moment (S.device shelf) history (state_of S.device driver)) }
    ensures faults { IfOk result (λ driver. AreFaults (S.device driver.0) driver.1.origin.faults) }
    // whatever the answer
    ensures leaves { BringsOn history.run moment patience.old.left patience.new.left (S.device shelf) (S.device (shelf_left result)) history (history_left result) }
{
    let mut shelf = shelf;
    let mut history = history;
    let asked = Asked {
        name,
        mib,
        force,
        room,
    };
    match make(
        alloc,
        &mut shelf,
        &mut history,
        &asked,
        disks,
        moment,
        patience,
    ) {
        Ok(standing) => {
            let stamp = Stamp {
                epoch: moment,
                seq: 2,
            };
            Ok(CommandDriver::start(standing.parts, shelf, history, stamp, standing.homes))
        }
        Err(cause) => Err(Refused {
            shelf,
            history,
            cause,
        }),
    }
}
