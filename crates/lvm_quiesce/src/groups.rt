//! A group is made or varied on, once the transfers that are out have ended.
ghost use Rattle.std.specs.Prelude.{◌≢◌, IfOk, IfErr};
ghost use Rattle.lvm_session.specs.Sound.{HasPower};
ghost use Rattle.lvm_core.specs.Coming.{shelf_left, history_left};
ghost use Rattle.lvm_core.specs.Sound.{HaveAllLanded};
ghost use Rattle.lvm_core.specs.Starting.{IsRoom};
ghost use Rattle.lvm_core.specs.State.{state_of};
ghost use Rattle.lvm_group.specs.NewGroup.{IsWellFormed};
ghost use Rattle.lvm_quiesce.specs.Groups.{BringsOnEach, CauseRose, IsStartedEach, MkvgOnceQuiet, RestGives, VaryonOnceQuiet};

use crate::ends::{Quiesced, quiesce};
use lvm_core::{Cause, CommandDriver, Refused, Room};
use lvm_disk::Shelf;
use lvm_group::size_to_begin;
use lvm_history::History;
use lvm_num::Name;
use lvm_transfer::Patience;
use std::alloc::Global;

/// Makes a group as `lvm_group::mkvg` does, on a shelf on which transfers may be out. These are ended once `NoDisk`,
/// `TooMany`, `TooSmall` and `HistoryFull` have been judged, before the survey, and waited for out of the same patience.
pub fn mkvg<S: Shelf>(
    alloc: Global,
    shelf: S,
    history: History,
    name: Name,
    mib: Option<u16>,
    disks: &[u16],
    force: bool,
    moment: u64,
    room: Room,
    patience: &mut Patience,
) -> Result<CommandDriver<S>, Refused<S>>
    requires lit { HasPower (S.device shelf) }
    requires landed { HaveAllLanded history.facts }
    requires asked { IsWellFormed (record { name = name; mib = mib; disks = disks.now; force = force; moment = moment }) }
    requires room { IsRoom room }
    ensures gives { MkvgOnceQuiet S.device (record { name = name; mib = mib; disks = disks.now; force = force; moment = moment }) room patience.old.left history (S.device shelf) result }
    ensures starts { IfOk result (λ driver. IsStartedEach history.run moment (S.device shelf) history (state_of S.device driver)) }
    ensures causes { IfErr result (λ refused. CauseRose patience.old.left (S.device shelf).counts (S.device refused.shelf).counts refused.cause) }
    // whatever the answer
    ensures leaves { BringsOnEach history.run moment patience.old.left patience.new.left (S.device shelf) (S.device (shelf_left result)) history (history_left result) }
{
    if let Err(cause) = size_to_begin(&shelf, history.spare_entries(), disks, mib) {
        return Err(Refused {
            shelf,
            history,
            cause,
        });
    }
    match come_to_rest(shelf, history, patience) {
        Ok((shelf, history)) => lvm_group::mkvg(
            alloc, shelf, history, name, mib, disks, force, moment, room, patience,
        ),
        Err(refused) => Err(refused),
    }
}

/// Varies a group on as `lvm_varyon::varyon` does, on a shelf on which transfers may be out. These are ended once
/// `HistoryFull` has been judged, before the disks are read, and waited for out of the same patience.
pub fn varyon<S: Shelf>(
    alloc: Global,
    shelf: S,
    history: History,
    name: Name,
    moment: u64,
    room: Room,
    patience: &mut Patience,
) -> Result<CommandDriver<S>, Refused<S>>
    requires lit { HasPower (S.device shelf) }
    requires landed { HaveAllLanded history.facts }
    requires room { IsRoom room }
    requires moment { moment ≢ 0 }
    ensures gives { VaryonOnceQuiet S.device history name moment room patience.old.left (S.device shelf) result }
    ensures starts { IfOk result (λ driver. IsStartedEach history.run moment (S.device shelf) history (state_of S.device driver)) }
    ensures causes { IfErr result (λ refused. CauseRose patience.old.left (S.device shelf).counts (S.device refused.shelf).counts refused.cause) }
    // whatever the answer
    ensures leaves { BringsOnEach history.run moment patience.old.left patience.new.left (S.device shelf) (S.device (shelf_left result)) history (history_left result) }
{
    if history.spare_entries() == 0 {
        return Err(Refused {
            shelf,
            history,
            cause: Cause::HistoryFull,
        });
    }
    match come_to_rest(shelf, history, patience) {
        Ok((shelf, history)) => {
            lvm_varyon::varyon(alloc, shelf, history, name, moment, room, patience)
        }
        Err(refused) => Err(refused),
    }
}

// Ends the transfers that are out. A power cut is entered.
fn come_to_rest<S: Shelf>(
    shelf: S,
    history: History,
    patience: &mut Patience,
) -> Result<(S, History), Refused<S>>
    requires { HasPower (S.device shelf) }
    ensures { RestGives S.device patience.old.left patience.new.left shelf history result }
{
    let mut shelf = shelf;
    let mut history = history;
    match quiesce(&mut shelf, patience) {
        Quiesced::Ended => Ok((shelf, history)),
        Quiesced::Dark => {
            history.cut();
            Err(Refused {
                shelf,
                history,
                cause: Cause::Dark,
            })
        }
        Quiesced::Stuck => Err(Refused {
            shelf,
            history,
            cause: Cause::Stuck,
        }),
    }
}
