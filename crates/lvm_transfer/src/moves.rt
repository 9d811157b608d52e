//! A transfer is started, and reaped until it has ended.
ghost use Rattle.std.specs.Prelude.{◌≡◌, ◌-◌, ◌<◌, ◌≤◌, [], ◌∷◌, ℕ, length, true};
ghost use Rattle.lvm_disk.specs.Counts.{RoseBy};
ghost use Rattle.lvm_disk.specs.Device.{Flight, IsReady};
ghost use Rattle.lvm_disk.specs.Steps.{IsRange, StartGives};
ghost use Rattle.lvm_disk.specs.Images.{LeavesNoMore};
ghost use Rattle.lvm_disk.specs.Paths.{DeviceStep, Path};
ghost use Rattle.lvm_kept.specs.Raw.{OnlyAdds};
ghost use Rattle.lvm_transfer.specs.Transfer.{Costs, FinishGives, StepsWhile, TransferGives, Rests, Relights, flight_of};

use lvm_disk::{Reaped, Shelf, Started};
use lvm_num::Pbuf;

/// How a transfer ended.
#[derive(Drop)]
pub enum Moved {
    /// Well, with its buffer.
    Done(Pbuf),
    /// The disk failed.
    Failed(Pbuf),
    /// The power was cut, and is off.
    Dark { started: bool },
    /// Nothing was heard of it until the patience had run out.
    Stuck,
}

/// How many answers that nothing has ended are still borne, over all transfers of a command.
#[derive(Drop)]
pub struct Patience {
    pub left: u32,
}

impl Patience {
    /// That of a command at its beginning: a million answers. The number is this project's own.
    pub fn whole() -> Patience
        ensures { result.left ≡ 1000000 }
    {
        Patience { left: 1_000_000 }
    }
}

fn start<S: Shelf>(
    shelf: &mut S,
    write: bool,
    disk: u16,
    first: u64,
    count: u32,
    buf: Pbuf,
) -> Started
    requires range { IsRange (S.device shelf.old) disk first count }
    requires room { length (S.device shelf.old).flights < 1024 }
    ensures { StartGives (S.device shelf.old) (S.device shelf.new) disk first count write buf result }
{
    if write {
        shelf.start_write(disk, first, count, buf)
    } else {
        shelf.start_read(disk, first, count, buf)
    }
}

// Ends the one flight that is out.
fn finish<S: Shelf>(shelf: &mut S, patience: &mut Patience) -> Moved
    requires flight { (f : Flight) × ((S.device shelf.old).flights ≡ f ∷ []) }
    requires power { (S.device shelf.old).power ≡ true }
    requires freed { (S.device shelf.old).freed ≡ [] }
    ensures gives { (f : Flight) → (S.device shelf.old).flights ≡ f ∷ [] → FinishGives patience.old.left (S.device shelf.old) (S.device shelf.new) f result }
    // Each answer that nothing has ended costs one of the patience.
    ensures costs { Costs patience.old.left patience.new.left (S.device shelf.old) (S.device shelf.new) }
    ensures rests { Rests (S.device shelf.new) result }
    ensures moments { Path DeviceStep (LeavesNoMore (S.device shelf.old)) (S.device shelf.old) (S.device shelf.new) }
{
    for _ in 0..patience.left {
        match shelf.reap() {
            Reaped::Empty => patience.left -= 1,
            Reaped::Done { ticket: _, buf } => return Moved::Done(buf),
            Reaped::Failed { ticket: _, buf } => return Moved::Failed(buf),
            Reaped::Dark { freed: _ } => return Moved::Dark { started: true },
        }
    }
    Moved::Stuck
}

/// Takes back what a power cut gave up, and puts the power on.
pub fn relight<S: Shelf>(shelf: &mut S)
    requires { (S.device shelf.old).flights ≡ [] }
    ensures lit { Relights (S.device shelf.old) (S.device shelf.new) }
    ensures moments { Path DeviceStep (LeavesNoMore (S.device shelf.old)) (S.device shelf.old) (S.device shelf.new) }
{
    while let Some(_) = shelf.next_freed() {}
    shelf.light();
}

/// Moves `count` sectors between a disk, from sector `first` on, and the front of a buffer.
pub fn transfer<S: Shelf>(
    shelf: &mut S,
    write: bool,
    disk: u16,
    first: u64,
    count: u32,
    buf: Pbuf,
    patience: &mut Patience,
) -> Moved
    requires ready { IsReady (S.device shelf.old) }
    requires range { IsRange (S.device shelf.old) disk first count }
    ensures gives { (ticket : ℕ) × TransferGives patience.old.left (S.device shelf.old) (S.device shelf.new) (flight_of ticket write disk first count buf) result }
    ensures rests { Rests (S.device shelf.new) result }
    ensures patience { patience.new.left ≤ patience.old.left }
    ensures waited { RoseBy (patience.old.left - patience.new.left) (S.device shelf.old).counts.waits (S.device shelf.new).counts.waits }
    // Each answer that nothing has ended costs one of the patience.
    ensures costs { StepsWhile patience.old.left (S.device shelf.old) patience.new.left (S.device shelf.new) }
    ensures moments { Path DeviceStep (OnlyAdds (flight_of 0 write disk first count buf) (S.device shelf.old)) (S.device shelf.old) (S.device shelf.new) }
{
    match start(shelf, write, disk, first, count, buf) {
        Started::Ticket(_) => finish(shelf, patience),
        Started::Dark(_) => Moved::Dark { started: false },
    }
}
