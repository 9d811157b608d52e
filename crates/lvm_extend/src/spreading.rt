//! The members that aren't missing get both records behind the disk that joins.
ghost use Rattle.std.specs.Prelude.{◌≡◌, IfSome, IfNone, IsFalse};
ghost use Rattle.lvm_num.specs.Descriptor.{IsValid};
ghost use Rattle.lvm_num.specs.Disks.{has};
ghost use Rattle.lvm_num.specs.Votes.{votes_in, total_votes, is_enough_to_write, CanWrite};
ghost use Rattle.lvm_change.specs.Transition.{IsByBoth};
ghost use Rattle.lvm_extend.specs.Spreading.{Both, Last, MaySpread, Spreads};

use lvm_change::{Transition, TransitionEnd, next_stamp, without};
use lvm_disk::Shelf;
use lvm_num::{Descriptor, DiskSet, Kind, Pbuf, Stamp};
use lvm_rec::Homes;
use lvm_write::below::Patience;
use lvm_write::{Wrote, write_record};

/// Writes the status to the members that aren't missing, and then the descriptor to those that have it, where they have votes enough by both descriptors with
/// the disk that joins, which has both. It takes no memory.
pub fn spread<S: Shelf>(
    shelf: &mut S,
    turn: Transition<'_>,
    disk: u16,
    stamp: Stamp,
    there: DiskSet,
    homes: &mut Homes,
    buf: Pbuf,
    patience: &mut Patience,
) -> TransitionEnd
    requires may { MaySpread turn disk (has there) stamp (S.device shelf.old) }
    ensures { Spreads turn.entry disk (has there) stamp Both homes.old buf.number patience.old.left patience.new.left (S.device shelf.old) (S.device shelf.new) result }
{
    match write_record(
        shelf,
        Kind::Status,
        next_stamp(stamp),
        turn.status,
        there,
        homes,
        buf,
        patience,
    ) {
        Wrote::Ended { failed, buf } => {
            let written = without(there, failed);
            describe(shelf, turn, disk, stamp, written, homes, buf, patience)
        }
        Wrote::Dark => TransitionEnd::Dark,
        Wrote::Stuck => TransitionEnd::Stuck,
    }
}

// Where the disks that have the status have votes enough, writes the descriptor to these members.
fn describe<S: Shelf>(
    shelf: &mut S,
    turn: Transition<'_>,
    disk: u16,
    stamp: Stamp,
    there: DiskSet,
    homes: &mut Homes,
    buf: Pbuf,
    patience: &mut Patience,
) -> TransitionEnd
    requires may { MaySpread turn disk (has there) stamp (S.device shelf.old) }
    ensures { Spreads turn.entry disk (has there) stamp Last homes.old buf.number patience.old.left patience.new.left (S.device shelf.old) (S.device shelf.new) result }
{
    match by_votes(turn, there.with(disk), buf) {
        TransitionEnd::Done { written: _, buf } => {
            put_descriptor(shelf, turn, disk, stamp, there, homes, buf, patience)
        }
        stopped => stopped,
    }
}

// Writes the descriptor to these members.
fn put_descriptor<S: Shelf>(
    shelf: &mut S,
    turn: Transition<'_>,
    disk: u16,
    stamp: Stamp,
    there: DiskSet,
    homes: &mut Homes,
    buf: Pbuf,
    patience: &mut Patience,
) -> TransitionEnd
    requires may { MaySpread turn disk (has there) stamp (S.device shelf.old) }
    ensures { Spreads turn.entry disk (has there) stamp Last homes.old buf.number patience.old.left patience.new.left (S.device shelf.old) (S.device shelf.new) result }
{
    match write_record(
        shelf,
        Kind::Descriptor,
        next_stamp(next_stamp(stamp)),
        turn.content,
        there,
        homes,
        buf,
        patience,
    ) {
        Wrote::Ended { failed, buf } => {
            let written = without(there, failed);
            by_votes(turn, written.with(disk), buf)
        }
        Wrote::Dark => TransitionEnd::Dark,
        Wrote::Stuck => TransitionEnd::Stuck,
    }
}

// Whether disks have votes enough to write by both descriptors.
fn by_votes(turn: Transition<'_>, written: DiskSet, buf: Pbuf) -> TransitionEnd
    requires was { IsValid turn.was.now }
    requires next { IsValid turn.next.now }
    ensures { IsByBoth turn.entry.was.now turn.entry.next.now (has written) buf result }
{
    match few_votes(turn.was, written) {
        Some((have, total)) => TransitionEnd::WentOff {
            have,
            total,
            written,
            buf,
        },
        None => match few_votes(turn.next, written) {
            Some((have, total)) => TransitionEnd::WentOff {
                have,
                total,
                written,
                buf,
            },
            None => TransitionEnd::Done { written, buf },
        },
    }
}

// The votes of disks by a descriptor and those of all, where they are too few to write.
fn few_votes(d: &Descriptor, written: DiskSet) -> Option<(u32, u32)>
    requires { IsValid d.now }
    ensures few { IfSome result (λ votes. (votes.0 ≡ votes_in d.now (has written)) × (votes.1 ≡ total_votes d.now) × IsFalse (is_enough_to_write d.now votes.0)) }
    ensures enough { IfNone result (CanWrite d.now (has written)) }
{
    let have = d.votes_in(written);
    if d.enough_to_write(have) {
        None
    } else {
        Some((have, d.total_votes()))
    }
}
