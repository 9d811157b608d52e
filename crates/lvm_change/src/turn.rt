//! A group turns to its next descriptor: first a status is written, in the rows of the next descriptor, and then that itself.
ghost use Rattle.std.specs.Prelude.{◌≡◌, ◌+◌, ◌<◌, ◌^◌, IfSome, IfNone, IsFalse};
ghost use Rattle.lvm_num.specs.Descriptor.{IsValid};
ghost use Rattle.lvm_num.specs.Disks.{has};
ghost use Rattle.lvm_num.specs.Votes.{votes_in, total_votes, is_enough_to_write, CanWrite};
ghost use Rattle.lvm_write.specs.Written.{written_well};
ghost use Rattle.lvm_commit.specs.Committed.{next_stamp};
ghost use Rattle.lvm_change.specs.Transition.{MayMakeTransition, MayDescribe, IsByBoth, TransitionGives, DescriptionGives};

use lvm_disk::Shelf;
use lvm_num::{DISKS, Descriptor, DiskSet, Kind, Pbuf, Stamp, Status};
use lvm_rec::Homes;
use lvm_write::below::Patience;
use lvm_write::{Wrote, write_record};

/// The two records of a turn, as bytes, and what they say. A record counts as written by the votes of both descriptors.
#[derive(Clone, Copy)]
pub struct Transition<'a> {
    /// The descriptor that is committed.
    pub was: &'a Descriptor,
    /// The one to which the group turns.
    pub next: &'a Descriptor,
    /// The committed status, in the rows of the next descriptor.
    pub told: &'a Status,
    /// The bytes of that status.
    pub status: &'a [u8],
    /// The bytes of the next descriptor.
    pub content: &'a [u8],
}

/// How a turn ended.
#[derive(Drop)]
pub enum TransitionEnd {
    /// Both records stand on these disks, which have votes enough to write by both descriptors.
    Done {
        written: DiskSet,
        buf: Pbuf,
    },
    /// The disks on which no write failed have `have` votes of `total` by the first of the two descriptors that isn't met, too few to write.
    WentOff {
        have: u32,
        total: u32,
        written: DiskSet,
        buf: Pbuf,
    },
    /// The power was cut, and is off.
    Dark,
    /// Nothing was heard of a transfer until the patience had run out.
    Stuck,
}

/// Writes the status to the members that aren't missing, and then the descriptor to those that have it, under the next two
/// stamps. Each of the two counts by the votes of both descriptors. It takes no memory.
pub fn make_transition<S: Shelf>(
    shelf: &mut S,
    turn: Transition<'_>,
    stamp: Stamp,
    there: DiskSet,
    homes: &mut Homes,
    buf: Pbuf,
    patience: &mut Patience,
) -> TransitionEnd
    requires may { MayMakeTransition turn (has there) stamp (S.device shelf.old) }
    ensures { TransitionGives turn.entry (has there) stamp homes.old homes.new buf.number patience.old.left patience.new.left (S.device shelf.old) (S.device shelf.new) result }
{
    let first = next_stamp(stamp);
    match write_record(
        shelf,
        Kind::Status,
        first,
        turn.status,
        there,
        homes,
        buf,
        patience,
    ) {
        Wrote::Ended { failed, buf } => {
            let written = without(there, failed);
            describe(shelf, turn, first, written, homes, buf, patience)
        }
        Wrote::Dark => TransitionEnd::Dark,
        Wrote::Stuck => TransitionEnd::Stuck,
    }
}

// Where the disks that have the status have votes enough, writes the descriptor to them.
fn describe<S: Shelf>(
    shelf: &mut S,
    turn: Transition<'_>,
    stamp: Stamp,
    there: DiskSet,
    homes: &mut Homes,
    buf: Pbuf,
    patience: &mut Patience,
) -> TransitionEnd
    requires may { MayDescribe turn (has there) stamp (S.device shelf.old) }
    ensures { DescriptionGives turn.entry (has there) stamp homes.old homes.new buf.number patience.old.left patience.new.left (S.device shelf.old) (S.device shelf.new) result }
{
    match by_votes(turn, there, buf) {
        TransitionEnd::Done { written, buf } => {
            put_descriptor(shelf, turn, stamp, written, homes, buf, patience)
        }
        stopped => stopped,
    }
}

// Writes the descriptor to disks that have votes enough.
fn put_descriptor<S: Shelf>(
    shelf: &mut S,
    turn: Transition<'_>,
    stamp: Stamp,
    there: DiskSet,
    homes: &mut Homes,
    buf: Pbuf,
    patience: &mut Patience,
) -> TransitionEnd
    requires may { MayDescribe turn (has there) stamp (S.device shelf.old) }
    requires was { CanWrite turn.was.now (has there) }
    requires next { CanWrite turn.next.now (has there) }
    ensures { DescriptionGives turn.entry (has there) stamp homes.old homes.new buf.number patience.old.left patience.new.left (S.device shelf.old) (S.device shelf.new) result }
{
    match write_record(
        shelf,
        Kind::Descriptor,
        next_stamp(stamp),
        turn.content,
        there,
        homes,
        buf,
        patience,
    ) {
        Wrote::Ended { failed, buf } => by_votes(turn, without(there, failed), buf),
        Wrote::Dark => TransitionEnd::Dark,
        Wrote::Stuck => TransitionEnd::Stuck,
    }
}

// Whether disks have votes enough to write by both descriptors.
fn by_votes(turn: Transition<'_>, written: DiskSet, buf: Pbuf) -> TransitionEnd
    requires was { IsValid turn.was.now }
    requires next { IsValid turn.next.now }
    ensures { IsByBoth turn.entry.was.now turn.entry.next.now (has written) buf result }
{
    match few_votes(turn.was, written) {
        Some((have, total)) => TransitionEnd::WentOff {
            have,
            total,
            written,
            buf,
        },
        None => match few_votes(turn.next, written) {
            Some((have, total)) => TransitionEnd::WentOff {
                have,
                total,
                written,
                buf,
            },
            None => TransitionEnd::Done { written, buf },
        },
    }
}

// The votes of disks by a descriptor and those of all, where they are too few to write.
fn few_votes(d: &Descriptor, written: DiskSet) -> Option<(u32, u32)>
    requires { IsValid d.now }
    ensures few { IfSome result (λ votes. (votes.0 ≡ votes_in d.now (has written)) × (votes.1 ≡ total_votes d.now) × IsFalse (is_enough_to_write d.now votes.0)) }
    ensures enough { IfNone result (CanWrite d.now (has written)) }
{
    let have = d.votes_in(written);
    if d.enough_to_write(have) {
        None
    } else {
        Some((have, d.total_votes()))
    }
}

/// The disks of the one set that aren't in the other.
pub fn without(disks: DiskSet, others: DiskSet) -> DiskSet
    ensures { has result ≡ written_well (has disks) (has others) }
{
    let mut left = disks;
    for disk in 0..DISKS {
        if others.has(disk) {
            left = left.without(disk);
        }
    }
    left
}

/// The stamp after this one in its session.
pub fn next_stamp(stamp: Stamp) -> Stamp
    requires { stamp.seq + 1 < 2 ^ 32 }
    ensures { result ≡ next_stamp stamp }
{
    Stamp {
        epoch: stamp.epoch,
        seq: stamp.seq + 1,
    }
}
