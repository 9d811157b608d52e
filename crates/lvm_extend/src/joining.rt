//! A disk joins a group: it gets both records first, and then the members that aren't missing.
ghost use Rattle.std.specs.Prelude.{◌≡◌};
ghost use Rattle.lvm_num.specs.Disks.{has};
ghost use Rattle.lvm_extend.specs.Joining.{MayMakeJoin, JoinGives, IsToldOf};

use crate::admission::{Admitted, admit};
use crate::spreading::spread;
use lvm_change::{Transition, TransitionEnd};
use lvm_disk::Shelf;
use lvm_num::{DiskSet, Pbuf, Stamp};
use lvm_rec::Homes;
use lvm_write::below::Patience;

/// How the writes for a disk that joins ended.
#[derive(Drop)]
pub enum JoinEnd {
    /// Both records stand on the disk and on members, which have votes enough to write by both descriptors.
    Done {
        written: DiskSet,
        buf: Pbuf,
    },
    /// A transfer to the disk that joins failed. Nothing was written to a member.
    DiskFailed {
        buf: Pbuf,
    },
    /// The disks on which no write failed have `have` votes of `total` by the first of the two descriptors that isn't met, too few to write.
    WentOff {
        have: u32,
        total: u32,
        written: DiskSet,
        buf: Pbuf,
    },
    /// The power was cut, and is off.
    Dark,
    /// Nothing was heard of a transfer until the patience had run out.
    Stuck,
}

/// Writes the status and the next descriptor to a disk that joins, and then both to the members that aren't missing, under the next two stamps. Each of the two
/// counts by the votes of both descriptors. It takes no memory.
pub fn make_join<S: Shelf>(
    shelf: &mut S,
    turn: Transition<'_>,
    disk: u16,
    stamp: Stamp,
    there: DiskSet,
    homes: &mut Homes,
    buf: Pbuf,
    patience: &mut Patience,
) -> JoinEnd
    requires may { MayMakeJoin turn disk (has there) stamp (S.device shelf.old) }
    ensures { JoinGives turn.entry disk (has there) stamp homes.old buf.number patience.old.left patience.new.left (S.device shelf.old) (S.device shelf.new) result }
{
    match admit(shelf, turn, disk, stamp, homes, buf, patience) {
        Admitted::Done(buf) => {
            let end = spread(shelf, turn, disk, stamp, there, homes, buf, patience);
            told_of(end)
        }
        Admitted::Failed(buf) => JoinEnd::DiskFailed { buf },
        Admitted::Dark => JoinEnd::Dark,
        Admitted::Stuck => JoinEnd::Stuck,
    }
}

// So ends the whole.
fn told_of(end: TransitionEnd) -> JoinEnd
    ensures { IsToldOf end result }
{
    match end {
        TransitionEnd::Done { written, buf } => JoinEnd::Done { written, buf },
        TransitionEnd::WentOff {
            have,
            total,
            written,
            buf,
        } => JoinEnd::WentOff {
            have,
            total,
            written,
            buf,
        },
        TransitionEnd::Dark => JoinEnd::Dark,
        TransitionEnd::Stuck => JoinEnd::Stuck,
    }
}
