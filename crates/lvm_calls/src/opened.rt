//! The copy that is opened, or that begins to move.
ghost use Rattle.lvm_session.specs.Fields.{core_of};
ghost use Rattle.lvm_session.specs.Sound.{IsGoing};
ghost use Rattle.lvm_calls.specs.Opening.{HasCopy, IsOpened, IsOpenedMove};

use crate::enter::step_place;
use crate::faults::faults_of;
use lvm_disk::Shelf;
use lvm_due::copies_in;
use lvm_num::{DiskSet, Pp};
use lvm_session::{OpenCopy, Session, Step};

/// A copy of a volume as it is opened.
pub fn opened<S: Shelf>(session: &Session, shelf: &S, lv: u16, lp: u32, number: u8) -> OpenCopy
    requires going { IsGoing (core_of session.now) }
    requires its { HasCopy session.now.descriptor lv lp number }
    ensures { IsOpened (S.device shelf.now) (core_of session.now) lv lp number result }
{
    let copies = copies_in(&session.descriptor, lv, lp);
    let pp = copies[usize::from(number) - 1];
    OpenCopy {
        lv,
        lp,
        copy: number,
        pp,
        moves: false,
        cursor: 0,
        step: Step::Idle,
        tried: DiskSet::empty(),
        place: step_place(session),
        faults: faults_of(session, shelf, copies, pp),
        end: None,
    }
}

/// A copy of a volume as it begins to move to a partition.
pub fn opened_move<S: Shelf>(
    session: &Session,
    shelf: &S,
    lv: u16,
    lp: u32,
    number: u8,
    to: Pp,
) -> OpenCopy
    requires going { IsGoing (core_of session.now) }
    requires its { HasCopy session.now.descriptor lv lp number }
    ensures { IsOpenedMove (S.device shelf.now) (core_of session.now) lv lp number to result }
{
    let copies = copies_in(&session.descriptor, lv, lp);
    OpenCopy {
        lv,
        lp,
        copy: number,
        pp: to,
        moves: true,
        cursor: 0,
        step: Step::Idle,
        tried: DiskSet::empty(),
        place: step_place(session),
        faults: faults_of(session, shelf, copies, to),
        end: None,
    }
}
