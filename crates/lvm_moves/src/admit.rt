//! A request is admitted.
ghost use Rattle.std.specs.Prelude.{◌≡◌, ◌≤◌, ◌<◌, length, slice_get, Some};
ghost use Rattle.lvm_num.specs.Status.{IsVolumeNumber};
ghost use Rattle.lvm_path.specs.declared.facts.Next.TheVariants as next;
ghost use Rattle.lvm_session.specs.declared.open.Open.{Open};
ghost use Rattle.lvm_session.specs.Fields.{core_of};
ghost use Rattle.lvm_session.specs.Judging.{IsWithinVolume, next_for};
ghost use Rattle.lvm_session.specs.Rooms.{SameRooms};
ghost use Rattle.lvm_session.specs.State.{state};
ghost use Rattle.lvm_session.specs.Events.{Admits, Chooses, admitted_as, last_after, makes_dirty};
ghost use Rattle.lvm_session.specs.Marks.{WantsDirtyIf};
ghost use Rattle.lvm_moves.specs.Choosing.{MayChoose};

use crate::aiming::aims;
use crate::reading::{Chosen, reading};
use arrayvec::ArrayVec;
use lvm_disk::Shelf;
use lvm_due::below::{mode_of, policy_of, unpin};
use lvm_num::{Mode, Policy};
use lvm_path::{Ask, Target};
use lvm_session::{Open, Session};
use lvm_status::{Change, Updater};

// The request gets its targets.
fn admit_open(open: &mut Open, policy: Policy, mode: Mode, targets: &[Target])
    requires { length targets.now ≤ 4 }
    ensures { open.new ≡ admitted_as policy mode targets.now open.old }
{
    open.request.admit(policy, mode, targets);
    open.older = false;
}

// The last read of the volume began at the first of these copies.
fn set_last(last: &mut [u8; 512], lv: u16, order: &[u8])
    requires { lv < 512 }
    ensures { last.new ≡ last_after last.old lv order.now }
{
    if let Some(first) = order.first() {
        last[usize::from(lv)] = *first;
    }
}

// The copies to which a write goes, or which a read tries.
fn choose<S: Shelf>(session: &Session, shelf: &S, ask: &Ask) -> Chosen
    requires may { MayChoose (S.device shelf.now) (core_of session.now) }
    requires within { IsWithinVolume session.now.descriptor ask.now }
    ensures chosen { Chooses (state (S.device shelf.now) (core_of session.now)) ask.now result.targets.items result.order.items }
    ensures few { length result.targets.items ≤ 4 }
{
    if ask.is_write() {
        Chosen {
            targets: aims(session, shelf, ask),
            order: ArrayVec::new(),
        }
    } else {
        reading(session, shelf, ask)
    }
}

// Whether it is a write to several copies of a passive volume that isn't wanted dirty yet.
fn makes_dirty(session: &Session, ask: &Ask, targets: &[Target]) -> bool
    ensures { result ≡ makes_dirty (core_of session.now) ask.now targets.now }
{
    matches!(mode_of(session, ask), Mode::Passive)
        && ask.is_write()
        && targets.len() >= 2
        && !session.updater.wanted().is_dirty(ask.lv())
}

// The volume is wanted dirty, where this is so.
fn want_dirty_if(updater: &mut Updater, is: bool, lv: u16)
    requires { IsVolumeNumber lv }
    ensures { WantsDirtyIf is lv updater.old updater.new }
{
    if is {
        updater.want(Change::Dirty(lv));
    }
}

/// The request at a place of the table is admitted, or admitted again, as it does next: it gets its targets, and
/// gives up a pin that it held. Its volume is wanted dirty where the write makes it so.
pub fn admit_at<S: Shelf>(session: &mut Session, shelf: &S, place: usize)
    requires may { MayChoose (S.device shelf.now) (core_of session.old) }
    requires there { place < length session.old.requests.items }
    requires admits { (o : Open) → slice_get session.old.requests.items place ≡ Some o → next_for (core_of session.old) o ≡ next.Admit }
    ensures admits { Admits (state (S.device shelf.now) (core_of session.old)) (state (S.device shelf.now) (core_of session.new)) place }
    ensures rooms { SameRooms session.old session.new }
{
    let open = &session.requests[place];
    let (ask, pinned) = (open.request.ask, open.request.pinned);
    let chosen = choose(session, shelf, &ask);
    let (policy, mode) = (policy_of(session, &ask), mode_of(session, &ask));
    let dirty = makes_dirty(session, &ask, &chosen.targets);
    unpin(&mut session.cache, pinned, &ask);
    set_last(&mut session.last, ask.lv(), &chosen.order);
    want_dirty_if(&mut session.updater, dirty, ask.lv());
    admit_open(&mut session.requests[place], policy, mode, &chosen.targets);
}
