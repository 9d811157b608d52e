//! The copy that is open is read, and written.
ghost use Rattle.std.specs.Prelude.{◌≡◌, ◌<◌, ◌++◌, ◌∷◌, [], IsTrue, Some, vec_capacity, vec_len};
ghost use Rattle.std.specs.Option.{option_map};
ghost use Rattle.lvm_num.specs.declared.place.Pp.{Pp};
ghost use Rattle.lvm_num.specs.Descriptor.{is_size};
ghost use Rattle.lvm_session.specs.declared.bringing.OpenCopy.{OpenCopy};
ghost use Rattle.lvm_session.specs.declared.bringing.Step.TheVariants as stage;
ghost use Rattle.lvm_session.specs.declared.event.Event.TheVariants as event;
ghost use Rattle.lvm_session.specs.declared.flown.Owner.TheVariants as owner;
ghost use Rattle.lvm_session.specs.Bringing.{hand_of, next_source};
ghost use Rattle.lvm_session.specs.Fields.{core_of};
ghost use Rattle.lvm_session.specs.Rooms.{HasRooms, SameRooms};
ghost use Rattle.lvm_session.specs.State.{state};
ghost use Rattle.lvm_session.specs.Events.{flown, step_sector};
ghost use Rattle.lvm_session.specs.Sound.{IsGoing};
ghost use Rattle.lvm_moves.specs.Launching.{HasFlight, MayLaunch, MayReadCopy, MayWriteCopy, StartGives};

use crate::launch::{add_flight, end_dark, take_free};
use lvm_disk::{Shelf, Started};
use lvm_due::below::partition_blocks;
use lvm_due::next_source;
use lvm_num::{Pbuf, Pp, TRACK_GROUP};
use lvm_session::{OpenCopy, Owner, Session, Step, Turned};

// The sector at which the track group at the cursor begins on the copy at this partition.
fn step_sector(session: &Session, copy: &OpenCopy, pp: Pp) -> u64
    requires { IsTrue (is_size session.now.descriptor.mib) }
    ensures { result ≡ step_sector (core_of session.now) copy.now pp }
{
    let blocks = partition_blocks(session.descriptor.mib);
    let at = blocks * u64::from(copy.lp) + u64::from(TRACK_GROUP) * u64::from(copy.cursor);
    4096 + blocks * u64::from(pp.pp) + at % blocks
}

// From which partition the copy that is open is read, and from which sector on.
fn next_read(session: &Session) -> Option<(Pp, u64)>
    requires { IsGoing (core_of session.now) }
    ensures { (c : OpenCopy) → session.now.copy ≡ Some c → result ≡ option_map (λ (p : Pp). (p, step_sector (core_of session.now) c p)) (next_source (core_of session.now) c) }
{
    match &session.copy {
        None => None,
        Some(copy) => match next_source(session, copy) {
            None => None,
            Some(source) => Some((source, step_sector(session, copy, source))),
        },
    }
}

fn set_step(copy: &mut Option<OpenCopy>, step: Step)
    ensures { (c : OpenCopy) → copy.old ≡ Some c → copy.new ≡ Some (record c { step = step }) }
{
    if let Some(open) = copy {
        open.step = step;
    }
}

// The read is under way.
fn begin_read(session: &mut Session, ticket: u64, source: Pp)
    requires { vec_len session.old.flying < vec_capacity session.old.flying }
    ensures core { (c : OpenCopy) → session.old.copy ≡ Some c → core_of session.new ≡ record (core_of session.old) { flying = session.old.flying.items ++ flown ticket source.disk owner.Copy ∷ []; copy = Some (record c { step = stage.Reading source }) } }
    ensures rooms { SameRooms session.old session.new }
{
    add_flight(&mut session.flying, ticket, source.disk, Owner::Copy);
    set_step(&mut session.copy, Step::Reading { source });
}

/// The track group at the cursor of the copy that is open is read from its next source, with a buffer of the
/// pool. Answers `Moved`, or `Dark` where the power is found off.
pub fn read_copy<S: Shelf>(session: &mut Session, shelf: &mut S) -> Turned
    requires may { MayLaunch (S.device shelf.old) (core_of session.old) }
    requires rooms { HasRooms session.old }
    requires reads { MayReadCopy (S.device shelf.old) (core_of session.old) }
    ensures gives { StartGives event.ReadCopy (state (S.device shelf.old) (core_of session.old)) (state (S.device shelf.new) (core_of session.new)) result }
    ensures rooms { SameRooms session.old session.new }
{
    let Some((source, first)) = next_read(session) else {
        unreachable!()
    };
    let buf = take_free(&mut session.pool);
    match shelf.start_read(source.disk, first, TRACK_GROUP, buf) {
        Started::Dark(buf) => {
            end_dark(session, buf);
            Turned::Dark
        }
        Started::Ticket(ticket) => {
            begin_read(session, ticket, source);
            Turned::Moved
        }
    }
}

// The partition of the copy that is open, and the sector at which the track group begins there.
fn own_place(session: &Session) -> Option<(Pp, u64)>
    requires { IsTrue (is_size session.now.descriptor.mib) }
    ensures { (c : OpenCopy) → session.now.copy ≡ Some c → result ≡ Some (c.pp, step_sector (core_of session.now) c c.pp) }
{
    match &session.copy {
        None => None,
        Some(copy) => Some((copy.pp, step_sector(session, copy, copy.pp))),
    }
}

// What the copy has in hand goes out to be written.
fn take_hand(copy: &mut Option<OpenCopy>) -> Option<Pbuf>
    ensures { (c : OpenCopy) → copy.old ≡ Some c → (copy.new ≡ Some (record c { step = stage.Writing })) × (result ≡ hand_of c.step) }
{
    match copy {
        None => None,
        Some(open) => match std::mem::replace(&mut open.step, Step::Writing) {
            Step::Read { buf } => Some(buf),
            Step::Idle | Step::Reading { .. } | Step::Writing => None,
        },
    }
}

/// The track group that the copy that is open has in hand is written to it. Answers `Moved`, or `Dark` where the
/// power is found off.
pub fn write_copy<S: Shelf>(session: &mut Session, shelf: &mut S) -> Turned
    requires flight { HasFlight (S.device shelf.old) (core_of session.old) }
    requires rooms { HasRooms session.old }
    requires writes { MayWriteCopy (S.device shelf.old) (core_of session.old) }
    ensures gives { StartGives event.WriteCopy (state (S.device shelf.old) (core_of session.old)) (state (S.device shelf.new) (core_of session.new)) result }
    ensures rooms { SameRooms session.old session.new }
{
    let Some((pp, first)) = own_place(session) else {
        unreachable!()
    };
    let Some(buf) = take_hand(&mut session.copy) else {
        unreachable!()
    };
    match shelf.start_write(pp.disk, first, TRACK_GROUP, buf) {
        Started::Dark(buf) => {
            end_dark(session, buf);
            Turned::Dark
        }
        Started::Ticket(ticket) => {
            add_flight(&mut session.flying, ticket, pp.disk, Owner::Copy);
            Turned::Moved
        }
    }
}
