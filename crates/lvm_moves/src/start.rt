//! A write of the status is started.
ghost use Rattle.std.specs.Prelude.{◌≡◌, ◌<◌, ◌+◌, ◌^◌, None, if◌then◌else◌};
ghost use Rattle.lvm_num.specs.declared.record.Kind.TheVariants as kind;
ghost use Rattle.lvm_num.specs.Record.{slot_start};
ghost use Rattle.lvm_session.specs.declared.event.Event.TheVariants as event;
ghost use Rattle.lvm_session.specs.Fields.{core_of};
ghost use Rattle.lvm_session.specs.Rooms.{HasRooms, SameRooms};
ghost use Rattle.lvm_session.specs.State.{state};
ghost use Rattle.lvm_session.specs.Events.{PutsInFlight};
ghost use Rattle.lvm_moves.specs.Launching.{MayLaunch, StartGives};
ghost use Rattle.lvm_moves.specs.Updating.{MayStartStatus, NextOn};

use crate::bytes::put_status;
use crate::launch::{add_flight, end_dark, take_free};
use lvm_disk::{Shelf, Started};
use lvm_num::Kind;
use lvm_session::{Owner, Session, Turned};
use lvm_status::Updater;

// An update is begun where none is in flight.
fn begin_update(updater: &mut Updater)
    requires number { updater.old.in_flight ≡ None → updater.old.stamp.seq + 1 < 2 ^ 32 }
    requires differs { updater.old.in_flight ≡ None → updater.old.wanted ≡ updater.old.committed → ⊥ }
    ensures { PutsInFlight updater.old updater.new }
{
    if updater.in_flight().is_none() {
        updater.start();
    }
}

// The disk to which a write of the status goes next, which counts as started from now on.
fn next_disk(updater: &mut Updater) -> Option<u16>
    requires number { updater.old.in_flight ≡ None → updater.old.stamp.seq + 1 < 2 ^ 32 }
    requires differs { updater.old.in_flight ≡ None → updater.old.wanted ≡ updater.old.committed → ⊥ }
    ensures { NextOn updater.old updater.new result }
{
    begin_update(updater);
    updater.next_write()
}

fn slot_start(second: bool) -> u64
    ensures { result ≡ slot_start kind.Status (if second then 1 else 0) }
{
    if second { 128 } else { 64 }
}

/// A write of the status is started, of the one in flight or of what is wanted, to the least disk that is left,
/// with a buffer of the pool. Answers `Moved`, or `Dark` where the power is found off.
pub fn start_status<S: Shelf>(session: &mut Session, shelf: &mut S) -> Turned
    requires may { MayLaunch (S.device shelf.old) (core_of session.old) }
    requires rooms { HasRooms session.old }
    requires status { MayStartStatus (S.device shelf.old) (core_of session.old) }
    ensures gives { StartGives event.StartStatus (state (S.device shelf.old) (core_of session.old)) (state (S.device shelf.new) (core_of session.new)) result }
    ensures rooms { SameRooms session.old session.new }
{
    let Some(disk) = next_disk(&mut session.updater) else {
        unreachable!()
    };
    let first = slot_start(session.homes.is_second(Kind::Status, disk));
    let buf = take_free(&mut session.pool);
    let (count, buf) = put_status(&session.updater, &mut session.bytes, buf);
    match shelf.start_write(disk, first, count, buf) {
        Started::Dark(buf) => {
            end_dark(session, buf);
            Turned::Dark
        }
        Started::Ticket(ticket) => {
            add_flight(&mut session.flying, ticket, disk, Owner::Status { disk });
            Turned::Moved
        }
    }
}
