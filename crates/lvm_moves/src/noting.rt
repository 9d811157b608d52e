//! A note is started.
ghost use Rattle.std.specs.Prelude.{◌≡◌, Some, length, slice_get};
ghost use Rattle.lvm_num.specs.Note.{note_bytes};
ghost use Rattle.lvm_mwc.specs.Cache.{after_start};
ghost use Rattle.lvm_mwc.specs.Entries.{note_of};
ghost use Rattle.lvm_session.specs.declared.event.Event.TheVariants as event;
ghost use Rattle.lvm_session.specs.Fields.{core_of};
ghost use Rattle.lvm_session.specs.Rooms.{HasRooms, SameRooms};
ghost use Rattle.lvm_session.specs.State.{state};
ghost use Rattle.lvm_moves.specs.Launching.{HasNote, MayLaunch, MayNote, StartGives};

use crate::launch::{add_flight, end_dark, take_free};
use lvm_disk::{Shelf, Started};
use lvm_mwc::Cache;
use lvm_num::Pbuf;
use lvm_rec::write_note;
use lvm_session::{Owner, Session, Turned};

// The sector of a disk at which its note stands.
const NOTE_SECTOR: u64 = 8;

// A note on a disk that names the whole cache, in the first sector of a buffer.
fn put_note(cache: &mut Cache, disk: u16, epoch: u64, buf: Pbuf) -> Pbuf
    requires { HasNote cache.old disk }
    ensures number { result.number ≡ buf.number }
    ensures long { length result.sectors ≡ 256 }
    ensures note { slice_get result.sectors 0 ≡ Some (note_bytes (record { stamp = epoch; entries = note_of cache.old.entries })) }
    ensures cache { cache.new ≡ after_start cache.old disk }
{
    let entries = cache.start_note(disk);
    let mut buf = buf;
    buf.set_sector(0, &write_note(epoch, &entries));
    buf
}

/// A note that names the whole cache is started on the disk on which the request at a place of the table lacks
/// one, with a buffer of the pool. Answers `Moved`, or `Dark` where the power is found off.
pub fn start_note<S: Shelf>(session: &mut Session, shelf: &mut S, place: usize, disk: u16) -> Turned
    requires may { MayLaunch (S.device shelf.old) (core_of session.old) }
    requires rooms { HasRooms session.old }
    requires note { MayNote (S.device shelf.old) (core_of session.old) place disk }
    ensures gives { StartGives (event.StartNote place disk) (state (S.device shelf.old) (core_of session.old)) (state (S.device shelf.new) (core_of session.new)) result }
    ensures rooms { SameRooms session.old session.new }
{
    let epoch = session.updater.stamp().epoch;
    let buf = take_free(&mut session.pool);
    let buf = put_note(&mut session.cache, disk, epoch, buf);
    match shelf.start_write(disk, NOTE_SECTOR, 1, buf) {
        Started::Dark(buf) => {
            end_dark(session, buf);
            Turned::Dark
        }
        Started::Ticket(ticket) => {
            add_flight(&mut session.flying, ticket, disk, Owner::Note { disk });
            Turned::Moved
        }
    }
}
