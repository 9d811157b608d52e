//! A disk that has left the group loses the descriptor that it shows.
ghost use Rattle.std.specs.Prelude.{◌≡◌, ◌≤◌, false, length, replicate};
ghost use Rattle.lvm_num.specs.Descriptor.{is_member};
ghost use Rattle.lvm_disk.specs.Device.{IsReady};
ghost use Rattle.lvm_vol.specs.Log.{spare_entries};
ghost use Rattle.lvm_write.specs.Written.{HasRoom};
ghost use Rattle.lvm_erase.specs.Erasing.{slot_number};
ghost use Rattle.lvm_session.specs.Fields.{core_of};
ghost use Rattle.lvm_session.specs.Rooms.{SameRooms};
ghost use Rattle.lvm_session.specs.State.{state};
ghost use Rattle.lvm_core.specs.State.{state_of};
ghost use Rattle.lvm_core.specs.Sound.{HasNoneOpen};
ghost use Rattle.lvm_core.specs.Committing.{with_one_out};
ghost use Rattle.lvm_core.specs.Settled.{IsSettled};
ghost use Rattle.lvm_reduce.specs.Erasing.{ErasesDisk, EraseEnds, EraseKeeps};

use lvm_core::below::Patience;
use lvm_core::{CommandDriver, CommitFault};
use lvm_disk::Shelf;
use lvm_erase::{erase_descriptor, newest_is_shown_or_none};
use lvm_num::Pbuf;
use lvm_session::{Session, darken};
use lvm_transfer::Moved;
use lvm_vol::{Entry, Vol};

/// Takes its descriptor from a disk that has left the group: enters that it is a raw disk, and writes zeros to both of its slots of descriptors, to the
/// older one first, so that it shows the newest or none. A failure of the disk changes no answer. It takes no memory.
///
/// # Errors
///
/// `Dark`, and the session has ended; a cut is entered. `Stuck`, and the transfer is out with the buffer.
pub(crate) fn erase<S: Shelf>(
    driver: CommandDriver<S>,
    disk: u16,
    second_is_older: bool,
    patience: &mut Patience,
) -> (CommandDriver<S>, Result<(), CommitFault>)
    requires settled { IsSettled driver.1 }
    requires spare { 1 ≤ spare_entries driver.1.history }
    requires stranger { is_member driver.1.descriptor disk ≡ false }
    requires room { HasRoom (S.device driver.0) disk }
    ensures ends { EraseEnds disk patience.old.left (state_of S.device driver) (state_of S.device result.0) result.1 }
    // whatever the answer, where the disk shows a descriptor of the group and that slot holds the older one
    ensures keeps { EraseKeeps disk (slot_number second_is_older) patience.old.left patience.new.left (state_of S.device driver) (state_of S.device result.0) }
{
    // What the disk shows meanwhile is a law.
    newest_is_shown_or_none();
    let mut driver = driver;
    driver.enter(Entry::Removed {
        vol: Vol::Disk(disk),
    });
    let (mut shelf, mut session) = driver.into_parts();
    let answer = erase_slots(&mut session, &mut shelf, disk, second_is_older, patience);
    (CommandDriver::from_parts(shelf, session), answer)
}

// Writes the zeros with a session's first buffer.
fn erase_slots<S: Shelf>(
    session: &mut Session,
    shelf: &mut S,
    disk: u16,
    second_is_older: bool,
    patience: &mut Patience,
) -> Result<(), CommitFault>
    requires some { 1 ≤ length session.old.pool }
    requires buffers { session.old.pool ≡ replicate (length session.old.pool) false }
    requires none { HasNoneOpen (core_of session.old) }
    requires ready { IsReady (S.device shelf.old) }
    requires room { HasRoom (S.device shelf.old) disk }
    ensures does { ErasesDisk disk (slot_number second_is_older) patience.old.left patience.new.left (state (S.device shelf.old) (core_of session.old)) (state (S.device shelf.new) (core_of session.new)) result }
    ensures rooms { SameRooms session.old session.new }
{
    let buf = take_buffer(session);
    match erase_descriptor(shelf, disk, second_is_older, buf, patience) {
        Moved::Done(back) => {
            session.pool.give(back);
            Ok(())
        }
        Moved::Failed(back) => {
            session.pool.give(back);
            Ok(())
        }
        Moved::Dark { .. } => {
            darken(session);
            Err(CommitFault::Dark)
        }
        Moved::Stuck => Err(CommitFault::Stuck),
    }
}

// The first buffer, where all are in.
fn take_buffer(session: &mut Session) -> Pbuf
    requires some { 1 ≤ length session.old.pool }
    requires all { session.old.pool ≡ replicate (length session.old.pool) false }
    ensures number { result.number ≡ 0 }
    ensures taken { session.new ≡ record session.old { pool = with_one_out session.old.pool } }
{
    match session.pool.take() {
        Some(buf) => buf,
        None => unreachable!(),
    }
}
