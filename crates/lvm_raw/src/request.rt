//! One request on blocks of a disk that is in no group.
ghost use Rattle.std.specs.Prelude.{◌≡◌, ◌*◌, ◌≤◌, IsSome, Some, length, true, vec_capacity};
ghost use Rattle.std.specs.Option.{ForSome};
ghost use Rattle.std.specs.Simd.{first_chunks};
ghost use Rattle.lvm_disk.specs.Device.{IsReady};
ghost use Rattle.lvm_disk.specs.Images.{LeavesNoMore};
ghost use Rattle.lvm_disk.specs.Paths.{DeviceStep, Path};
ghost use Rattle.lvm_vol.specs.Facts.{Landed};
ghost use Rattle.lvm_vol.specs.Log.{request_of, is_open, is_uncut, awaited, got_without_bytes};
ghost use Rattle.lvm_steps.specs.Requests.{at as moment_of};
ghost use Rattle.lvm_transfer.specs.Transfer.{Rests};
ghost use Rattle.lvm_raw.specs.OnePieceAsking.{MayAskPiece, TakesRoom};
ghost use Rattle.lvm_raw.specs.OnePieceKeeping.{PieceKeeps};
ghost use Rattle.lvm_raw.specs.OnePiece.{WritesPiece, ReadsPiece};
ghost use Rattle.lvm_raw.specs.Requests.{landing_ends, cut_ends, write_ends, read_ends, RelightsAfter, HasFront};

use crate::blocks::{copy_front, fill_front};
use lvm_disk::Shelf;
use lvm_history::History;
use lvm_num::{Pbuf, SCRIPT_CLIENT};
use lvm_transfer::{Moved, Patience, relight, transfer};
use lvm_vol::{Outcome, Vol};

// Enters how a request landed, and that its answer was taken.
fn land_and_take(history: &mut History, id: u64, outcome: Outcome, started: bool)
    requires begun { is_open history.old.facts id ≡ true }
    requires own { (request_of history.old.facts id).client ≡ 1 }
    ensures { let r = request_of history.old.facts id in
        history.new ≡ record history.old { facts = landing_ends history.old.facts r (Landed r outcome started (got_without_bytes r outcome)) } }
{
    history.land(id, outcome, started);
    history.taken(SCRIPT_CLIENT, id);
}

// Enters that the power was cut while a request was open, and that it landed so.
fn cut_and_take(history: &mut History, id: u64, started: bool)
    requires begun { is_open history.old.facts id ≡ true }
    requires own { (request_of history.old.facts id).client ≡ 1 }
    requires uncut { is_uncut history.old.facts ≡ true }
    ensures { history.new ≡ record history.old { facts = cut_ends history.old.facts (request_of history.old.facts id) started } }
{
    history.cut();
    land_and_take(history, id, Outcome::Dark, started);
}

// Enters that a read got these bytes, and that its answer was taken.
fn got_and_take(history: &mut History, id: u64, bytes: &[u8])
    requires begun { is_open history.old.facts id ≡ true }
    requires own { (request_of history.old.facts id).client ≡ 1 }
    requires read { IsSome (awaited history.old.facts id) }
    requires length { ForSome (awaited history.old.facts id) (λ count. length bytes.now ≡ 512 * count) }
    ensures { let r = request_of history.old.facts id in
        history.new ≡ record history.old { facts = landing_ends history.old.facts r (Landed r Outcome.Got true (first_chunks 512 r.count bytes.now)) } }
{
    history.land_read(id, bytes);
    history.taken(SCRIPT_CLIENT, id);
}

// Enters how a write ended whose transfer ended so.
fn end_write(history: &mut History, id: u64, how: &Moved)
    requires begun { is_open history.old.facts id ≡ true }
    requires own { (request_of history.old.facts id).client ≡ 1 }
    requires uncut { is_uncut history.old.facts ≡ true }
    ensures { history.new ≡ record history.old { facts = write_ends history.old.facts (request_of history.old.facts id) how.now } }
{
    match how {
        Moved::Done(_) => land_and_take(history, id, Outcome::Done, true),
        Moved::Failed(_) => land_and_take(history, id, Outcome::Lost, true),
        Moved::Dark { started } => cut_and_take(history, id, *started),
        Moved::Stuck => {}
    }
}

// Enters how a read of so many blocks ended whose transfer ended so.
fn end_read(history: &mut History, id: u64, count: u32, how: &Moved, bytes: &mut Vec<u8>)
    requires begun { is_open history.old.facts id ≡ true }
    requires own { (request_of history.old.facts id).client ≡ 1 }
    requires waits { awaited history.old.facts id ≡ Some count }
    requires uncut { is_uncut history.old.facts ≡ true }
    requires most { count ≤ 256 }
    requires room { 131072 ≤ vec_capacity bytes.old }
    ensures ends { history.new ≡ record history.old { facts = read_ends history.old.facts (request_of history.old.facts id) how.now } }
    ensures front { HasFront count how.now }
    ensures room { 131072 ≤ vec_capacity bytes.new }
{
    match how {
        Moved::Done(back) => {
            copy_front(bytes, back, count);
            got_and_take(history, id, bytes.as_slice());
        }
        Moved::Failed(_) => land_and_take(history, id, Outcome::ReadFailed, true),
        Moved::Dark { started } => cut_and_take(history, id, *started),
        Moved::Stuck => {}
    }
}

// Puts the power on again, where a transfer found it off.
fn relight_after_transfer<S: Shelf>(shelf: &mut S, how: &Moved)
    requires { Rests (S.device shelf.old) how.now }
    ensures lit { RelightsAfter (S.device shelf.old) (S.device shelf.new) how.now }
    ensures moments { Path DeviceStep (LeavesNoMore (S.device shelf.old)) (S.device shelf.old) (S.device shelf.new) }
{
    if let Moved::Dark { started: _ } = how {
        relight(shelf);
    }
}

/// Writes blocks of a disk in no group as a request, the first filled with this word and each other with the next.
/// The bytes have room for a whole buffer.
pub fn write_piece<S: Shelf>(
    shelf: &mut S,
    history: &mut History,
    disk: u16,
    from: u64,
    count: u32,
    word: u64,
    bytes: &mut Vec<u8>,
    buf: Pbuf,
    patience: &mut Patience,
) -> Moved
    requires ready { IsReady (S.device shelf.old) }
    requires may { MayAskPiece (S.device shelf.old) history.old disk from count }
    requires room { 131072 ≤ vec_capacity bytes.old }
    ensures does { WritesPiece history.old.run disk word from count patience.old.left (moment_of (S.device shelf.old) history.old.facts) (moment_of (S.device shelf.new) history.new.facts) result }
    ensures keeps { PieceKeeps history.old.run disk patience.old.left patience.new.left (moment_of (S.device shelf.old) history.old.facts) (moment_of (S.device shelf.new) history.new.facts) result }
    ensures takes { TakesRoom count history.old history.new result }
    ensures room { 131072 ≤ vec_capacity bytes.new }
{
    let mut buf = buf;
    fill_front(&mut buf, word, count);
    copy_front(bytes, &buf, count);
    let id = history.begin(
        SCRIPT_CLIENT,
        Vol::Disk(disk),
        from,
        count,
        Some(bytes.as_slice()),
    );
    let how = transfer(shelf, true, disk, from, count, buf, patience);
    end_write(history, id, &how);
    relight_after_transfer(shelf, &how);
    how
}

/// Reads blocks of a disk in no group as a request, to the front of the buffer. The bytes have room for a whole buffer.
pub fn read_piece<S: Shelf>(
    shelf: &mut S,
    history: &mut History,
    disk: u16,
    from: u64,
    count: u32,
    bytes: &mut Vec<u8>,
    buf: Pbuf,
    patience: &mut Patience,
) -> Moved
    requires ready { IsReady (S.device shelf.old) }
    requires may { MayAskPiece (S.device shelf.old) history.old disk from count }
    requires room { 131072 ≤ vec_capacity bytes.old }
    ensures does { ReadsPiece history.old.run disk from count patience.old.left (moment_of (S.device shelf.old) history.old.facts) (moment_of (S.device shelf.new) history.new.facts) result }
    ensures keeps { PieceKeeps history.old.run disk patience.old.left patience.new.left (moment_of (S.device shelf.old) history.old.facts) (moment_of (S.device shelf.new) history.new.facts) result }
    ensures takes { TakesRoom count history.old history.new result }
    ensures room { 131072 ≤ vec_capacity bytes.new }
{
    let id = history.begin(SCRIPT_CLIENT, Vol::Disk(disk), from, count, None);
    let how = transfer(shelf, false, disk, from, count, buf, patience);
    end_read(history, id, count, &how, bytes);
    relight_after_transfer(shelf, &how);
    how
}
