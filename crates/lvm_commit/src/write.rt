//! One record of a session is written, and the members on which its write failed are missing.
ghost use Rattle.std.specs.Prelude.{◌≡◌, ◌↔◌, ◌≢◌, ◌+◌, ◌<◌, ◌≤◌, ◌^◌, ◌++◌, ℕ, length, drop, None, IsTrue};
ghost use Rattle.std.specs.List.{list_any};
ghost use Rattle.lvm_num.specs.declared.descriptor.PvRow.{PvRow};
ghost use Rattle.lvm_num.specs.declared.record.Kind.TheVariants as kind;
ghost use Rattle.lvm_num.specs.Descriptor.{IsValid, is_member};
ghost use Rattle.lvm_num.specs.Disks.{has};
ghost use Rattle.lvm_num.specs.Record.{Frames, longest_content};
ghost use Rattle.lvm_num.specs.Status.{IsValidStatus};
ghost use Rattle.lvm_num.specs.StatusBytes.{status_bytes};
ghost use Rattle.lvm_disk.specs.Device.{IsReady};
ghost use Rattle.lvm_status.specs.Members.{HasItsRows};
ghost use Rattle.lvm_write.specs.Written.{HaveRoom};
ghost use Rattle.lvm_commit.specs.Committed.{next_stamp};
ghost use Rattle.lvm_commit.specs.Settling.{MaySettle, IsOf, there};
ghost use Rattle.lvm_commit.specs.Rounds.{IsInFlight, Starts, IsSent, UpdateHasEnded, HasLost, HasMarked, MarksRound, CommitsRound, HoldsRound, IsByVotes, stamped, session_write, RecordGives};

use crate::commit::CommitEnd;
use lvm_disk::Shelf;
use lvm_num::{Descriptor, DiskSet, Kind, Pbuf, Stamp};
use lvm_rec::Homes;
use lvm_status::{Change, Updater, members_there};
use lvm_write::below::{Patience, encode_into};
use lvm_write::{Wrote, write_record};

/// Writes what is wanted of the status to each member that isn't missing, under the next stamp. The members on which
/// that fails are wanted missing, and the copies that they leave behind stale.
pub fn write_wanted<S: Shelf>(
    shelf: &mut S,
    d: &Descriptor,
    updater: &mut Updater,
    homes: &mut Homes,
    bytes: &mut [u8],
    buf: Pbuf,
    patience: &mut Patience,
) -> CommitEnd
    requires ready { IsReady (S.device shelf.old) }
    requires may { MaySettle d.now updater.old (S.device shelf.old) }
    requires differs { updater.old.committed ≢ updater.old.wanted }
    requires number { updater.old.stamp.seq + 1 < 2 ^ 32 }
    requires bytes { longest_content kind.Status ≤ length bytes.old }
    ensures gives { RecordGives (session_write kind.Status (status_bytes updater.old.wanted) (stamped updater.old) homes.old) buf.number patience.old.left patience.new.left (stamped updater.old) updater.new homes.old homes.new (S.device shelf.old) (S.device shelf.new) result }
    ensures frames { Frames kind.Status (record { stamp = next_stamp updater.old.stamp; content = status_bytes updater.old.wanted }) }
    ensures valid { IsValidStatus updater.old.wanted }
    ensures marks { MarksRound d.now updater.old updater.new }
    ensures committed { CommitsRound updater.old.wanted updater.old updater.new result }
    ensures held { HoldsRound updater.old updater.new }
{
    match send_wanted(shelf, updater, homes, bytes, buf, patience) {
        Wrote::Ended { failed, buf } => {
            end_writes(d, updater, failed);
            mark_left(d, updater, failed);
            by_votes(d, updater, buf)
        }
        Wrote::Dark => CommitEnd::Dark,
        Wrote::Stuck => CommitEnd::Stuck,
    }
}

// Puts what is wanted in flight, and writes it to each member that isn't missing.
fn send_wanted<S: Shelf>(
    shelf: &mut S,
    updater: &mut Updater,
    homes: &mut Homes,
    bytes: &mut [u8],
    buf: Pbuf,
    patience: &mut Patience,
) -> Wrote
    requires ready { IsReady (S.device shelf.old) }
    requires idle { updater.old.in_flight ≡ None }
    requires differs { updater.old.committed ≢ updater.old.wanted }
    requires epoch { updater.old.stamp.epoch ≢ 0 }
    requires number { updater.old.stamp.seq + 1 < 2 ^ 32 }
    requires room { HaveRoom (S.device shelf.old) (there updater.old) }
    requires bytes { longest_content kind.Status ≤ length bytes.old }
    ensures starts { Starts updater.old updater.new }
    ensures sent { IsSent (session_write kind.Status (status_bytes updater.old.wanted) (stamped updater.old) homes.old) buf.number patience.old.left patience.new.left homes.old homes.new (S.device shelf.old) (S.device shelf.new) result }
    ensures frames { Frames kind.Status (record { stamp = next_stamp updater.old.stamp; content = status_bytes updater.old.wanted }) }
    ensures valid { IsValidStatus updater.old.wanted }
{
    updater.start();
    let stamp = updater.stamp();
    let targets = updater.writes().unstarted;
    let count = put_wanted(updater, bytes);
    write_record(
        shelf,
        Kind::Status,
        stamp,
        &bytes[..count],
        targets,
        homes,
        buf,
        patience,
    )
}

/// Writes a descriptor to each member that isn't missing, under the next stamp. The members on which that fails are
/// wanted missing, and the copies of `d` that they leave behind stale.
pub fn write_descriptor<S: Shelf>(
    shelf: &mut S,
    d: &Descriptor,
    updater: &mut Updater,
    homes: &mut Homes,
    content: &[u8],
    buf: Pbuf,
    patience: &mut Patience,
) -> CommitEnd
    requires ready { IsReady (S.device shelf.old) }
    requires may { MaySettle d.now updater.old (S.device shelf.old) }
    requires number { updater.old.stamp.seq + 1 < 2 ^ 32 }
    requires content { length content.now ≤ longest_content kind.Descriptor }
    ensures gives { RecordGives (session_write kind.Descriptor content.now (stamped updater.old) homes.old) buf.number patience.old.left patience.new.left (stamped updater.old) updater.new homes.old homes.new (S.device shelf.old) (S.device shelf.new) result }
    ensures frames { Frames kind.Descriptor (record { stamp = next_stamp updater.old.stamp; content = content.now }) }
    ensures marks { MarksRound d.now updater.old updater.new }
    ensures committed { CommitsRound updater.old.committed updater.old updater.new result }
    ensures held { HoldsRound updater.old updater.new }
{
    match send_descriptor(shelf, d, updater, homes, content, buf, patience) {
        Wrote::Ended { failed, buf } => {
            lose(d, updater, failed);
            mark_left(d, updater, failed);
            by_votes(d, updater, buf)
        }
        Wrote::Dark => CommitEnd::Dark,
        Wrote::Stuck => CommitEnd::Stuck,
    }
}

// Takes the next stamp, and writes a descriptor under it to each member that isn't missing.
fn send_descriptor<S: Shelf>(
    shelf: &mut S,
    d: &Descriptor,
    updater: &mut Updater,
    homes: &mut Homes,
    content: &[u8],
    buf: Pbuf,
    patience: &mut Patience,
) -> Wrote
    requires ready { IsReady (S.device shelf.old) }
    requires may { MaySettle d.now updater.old (S.device shelf.old) }
    requires number { updater.old.stamp.seq + 1 < 2 ^ 32 }
    requires content { length content.now ≤ longest_content kind.Descriptor }
    ensures stamps { updater.new ≡ stamped updater.old }
    ensures sent { IsSent (session_write kind.Descriptor content.now (stamped updater.old) homes.old) buf.number patience.old.left patience.new.left homes.old homes.new (S.device shelf.old) (S.device shelf.new) result }
    ensures frames { Frames kind.Descriptor (record { stamp = next_stamp updater.old.stamp; content = content.now }) }
{
    let stamp = next_stamp(updater.stamp());
    updater.set_stamp(stamp);
    let targets = members_there(d, updater.wanted());
    write_record(
        shelf,
        Kind::Descriptor,
        stamp,
        content,
        targets,
        homes,
        buf,
        patience,
    )
}

/// Whether what is wanted is committed.
pub fn is_committed(updater: &Updater) -> bool
    ensures { IsTrue result ↔ (updater.now.committed ≡ updater.now.wanted) }
{
    updater.committed().as_status() == updater.wanted().as_status()
}

// The stamp after this one in its session.
fn next_stamp(stamp: Stamp) -> Stamp
    requires { stamp.seq + 1 < 2 ^ 32 }
    ensures { result ≡ next_stamp stamp }
{
    Stamp {
        epoch: stamp.epoch,
        seq: stamp.seq + 1,
    }
}

// Puts the bytes of what is wanted at the front of others, and answers how many these are.
fn put_wanted(updater: &Updater, bytes: &mut [u8]) -> usize
    requires { longest_content kind.Status ≤ length bytes.old }
    ensures written { bytes.new ≡ status_bytes updater.now.wanted ++ drop (length (status_bytes updater.now.wanted)) bytes.old }
    ensures count { result ≡ length (status_bytes updater.now.wanted) }
    ensures fits { result ≤ longest_content kind.Status }
    ensures valid { IsValidStatus updater.now.wanted }
{
    encode_into(updater.wanted().as_status(), bytes)
}

// Ends the writes of the update in flight, on these disks badly.
fn end_writes(d: &Descriptor, updater: &mut Updater, failed: DiskSet)
    requires valid { IsValid d.now }
    requires own { IsOf d.now updater.old }
    requires started { IsInFlight updater.old }
    ensures { UpdateHasEnded (has failed) updater.old updater.new }
{
    while let Some(disk) = updater.next_write() {
        updater.ended(disk, !failed.has(disk));
    }
}

// These members are wanted missing.
fn lose(d: &Descriptor, updater: &mut Updater, failed: DiskSet)
    requires valid { IsValid d.now }
    requires own { IsOf d.now updater.old }
    requires idle { updater.old.in_flight ≡ None }
    requires rows { HasItsRows updater.old.group updater.old.wanted }
    requires members { (disk : ℕ) → IsTrue (has failed disk) → IsTrue (is_member d.now disk) }
    ensures { HasLost (has failed) updater.old updater.new }
{
    for row in d.pvs.as_slice() {
        if failed.has(row.disk) {
            updater.want(Change::Missing(row.disk));
        }
    }
}

// Where a member is one of these disks, the copies of the group's volumes that are left behind are wanted stale.
fn mark_left(d: &Descriptor, updater: &mut Updater, lost: DiskSet)
    requires valid { IsValid d.now }
    requires own { IsOf d.now updater.old }
    requires rows { HasItsRows updater.old.group updater.old.wanted }
    ensures { HasMarked d.now (has lost) updater.old updater.new }
{
    if is_any_of(d, lost) {
        updater.mark_left(d.lvs.as_slice());
    }
}

// Whether a member is one of these disks.
fn is_any_of(d: &Descriptor, disks: DiskSet) -> bool
    requires { IsValid d.now }
    ensures { result ≡ list_any (λ (row : PvRow). has disks row.disk) d.now.pvs }
{
    d.pvs.as_slice().iter().any(|row| disks.has(row.disk))
}

// Whether the members that aren't missing have votes enough to write.
fn by_votes(d: &Descriptor, updater: &Updater, buf: Pbuf) -> CommitEnd
    requires valid { IsValid d.now }
    requires own { IsOf d.now updater.now }
    ensures { IsByVotes updater.now buf result }
{
    let (have, total) = updater.votes();
    if d.enough_to_write(have) {
        CommitEnd::Done { buf }
    } else {
        CommitEnd::WentOff { have, total, buf }
    }
}
