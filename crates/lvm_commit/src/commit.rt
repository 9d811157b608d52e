//! The records of a session are committed.
ghost use Rattle.std.specs.Prelude.{◌≡◌, ◌≤◌, length};
ghost use Rattle.lvm_num.specs.declared.record.Kind.TheVariants as kind;
ghost use Rattle.lvm_num.specs.Record.{longest_content};
ghost use Rattle.lvm_commit.specs.Settling.{EndsAtOnce, HoldsWithin, MayCommit, IsContentOf, IsOfStatus, IsOfCommit, StatusStaysKept, DescriptorStaysKept, StatusFindsNothingNew, CommitFindsNoMore, CommitLeaves, StatusEnds, DescriptorEnds};

use crate::write::{is_committed, write_descriptor, write_wanted};
use lvm_disk::Shelf;
use lvm_num::{Descriptor, Pbuf};
use lvm_rec::Homes;
use lvm_status::Updater;
use lvm_write::below::Patience;

/// How a commit ended.
#[derive(Drop)]
pub enum CommitEnd {
    /// What is wanted is committed.
    Done { buf: Pbuf },
    /// The votes `have` of the members that aren't missing aren't enough to write, of `total` of all.
    WentOff { have: u32, total: u32, buf: Pbuf },
    /// The power was cut, and is off.
    Dark,
    /// Nothing was heard of a transfer until the patience had run out.
    Stuck,
}

/// Writes what is wanted of the status to the members that aren't missing, until what is wanted is committed.
/// A member whose write fails is missing, and what is written next says so, and calls the copies stale that it
/// leaves behind. `d` is the session's group, and `bytes` is room for the largest status. It takes no memory.
pub fn commit_status<S: Shelf>(
    shelf: &mut S,
    d: &Descriptor,
    updater: &mut Updater,
    homes: &mut Homes,
    bytes: &mut [u8],
    buf: Pbuf,
    patience: &mut Patience,
) -> CommitEnd
    requires may { MayCommit 1 d.now updater.old (S.device shelf.old) }
    requires bytes { longest_content kind.Status ≤ length bytes.old }
    ensures ends { StatusEnds buf.number patience.old.left updater.old updater.new homes.old homes.new (S.device shelf.old) (S.device shelf.new) result }
    // nothing was wanted
    ensures unwritten { updater.old.wanted ≡ updater.old.committed → EndsAtOnce result ((shelf.new ≡ shelf.old) × (updater.new ≡ updater.old) × (homes.new ≡ homes.old) × (patience.new ≡ patience.old)) }
    // whatever the answer
    ensures leaves { CommitLeaves d.now (IsOfStatus updater.old updater.new) patience.old.left patience.new.left updater.old updater.new (S.device shelf.old) (S.device shelf.new) }
    ensures finds { StatusFindsNothingNew updater.old homes.old (S.device shelf.old) (S.device shelf.new) }
    ensures kept { StatusStaysKept d.now updater.old homes.old (S.device shelf.old) (S.device shelf.new) }
    ensures held { HoldsWithin updater.old updater.new }
{
    let mut buf = buf;
    while !is_committed(updater) {
        match write_wanted(shelf, d, updater, homes, bytes, buf, patience) {
            CommitEnd::Done { buf: back } => buf = back,
            stopped => return stopped,
        }
    }
    CommitEnd::Done { buf }
}

/// Writes a descriptor to the members that aren't missing. Those whose write fails are missing, and the status
/// says so before the call answers, and calls the copies stale that they leave behind: what is wanted is
/// committed. `d` is that descriptor and `content` its bytes, and `bytes` is room for the largest status. It
/// takes no memory.
pub fn commit_descriptor<S: Shelf>(
    shelf: &mut S,
    d: &Descriptor,
    updater: &mut Updater,
    homes: &mut Homes,
    content: &[u8],
    bytes: &mut [u8],
    buf: Pbuf,
    patience: &mut Patience,
) -> CommitEnd
    requires may { MayCommit 2 d.now updater.old (S.device shelf.old) }
    requires settled { updater.old.committed ≡ updater.old.wanted }
    requires content { IsContentOf d.now content.now }
    requires bytes { longest_content kind.Status ≤ length bytes.old }
    ensures ends { DescriptorEnds content.now buf.number patience.old.left updater.old updater.new homes.old homes.new (S.device shelf.old) (S.device shelf.new) result }
    // whatever the answer
    ensures leaves { CommitLeaves d.now (IsOfCommit content.now updater.old updater.new) patience.old.left patience.new.left updater.old updater.new (S.device shelf.old) (S.device shelf.new) }
    ensures finds { CommitFindsNoMore content.now updater.old homes.old (S.device shelf.old) (S.device shelf.new) }
    ensures kept { DescriptorStaysKept content.now updater.old homes.old (S.device shelf.old) (S.device shelf.new) }
    ensures held { HoldsWithin updater.old updater.new }
{
    match write_descriptor(shelf, d, updater, homes, content, buf, patience) {
        CommitEnd::Done { buf } => commit_status(shelf, d, updater, homes, bytes, buf, patience),
        stopped => stopped,
    }
}
