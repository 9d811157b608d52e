//! Laws: sessions in which disks have failed are sound.
ghost use Rattle.lvm_keeps.specs.Copies.{CarriedWritesAreUnsound, FailedCopiesAreSound, WholeCopiesAreSound};
ghost use Rattle.lvm_keeps.specs.Failing.{KeptWritesAreSound, LostWritesAreSound, UnsettledWritesAreSound};
ghost use Rattle.lvm_keeps.specs.Faulted.{EndedSessionsAreSound, LostVotesAreSound, MissingDisksAreSound};
ghost use Rattle.lvm_keeps.specs.Unread.{FailedReadsAreSound, WritesWithoutCopyAreSound};

use lvm_session::{copies_are_sound, held_writes_are_sound};

/// A session that misses a disk since a transfer on it failed is sound, in whatever mode its volume is.
pub fn missing_disks_are_sound()
    ensures { MissingDisksAreSound }
{
    held_writes_are_sound();
}

/// So is a session that has lost its votes since transfers failed on two of three disks, and it may end.
pub fn lost_votes_are_sound()
    ensures { LostVotesAreSound }
{
    held_writes_are_sound();
}

/// So it is once it has ended, and when the power is cut after that; a request that landed as off keeps that answer.
pub fn ended_sessions_are_sound()
    ensures { EndedSessionsAreSound }
{
    held_writes_are_sound();
}

/// A session with a write that has failed on one of two copies, and waits until that one is settled as stale, is sound.
pub fn unsettled_writes_are_sound()
    ensures { UnsettledWritesAreSound }
{
    held_writes_are_sound();
}

/// So it is once that is settled, and the write lands as done.
pub fn kept_writes_are_sound()
    ensures { KeptWritesAreSound }
{
    held_writes_are_sound();
}

/// So is one with a write that has failed on both copies, and lands as lost.
pub fn lost_writes_are_sound()
    ensures { LostWritesAreSound }
{
    held_writes_are_sound();
}

/// A session with a copy that is whole, and of which the clearing is in flight, is sound.
pub fn whole_copies_are_sound()
    ensures { WholeCopiesAreSound }
{
    copies_are_sound();
}

/// So is one with a copy that has failed with the write of its clearing to its own disk, also once it is closed.
pub fn failed_copies_are_sound()
    ensures { FailedCopiesAreSound }
{
    copies_are_sound();
}

/// A session with a write for which no copy is left since a disk failed is sound, and the write lands so.
pub fn writes_without_copy_are_sound()
    ensures { WritesWithoutCopyAreSound }
{
    held_writes_are_sound();
}

/// So is one with a read that has failed on each copy, and lands so.
pub fn failed_reads_are_sound()
    ensures { FailedReadsAreSound }
{
    held_writes_are_sound();
}

/// A session isn't sound with a write that has failed on its fresh copy, and is done on the one that is brought up:
/// with the commit of the clearing it would wait for ever.
pub fn carried_writes_are_unsound()
    ensures { CarriedWritesAreUnsound }
{}
