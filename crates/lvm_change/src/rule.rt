//! The next descriptor of a group whose rule of votes or whose size changes, and when it may be committed.
ghost use Rattle.std.specs.Prelude.{◌≡◌, ◌&&◌, not, IfOk, IfSome, IfNone, IsTrue, IsFalse};
ghost use Rattle.std.specs.List.{list_any};
ghost use Rattle.lvm_num.specs.declared.descriptor.PvRow.{PvRow};
ghost use Rattle.lvm_num.specs.Descriptor.{IsValid};
ghost use Rattle.lvm_num.specs.Disks.{has};
ghost use Rattle.lvm_num.specs.Votes.{CanWrite};
ghost use Rattle.lvm_change_laws.specs.Rule.{DiffersInRule, MayChangeRule};
ghost use Rattle.lvm_change.specs.Rule.{with_quorum, as_big, LosesVotes, KeepsVotes, IsRefused};

use lvm_num::{Descriptor, DiskSet, Memory, clone_descriptor};
use std::alloc::Global;

/// Votes by a group's next descriptor, by which it may not be committed.
#[derive(Clone, Copy, PartialEq, Eq)]
pub struct FewVotes {
    /// Those of the members that aren't missing.
    pub have: u32,
    /// Those of all members.
    pub total: u32,
}

/// The group with quorum checking on or off. Two members are even no more.
pub fn with_quorum(alloc: Global, d: &Descriptor, on: bool) -> Result<Descriptor, Memory>
    requires { IsValid d.now }
    ensures next { IfOk result (λ next. next ≡ with_quorum on d.now) }
    ensures valid { IfOk result IsValid }
    ensures differs { IfOk result (DiffersInRule d.now) }
{
    let mut next = clone_descriptor(alloc, d)?;
    next.quorum = on;
    next.even = false;
    Ok(next)
}

/// The group as a big one, with up to 128 members and 511 volumes.
pub fn as_big(alloc: Global, d: &Descriptor) -> Result<Descriptor, Memory>
    requires { IsValid d.now }
    ensures next { IfOk result (λ next. next ≡ as_big d.now) }
    ensures valid { IfOk result IsValid }
    ensures differs { IfOk result (DiffersInRule d.now) }
{
    let mut next = clone_descriptor(alloc, d)?;
    next.big = true;
    Ok(next)
}

/// Why a group may not turn to its next descriptor: the members that aren't missing have too few votes to write by it, or quorum checking is
/// switched off by it while a member is missing, since all votes must then be found.
pub fn few_votes_for(was: &Descriptor, next: &Descriptor, there: DiskSet) -> Option<FewVotes>
    requires was { IsValid was.now }
    requires next { IsValid next.now }
    requires differs { DiffersInRule was.now next.now }
    requires enough { CanWrite was.now (has there) }
    ensures some { IfSome result (IsRefused was.now next.now (has there)) }
    ensures none { IfNone result (MayChangeRule was.now next.now (has there)) }
{
    let have = next.votes_in(there);
    if next.enough_to_write(have) && !loses_votes(was, next, there) {
        return None;
    }
    Some(FewVotes {
        have,
        total: next.total_votes(),
    })
}

// Whether quorum checking is switched off while a member is missing.
fn loses_votes(was: &Descriptor, next: &Descriptor, there: DiskSet) -> bool
    requires { IsValid next.now }
    ensures yes { IsTrue result → LosesVotes was.now next.now (has there) }
    ensures no { IsFalse result → KeepsVotes was.now next.now (has there) }
{
    asks_for_missing(was, next, there)
}

// Whether it is, by the two descriptors and the disks.
fn asks_for_missing(was: &Descriptor, next: &Descriptor, there: DiskSet) -> bool
    requires { IsValid next.now }
    ensures { result ≡ (was.now.quorum && (not next.now.quorum && list_any (λ (row : PvRow). not (has there row.disk)) next.now.pvs)) }
{
    was.quorum && !next.quorum && is_any_missing(next, there)
}

// Whether a member isn't among these disks.
fn is_any_missing(d: &Descriptor, there: DiskSet) -> bool
    requires { IsValid d.now }
    ensures { result ≡ list_any (λ (row : PvRow). not (has there row.disk)) d.now.pvs }
{
    d.pvs.as_slice().iter().any(|row| !there.has(row.disk))
}
