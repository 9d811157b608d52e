//! The work that is left of the status.
ghost use Rattle.std.specs.Prelude.{◌≡◌, ◌≤◌, count_by, not};
ghost use Rattle.lvm_num.specs.declared.descriptor.PvRow.{PvRow};
ghost use Rattle.lvm_num.specs.Descriptor.{IsValid};
ghost use Rattle.lvm_num.specs.Disks.{has};
ghost use Rattle.lvm_session.specs.Enabled.{same_status};
ghost use Rattle.lvm_session.specs.Fields.{core_of};
ghost use Rattle.lvm_session.specs.State.{is_there};
ghost use Rattle.lvm_session.specs.Left.{if_so, status_left, unstarted_writes, update_work};
ghost use Rattle.lvm_session.specs.Sound.{IsFitting};

use lvm_num::{Descriptor, DiskSet, Status};
use lvm_session::Session;
use lvm_status::members_there;

// How many members are in a set of disks.
fn count_in(d: &Descriptor, disks: DiskSet) -> u64
    requires { IsValid d.now }
    ensures is { result ≡ count_by (λ (row : PvRow). has disks row.disk) d.now.pvs }
    ensures few { result ≤ 128 }
{
    let mut count = 0;
    for row in d.pvs.as_slice() {
        if disks.has(row.disk) {
            count += 1;
        }
    }
    count
}

/// The members that aren't missing.
pub fn members_left(session: &Session) -> u64
    requires { IsFitting (core_of session.now) }
    ensures is { result ≡ count_by (λ (row : PvRow). is_there (core_of session.now) row.disk) session.now.descriptor.pvs }
    ensures few { result ≤ 128 }
{
    let there = members_there(&session.descriptor, session.updater.wanted());
    count_in(&session.descriptor, there)
}

// The writes of the update that aren't started.
fn unstarted_writes(session: &Session) -> u64
    requires { IsFitting (core_of session.now) }
    ensures is { result ≡ unstarted_writes (core_of session.now) }
    ensures few { result ≤ 128 }
{
    count_in(&session.descriptor, session.updater.writes().unstarted)
}

// The update that will follow on this status, where that isn't what is wanted.
fn next_left(session: &Session, last: &Status) -> u64
    ensures is { result ≡ if_so (not (same_status session.now.updater.wanted last.now)) update_work }
    ensures few { result ≤ 256 }
{
    if says_the_same(session.updater.wanted().as_status(), last) {
        0
    } else {
        256
    }
}

fn says_the_same(a: &Status, b: &Status) -> bool
    ensures { result ≡ same_status a.now b.now }
{
    a == b
}

/// The update in flight, and the one that will follow.
pub fn status_left(session: &Session) -> u64
    requires { IsFitting (core_of session.now) }
    ensures is { result ≡ status_left (core_of session.now) }
    ensures few { result ≤ 512 }
{
    match session.updater.in_flight() {
        None => next_left(session, session.updater.committed().as_status()),
        Some(flying) => 2 * unstarted_writes(session) + next_left(session, flying.as_status()),
    }
}
