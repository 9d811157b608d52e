//! The work that is left of the copy that is open.
ghost use Rattle.std.specs.Prelude.{◌≡◌, ◌≤◌, ◌<◌, ◌+◌, ◌-◌, ◌*◌, false, count_by, length, All, IfSome};
ghost use Rattle.std.specs.Option.{option_map_or};
ghost use Rattle.lvm_num.specs.declared.place.Pp.{Pp};
ghost use Rattle.lvm_num.specs.Descriptor.{IsValid};
ghost use Rattle.lvm_num.specs.Disks.{has};
ghost use Rattle.lvm_session.specs.Bringing.{groups_of, is_whole};
ghost use Rattle.lvm_session.specs.Fields.{core_of};
ghost use Rattle.lvm_session.specs.Left.{copy_left, step_left, tried_of, update_work};
ghost use Rattle.lvm_session.specs.Sound.{IsCopy};

use crate::facts_places::{copies_beside, partition_blocks};
use crate::standing::{is_running, is_whole};
use lvm_num::Pp;
use lvm_session::{OpenCopy, Session, Step};

// How many copies were tried for the track group at its cursor.
fn tried_of(session: &Session, copy: &OpenCopy) -> u64
    requires valid { IsValid session.now.descriptor }
    requires copy { IsCopy (core_of session.now) copy.now }
    ensures is { result ≡ tried_of (core_of session.now) copy.now }
    ensures few { result ≤ 3 }
{
    count_tried(copies_beside(session, copy), copy)
}

fn count_tried(copies: &[Pp], copy: &OpenCopy) -> u64
    requires few { length copies.now ≤ 3 }
    requires disks { All (λ (p : Pp). p.disk < 128) copies.now }
    ensures is { result ≡ count_by (λ (p : Pp). has copy.now.tried p.disk) copies.now }
    ensures few { result ≤ 3 }
{
    let mut tried = 0;
    for pp in copies {
        if copy.tried.has(pp.disk) {
            tried += 1;
        }
    }
    tried
}

// The track group at its cursor.
fn step_left(session: &Session, copy: &OpenCopy) -> u64
    requires valid { IsValid session.now.descriptor }
    requires copy { IsCopy (core_of session.now) copy.now }
    ensures is { result ≡ step_left copy.now.step (tried_of (core_of session.now) copy.now) }
    ensures few { result ≤ 8 }
{
    match copy.step {
        Step::Idle => 8 - 2 * tried_of(session, copy),
        Step::Reading { .. } => 6 - 2 * tried_of(session, copy),
        Step::Read { .. } => 2,
        Step::Writing => 0,
    }
}

// The track groups that are left.
fn groups_left(session: &Session, copy: &OpenCopy) -> u64
    requires valid { IsValid session.now.descriptor }
    requires copy { IsCopy (core_of session.now) copy.now }
    requires part { is_whole (core_of session.now) copy.now ≡ false }
    ensures is { result ≡ 3 * update_work + 16 * (groups_of (core_of session.now) - copy.now.cursor - 1) + 8 + step_left copy.now.step (tried_of (core_of session.now) copy.now) }
    ensures few { result ≤ 1048576 }
{
    let groups = partition_blocks(session.descriptor.mib) / 256;
    776 + 16 * (groups - u64::from(copy.cursor) - 1) + step_left(session, copy)
}

fn running_left(session: &Session, copy: &OpenCopy) -> u64
    requires valid { IsValid session.now.descriptor }
    requires copy { IsCopy (core_of session.now) copy.now }
    ensures is { result ≡ copy_left (core_of session.now) copy.now }
    ensures few { result ≤ 1048576 }
{
    if !is_running(copy) {
        0
    } else if is_whole(session, copy) {
        512
    } else {
        groups_left(session, copy)
    }
}

/// The updates that it may bring, and its track groups.
pub fn copy_left(session: &Session) -> u64
    requires valid { IsValid session.now.descriptor }
    requires copy { IfSome session.now.copy (IsCopy (core_of session.now)) }
    ensures is { result ≡ option_map_or (copy_left (core_of session.now)) session.now.copy 0 }
    ensures few { result ≤ 1048576 }
{
    match &session.copy {
        None => 0,
        Some(copy) => running_left(session, copy),
    }
}
