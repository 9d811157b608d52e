//! Copies that missing disks leave behind become wanted stale.
ghost use Rattle.std.specs.Prelude.{◌≡◌, ◌&&◌, All};
ghost use Rattle.std.specs.List.{list_any};
ghost use Rattle.lvm_num.specs.declared.place.Pp.{Pp};
ghost use Rattle.lvm_num.specs.Descriptor.{IsLaidOut, partitions_in, is_pp};
ghost use Rattle.lvm_status.specs.Calls.{IsMarkable};
ghost use Rattle.lvm_status.specs.Runs.{IsSoundStatus};
ghost use Rattle.lvm_status.specs.Update.{seen};
ghost use Rattle.lvm_session.specs.Marks.{WantsStale, is_among};
ghost use Rattle.lvm_calls.specs.Left.{can_stand_in, is_gone, is_left_among, is_left_below, is_left_of};

use crate::wanted::want_stale;
use lvm_num::{LvRow, Pp, copies_of};
use lvm_status::Updater;

// Whether it can be read, and isn't wanted stale.
fn can_stand_in(updater: &Updater, pp: Pp) -> bool
    ensures { result ≡ can_stand_in updater.now pp }
{
    !updater.committed().is_stale(pp)
        && !updater.wanted().is_missing(pp.disk)
        && !updater.wanted().is_stale(pp)
}

fn any_stands_in(updater: &Updater, copies: &[Pp]) -> bool
    ensures { result ≡ list_any (can_stand_in updater.now) copies.now }
{
    copies.iter().any(|pp| can_stand_in(updater, *pp))
}

// Whether it is fresh, on a missing disk.
fn is_gone(updater: &Updater, pp: Pp) -> bool
    ensures { result ≡ is_gone updater.now pp }
{
    !updater.committed().is_stale(pp) && updater.wanted().is_missing(pp.disk)
}

fn mark_if_gone(updater: &mut Updater, pp: Pp)
    requires sound { IsSoundStatus (seen updater.old) }
    requires markable { IsMarkable updater.old.wanted pp }
    ensures { WantsStale (λ (p : Pp). is_pp p pp && is_gone updater.old pp) updater.old updater.new }
{
    if is_gone(updater, pp) {
        want_stale(updater, pp);
    }
}

// Those of these copies that are fresh on missing disks become wanted stale.
fn mark_gone(updater: &mut Updater, copies: &[Pp])
    requires sound { IsSoundStatus (seen updater.old) }
    requires markable { All (IsMarkable updater.old.wanted) copies.now }
    ensures { WantsStale (λ (p : Pp). is_among copies.now p && is_gone updater.old p) updater.old updater.new }
{
    for pp in copies {
        mark_if_gone(updater, *pp);
    }
}

// Those that are left behind of a logical partition do.
fn mark_copies(updater: &mut Updater, copies: &[Pp])
    requires sound { IsSoundStatus (seen updater.old) }
    requires markable { All (IsMarkable updater.old.wanted) copies.now }
    ensures { WantsStale (is_left_among updater.old copies.now) updater.old updater.new }
{
    if any_stands_in(updater, copies) {
        mark_gone(updater, copies);
    }
}

// Those of a volume do.
fn mark_volume(updater: &mut Updater, volume: &LvRow)
    requires sound { IsSoundStatus (seen updater.old) }
    requires laid_out { IsLaidOut volume.now }
    requires markable { All (IsMarkable updater.old.wanted) volume.now.map }
    ensures { WantsStale (is_left_below updater.old volume.now volume.now.lps) updater.old updater.new }
{
    for lp in 0..volume.lps {
        mark_copies(updater, copies_of(volume, lp));
    }
}

/// Each fresh copy of these volumes on a missing disk becomes wanted stale whose logical partition has another copy
/// that can be read and isn't wanted stale.
pub fn mark_left(updater: &mut Updater, volumes: &[LvRow])
    requires sound { IsSoundStatus (seen updater.old) }
    requires laid_out { All IsLaidOut volumes.now }
    requires markable { All (IsMarkable updater.old.wanted) (partitions_in volumes.now) }
    ensures { WantsStale (is_left_of updater.old volumes.now) updater.old updater.new }
{
    for volume in volumes {
        mark_volume(updater, volume);
    }
}
