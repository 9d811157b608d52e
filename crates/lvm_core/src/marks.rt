//! Marks of partitions that are stale or fresh, and of volumes that are dirty or not.
ghost use Rattle.std.specs.Prelude.{◌≡◌, ◌++◌, [], None, All};
ghost use Rattle.lvm_status.specs.Calls.{IsMarkable};
ghost use Rattle.lvm_num.specs.Status.{IsVolumeNumber};
ghost use Rattle.lvm_core.specs.Steps.{IsMarked, IsDirtied};

use lvm_num::Pp;
use lvm_status::{Change, Updater};

/// Wants these partitions stale and those fresh, where they aren't so already.
pub fn mark(updater: &mut Updater, stale: &[Pp], fresh: &[Pp])
    requires idle { updater.old.in_flight ≡ None }
    requires markable { All (IsMarkable updater.old.wanted) (stale.now ++ fresh.now) }
    ensures { IsMarked stale.now fresh.now updater.old updater.new }
{
    mark_stale(updater, stale);
    mark_fresh(updater, fresh);
}

fn mark_stale(updater: &mut Updater, pps: &[Pp])
    requires idle { updater.old.in_flight ≡ None }
    requires markable { All (IsMarkable updater.old.wanted) pps.now }
    ensures { IsMarked pps.now [] updater.old updater.new }
{
    for pp in pps {
        if !updater.wanted().is_stale(*pp) {
            updater.want(Change::Stale(*pp));
        }
    }
}

fn mark_fresh(updater: &mut Updater, pps: &[Pp])
    requires idle { updater.old.in_flight ≡ None }
    requires markable { All (IsMarkable updater.old.wanted) pps.now }
    ensures { IsMarked [] pps.now updater.old updater.new }
{
    for pp in pps {
        if updater.wanted().is_stale(*pp) {
            updater.want(Change::Fresh(*pp));
        }
    }
}

/// Wants these volumes dirty and those not, where they aren't so already.
pub fn mark_volumes(updater: &mut Updater, dirty: &[u16], clean: &[u16])
    requires idle { updater.old.in_flight ≡ None }
    requires numbers { All IsVolumeNumber (dirty.now ++ clean.now) }
    ensures { IsDirtied dirty.now clean.now updater.old updater.new }
{
    mark_dirty(updater, dirty);
    mark_clean(updater, clean);
}

fn mark_dirty(updater: &mut Updater, numbers: &[u16])
    requires idle { updater.old.in_flight ≡ None }
    requires numbers { All IsVolumeNumber numbers.now }
    ensures { IsDirtied numbers.now [] updater.old updater.new }
{
    for number in numbers {
        if !updater.wanted().is_dirty(*number) {
            updater.want(Change::Dirty(*number));
        }
    }
}

fn mark_clean(updater: &mut Updater, numbers: &[u16])
    requires idle { updater.old.in_flight ≡ None }
    requires numbers { All IsVolumeNumber numbers.now }
    ensures { IsDirtied [] numbers.now updater.old updater.new }
{
    for number in numbers {
        if updater.wanted().is_dirty(*number) {
            updater.want(Change::Clean(*number));
        }
    }
}
