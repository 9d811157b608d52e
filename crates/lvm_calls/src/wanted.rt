//! Partitions become wanted stale.
ghost use Rattle.std.specs.Prelude.{◌<◌, ◌∷◌, [], length, filter, All, IfSome};
ghost use Rattle.lvm_num.specs.declared.place.Pp.{Pp};
ghost use Rattle.lvm_num.specs.Descriptor.{is_pp};
ghost use Rattle.lvm_status.specs.Calls.{IsMarkable};
ghost use Rattle.lvm_status.specs.Update.{seen};
ghost use Rattle.lvm_status.specs.Runs.{IsSoundStatus};
ghost use Rattle.lvm_path.specs.declared.target.Target.{Target};
ghost use Rattle.lvm_session.specs.Judging.{pps_of};
ghost use Rattle.lvm_session.specs.Marks.{WantsStale, is_among};
ghost use Rattle.lvm_calls.specs.Due.{is_meant, without_place};

use lvm_num::Pp;
use lvm_path::Target;
use lvm_sched::TargetState;
use lvm_status::{Change, Updater};

/// A partition becomes wanted stale, where it isn't.
pub fn want_stale(updater: &mut Updater, pp: Pp)
    requires sound { IsSoundStatus (seen updater.old) }
    requires markable { IsMarkable updater.old.wanted pp }
    ensures { WantsStale (λ (p : Pp). is_pp p pp) updater.old updater.new }
{
    if !updater.wanted().is_stale(pp) {
        updater.want(Change::Stale(pp));
    }
}

/// The targets whose transfers failed become wanted stale, or all of them.
pub fn mark_targets(updater: &mut Updater, targets: &[Target], all: bool)
    requires sound { IsSoundStatus (seen updater.old) }
    requires markable { All (λ (t : Target). IsMarkable updater.old.wanted t.pp) targets.now }
    ensures { WantsStale (is_among (pps_of (filter (is_meant all) targets.now))) updater.old updater.new }
{
    for target in targets {
        mark_if(updater, target, all);
    }
}

// One of them does, where it is meant.
fn mark_if(updater: &mut Updater, target: &Target, all: bool)
    requires sound { IsSoundStatus (seen updater.old) }
    requires markable { IsMarkable updater.old.wanted target.now.pp }
    ensures { WantsStale (is_among (pps_of (filter (is_meant all) (target.now ∷ [])))) updater.old updater.new }
{
    if all || matches!(target.state, TargetState::Failed) {
        want_stale(updater, target.pp);
    }
}

/// All targets become wanted stale but the one at this place, from 0.
pub fn mark_others(updater: &mut Updater, targets: &[Target], sure: Option<usize>)
    requires sound { IsSoundStatus (seen updater.old) }
    requires markable { All (λ (t : Target). IsMarkable updater.old.wanted t.pp) targets.now }
    requires within { IfSome sure (λ k. k < length targets.now) }
    ensures { WantsStale (is_among (pps_of (without_place sure targets.now))) updater.old updater.new }
{
    match sure {
        None => mark_targets(updater, targets, true),
        Some(k) => {
            mark_targets(updater, &targets[..k], true);
            mark_targets(updater, &targets[k + 1..], true);
        }
    }
}
