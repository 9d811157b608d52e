//! A request gives up its pin.
ghost use Rattle.std.specs.Prelude.{◌≡◌, ◌≤◌, ◌<◌, ◌^◌, true, if◌then◌else◌};
ghost use Rattle.lvm_session.specs.passed.Mwc.{after_unpin, pins_of};
ghost use Rattle.lvm_session.specs.passed.Path.{at_of, lv_of};
ghost use Rattle.lvm_session.specs.Judging.{group_of};

use crate::standing::group_of;
use lvm_session::below::{Ask, Cache};

/// Gives up a pin of the track group of a request, where it holds one.
pub fn unpin(cache: &mut Cache, pinned: bool, ask: &Ask)
    requires pin { pinned ≡ true → 1 ≤ pins_of cache.old.entries (lv_of ask.now) (group_of ask.now) }
    requires fits { at_of ask.now < 2 ^ 40 }
    ensures { cache.new ≡ (if pinned then after_unpin cache.old (lv_of ask.now) (group_of ask.now) else cache.old) }
{
    if pinned {
        cache.unpin(ask.lv(), group_of(ask));
    }
}
