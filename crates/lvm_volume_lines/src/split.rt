//! The line that splits a volume.
ghost use Rattle.lvm_status.specs.Members.{HasItsRows};
ghost use Rattle.lvm_session.specs.Sound.{IsSound};
ghost use Rattle.lvm_core.specs.Settled.{IsSettled};
ghost use Rattle.lvm_core.specs.State.{state_of};
ghost use Rattle.lvm_volume_lines.specs.passed.Splitting.{SplitGives, to_split};
ghost use Rattle.lvm_volume_lines.specs.passed.GroupLines.{EndsUnasked, OfGroup, IsBetweenStage, IsFittingStage};
ghost use Rattle.lvm_volume_lines.specs.Commands.{IsCarriedOut, none_added};
ghost use Rattle.lvm_volume_lines.specs.Splitting.{SplitlvcopyDoes};
ghost use Rattle.lvm_volume_lines.specs.Sharing.{SharesBehind};

use crate::below::Post;
use crate::below::split::split;
use crate::below::stage::{Answered, Refusal, Stage};
use crate::volumes::{after, come_to_rest, drain_refusal, go_on};
use lvm_core::CommandDriver;
use lvm_disk::Shelf;
use lvm_num::Name;
use lvm_transfer::Patience;
use std::alloc::Global;

// Splits a volume of the group of a session.
fn split_volume<S: Shelf>(
    alloc: Global,
    driver: CommandDriver<S>,
    posts: Vec<Post>,
    bytes: Vec<u8>,
    lv: u16,
    made: Name,
    copies: u8,
    patience: &mut Patience,
) -> Answered<S>
    requires settled { IsSettled driver.1 }
    requires sound { IsSound (state_of S.device driver) }
    requires rows { HasItsRows driver.1.descriptor driver.1.origin.table }
    ensures { IsCarriedOut S.device (λ was is given. SplitGives lv made copies patience.old.left was is given) none_added (to_split lv made copies driver.1) patience.old.left driver posts bytes result.stage result.reply }
{
    let mut driver = driver;
    let done = split(alloc, &mut driver, lv, made, copies, patience);
    after(driver, posts, bytes, done)
}

/// Leaves the volume of the name in the group that is on the first copies of each logical partition, so many, and makes a
/// volume of the others under the name that is made, if no request of the group is open. Turns are made first until nothing
/// is under way, and both names are looked up then.
///
/// Refused by `NoGroup` where no group is on, `Busy` while a request of it isn't answered, `NoVolume` and `VolumeExists` for
/// the two names, `CopyLimit` for no copy or no fewer than it has, `StaleCopy` where a copy that would leave can't be used,
/// `LastFresh` where none that would stay can be, `TooMany` where the group has as many volumes as it may, `HistoryFull`
/// where the history or the numbers have no room, and `Memory` where memory runs out.
/// The turns and the writes of records may end it by `Dark` (the power was cut), `Stuck` (nothing was heard a million times)
/// or `WentOff` (too few votes are left).
pub fn do_splitlvcopy<S: Shelf>(
    alloc: Global,
    stage: Stage<S>,
    made: Name,
    name: Name,
    copies: u8,
) -> Answered<S>
    requires fits { IsFittingStage stage }
    requires between { IsBetweenStage S.device stage }
    ensures ends { EndsUnasked S.device (λ _. SplitlvcopyDoes made name copies) ⊥ OfGroup stage result.stage result.reply }
    ensures shares { SharesBehind S.device stage result.stage result.reply }
{
    if stage.is_off() {
        return stage.refused(Refusal::NoGroup);
    }
    if stage.holder.open() > 0 {
        return stage.refused(Refusal::Busy);
    }
    let Stage {
        holder,
        posts,
        bytes,
    } = stage;
    let mut patience = Patience::whole();
    match come_to_rest(holder, &mut patience) {
        Ok(driver) => match driver.volume(name) {
            None => go_on(driver, posts, bytes, &[]).refused(Refusal::NoVolume),
            Some(lv) => split_volume(alloc, driver, posts, bytes, lv, made, copies, &mut patience),
        },
        Err((driver, why)) => Stage::ended(driver, posts, bytes).refused(drain_refusal(why)),
    }
}
