//! The lines that give a volume more copies or leave it fewer.
ghost use Rattle.lvm_status.specs.Members.{HasItsRows};
ghost use Rattle.lvm_session.specs.Sound.{IsSound};
ghost use Rattle.lvm_core.specs.Settled.{IsSettled};
ghost use Rattle.lvm_core.specs.State.{state_of};
ghost use Rattle.lvm_volume_lines.specs.passed.Volumes.{MklvcopyGives, RmlvcopyGives, to_add, to_take};
ghost use Rattle.lvm_volume_lines.specs.passed.TieCommands.{added_by};
ghost use Rattle.lvm_volume_lines.specs.passed.GroupLines.{EndsUnasked, OfGroup, IsBetweenStage, IsFittingStage};
ghost use Rattle.lvm_volume_lines.specs.Commands.{IsCarriedOut, none_added};
ghost use Rattle.lvm_volume_lines.specs.Copies.{MklvcopyDoes, RmlvcopyDoes};

use crate::below::Post;
use crate::below::mirrors::{mklvcopy, rmlvcopy};
use crate::below::stage::{Answered, Refusal, Reply, Stage};
use crate::volumes::{after_fault, come_to_rest, drain_refusal, go_on};
use lvm_core::CommandDriver;
use lvm_disk::Shelf;
use lvm_num::Name;
use lvm_transfer::Patience;
use std::alloc::Global;

// Gives a volume of the group of a session further copies.
fn add_copies<S: Shelf>(
    alloc: Global,
    driver: CommandDriver<S>,
    posts: Vec<Post>,
    bytes: Vec<u8>,
    lv: u16,
    copies: u8,
    patience: &mut Patience,
) -> Answered<S>
    requires settled { IsSettled driver.1 }
    requires sound { IsSound (state_of S.device driver) }
    requires rows { HasItsRows driver.1.descriptor driver.1.origin.table }
    ensures { IsCarriedOut S.device (λ was is given. MklvcopyGives lv copies patience.old.left was is given) added_by (to_add lv copies driver.1) patience.old.left driver posts bytes result.stage result.reply }
{
    let mut driver = driver;
    match mklvcopy(alloc, &mut driver, lv, copies, patience) {
        Ok(added) => go_on(driver, posts, bytes, added.as_slice()).answered(Reply::Ok),
        Err(why) => after_fault(driver, posts, bytes, why),
    }
}

// Leaves a volume of the group of a session fewer copies.
fn remove_copies<S: Shelf>(
    alloc: Global,
    driver: CommandDriver<S>,
    posts: Vec<Post>,
    bytes: Vec<u8>,
    lv: u16,
    copies: u8,
    patience: &mut Patience,
) -> Answered<S>
    requires settled { IsSettled driver.1 }
    requires sound { IsSound (state_of S.device driver) }
    requires rows { HasItsRows driver.1.descriptor driver.1.origin.table }
    ensures { IsCarriedOut S.device (λ was is given. RmlvcopyGives lv copies patience.old.left was is given) none_added (to_take lv copies driver.1) patience.old.left driver posts bytes result.stage result.reply }
{
    let mut driver = driver;
    match rmlvcopy(alloc, &mut driver, lv, copies, patience) {
        Ok(()) => go_on(driver, posts, bytes, &[]).answered(Reply::Ok),
        Err(why) => after_fault(driver, posts, bytes, why),
    }
}

/// Gives the volume of the name in the group that is on further copies, until it has so many, if no request of the group
/// is open. Turns are made first until nothing is under way, and the name is looked up then.
///
/// Refused by `NoGroup` where no group is on, `Busy` while a request of it isn't answered, `NoVolume` for the name, `CopyLimit`
/// for no more copies than it has or more than three, `NoRoom` where first fit finds no place, `HistoryFull` where the history
/// or the numbers have no room, and `Memory` where memory runs out.
/// The turns and the writes of records may end it by `Dark` (the power was cut), `Stuck` (nothing was heard a million times)
/// or `WentOff` (too few votes are left).
pub fn do_mklvcopy<S: Shelf>(alloc: Global, stage: Stage<S>, name: Name, copies: u8) -> Answered<S>
    requires fits { IsFittingStage stage }
    requires between { IsBetweenStage S.device stage }
    ensures { EndsUnasked S.device (λ _. MklvcopyDoes name copies) ⊥ OfGroup stage result.stage result.reply }
{
    if stage.is_off() {
        return stage.refused(Refusal::NoGroup);
    }
    if stage.holder.open() > 0 {
        return stage.refused(Refusal::Busy);
    }
    let Stage {
        holder,
        posts,
        bytes,
    } = stage;
    let mut patience = Patience::whole();
    match come_to_rest(holder, &mut patience) {
        Ok(driver) => match driver.volume(name) {
            None => go_on(driver, posts, bytes, &[]).refused(Refusal::NoVolume),
            Some(lv) => add_copies(alloc, driver, posts, bytes, lv, copies, &mut patience),
        },
        Err((driver, why)) => Stage::ended(driver, posts, bytes).refused(drain_refusal(why)),
    }
}

/// Leaves the volume of the name in the group that is on the first copies of each logical partition, so many, if no
/// request of the group is open. Turns are made first until nothing is under way, and the name is looked up then.
///
/// Refused by `NoGroup` where no group is on, `Busy` while a request of it isn't answered, `NoVolume` for the name, `CopyLimit`
/// for no copy or no fewer than it has, `LastFresh` where no copy that would stay can be used beside a fresh one that would go,
/// `HistoryFull` where the history or the numbers have no room, and `Memory` where memory runs out.
/// The turns and the writes of records may end it by `Dark` (the power was cut), `Stuck` (nothing was heard a million times)
/// or `WentOff` (too few votes are left).
pub fn do_rmlvcopy<S: Shelf>(alloc: Global, stage: Stage<S>, name: Name, copies: u8) -> Answered<S>
    requires fits { IsFittingStage stage }
    requires between { IsBetweenStage S.device stage }
    ensures { EndsUnasked S.device (λ _. RmlvcopyDoes name copies) ⊥ OfGroup stage result.stage result.reply }
{
    if stage.is_off() {
        return stage.refused(Refusal::NoGroup);
    }
    if stage.holder.open() > 0 {
        return stage.refused(Refusal::Busy);
    }
    let Stage {
        holder,
        posts,
        bytes,
    } = stage;
    let mut patience = Patience::whole();
    match come_to_rest(holder, &mut patience) {
        Ok(driver) => match driver.volume(name) {
            None => go_on(driver, posts, bytes, &[]).refused(Refusal::NoVolume),
            Some(lv) => remove_copies(alloc, driver, posts, bytes, lv, copies, &mut patience),
        },
        Err((driver, why)) => Stage::ended(driver, posts, bytes).refused(drain_refusal(why)),
    }
}
