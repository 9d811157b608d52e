//! The lines by which the group that is on changes its rule of votes, or becomes big.
ghost use Rattle.std.specs.Prelude.{◌≡◌, ◌↔◌, [], IfNone, IfSome, IsTrue, IsFalse, Err, true, false};
ghost use Rattle.lvm_status.specs.Members.{HasItsRows};
ghost use Rattle.lvm_session.specs.Sound.{IsSound};
ghost use Rattle.lvm_core.specs.Settled.{IsSettled};
ghost use Rattle.lvm_core.specs.State.{state_of};
ghost use Rattle.lvm_volume_lines.specs.passed.Members.{BigGives, RuleGives, as_big, ends_session, is_over, with_quorum};
ghost use Rattle.lvm_volume_lines.specs.passed.TieCommands.{MayServeWith};
ghost use Rattle.lvm_volume_lines.specs.passed.GroupLines.{EndsUnasked, OfGroup, IsBetweenStage, IsFittingStage};
ghost use Rattle.lvm_volume_lines.specs.Commands.{IsLeftAs};
ghost use Rattle.lvm_volume_lines.specs.Changing.{ChvgBigDoes, ChvgQuorumDoes, IsChangeCarriedOut, change_refusal, change_reply};

use crate::below::Post;
use crate::below::members::{Changed, RuleFault, make_big, set_quorum};
use crate::below::stage::{Answered, Refusal, Reply, Stage};
use crate::volumes::{close_after, come_to_rest, drain_refusal, go_on};
use lvm_core::CommandDriver;
use lvm_disk::Shelf;
use lvm_num::Name;
use lvm_range_lines::below::volumes::GroupFault;
use lvm_transfer::Patience;
use std::alloc::Global;

// A fault of a change, as the refusal of its line.
fn change_refusal(why: RuleFault) -> Refusal
    ensures { result ≡ change_refusal why }
{
    match why {
        RuleFault::Dark => Refusal::Dark,
        RuleFault::WentOff { have, total } => Refusal::WentOff { have, total },
        RuleFault::Busy => Refusal::Busy,
        RuleFault::NoQuorum { have, total } => Refusal::NoQuorum { have, total },
        RuleFault::HistoryFull => Refusal::HistoryFull,
        RuleFault::Stuck => Refusal::Stuck,
        RuleFault::Memory => Refusal::Memory,
    }
}

// The fault by which a session has ended, if a change has ended it.
fn ending_of(why: RuleFault) -> Option<GroupFault>
    ensures ends { IfSome result (λ by. ends_session why ≡ true) }
    ensures dark { IfSome result (λ by. (by ≡ GroupFault.Dark) ↔ (why ≡ RuleFault.Dark)) }
    ensures goes { IfNone result (ends_session why ≡ false) }
{
    match why {
        RuleFault::Dark => Some(GroupFault::Dark),
        RuleFault::WentOff { have, total } => Some(GroupFault::WentOff { have, total }),
        RuleFault::Stuck => Some(GroupFault::Stuck),
        RuleFault::Busy => None,
        RuleFault::NoQuorum { have: _, total: _ } => None,
        RuleFault::HistoryFull => None,
        RuleFault::Memory => None,
    }
}

// What a change leaves of a session that has failed so.
fn after_change_fault<S: Shelf>(
    driver: CommandDriver<S>,
    posts: Vec<Post>,
    bytes: Vec<u8>,
    why: RuleFault,
) -> Answered<S>
    requires dark { why ≡ RuleFault.Dark → (S.device driver.0).flights ≡ [] }
    requires lit { IsTrue (ends_session why) → (why ≡ RuleFault.Dark → ⊥) → ((S.device driver.0).power ≡ true) × ((S.device driver.0).freed ≡ []) }
    requires rows { IsFalse (ends_session why) → HasItsRows driver.1.descriptor driver.1.origin.table }
    requires may { IsFalse (ends_session why) → MayServeWith [] (state_of S.device driver) }
    ensures stage { IsLeftAs S.device (ends_session why) [] driver posts bytes result.stage }
    ensures reply { result.reply ≡ Reply.Refused (change_refusal why) }
{
    match ending_of(why) {
        Some(by) => close_after(driver, posts, bytes, by).refused(change_refusal(why)),
        None => go_on(driver, posts, bytes, &[]).refused(change_refusal(why)),
    }
}

// What a change leaves of a session that was answered so.
fn after_change<S: Shelf>(
    driver: CommandDriver<S>,
    posts: Vec<Post>,
    bytes: Vec<u8>,
    done: Result<(), RuleFault>,
) -> Answered<S>
    requires dark { done ≡ Err RuleFault.Dark → (S.device driver.0).flights ≡ [] }
    requires lit { IsTrue (is_over done) → (done ≡ Err RuleFault.Dark → ⊥) → ((S.device driver.0).power ≡ true) × ((S.device driver.0).freed ≡ []) }
    requires rows { IsFalse (is_over done) → HasItsRows driver.1.descriptor driver.1.origin.table }
    requires may { IsFalse (is_over done) → MayServeWith [] (state_of S.device driver) }
    ensures stage { IsLeftAs S.device (is_over done) [] driver posts bytes result.stage }
    ensures reply { result.reply ≡ change_reply done }
{
    match done {
        Ok(()) => go_on(driver, posts, bytes, &[]).answered(Reply::Ok),
        Err(why) => after_change_fault(driver, posts, bytes, why),
    }
}

// Switches quorum checking of the group of a session on or off.
fn switch_quorum<S: Shelf>(
    alloc: Global,
    driver: CommandDriver<S>,
    posts: Vec<Post>,
    bytes: Vec<u8>,
    on: bool,
    patience: &mut Patience,
) -> Answered<S>
    requires settled { IsSettled driver.1 }
    requires sound { IsSound (state_of S.device driver) }
    requires rows { HasItsRows driver.1.descriptor driver.1.origin.table }
    ensures { IsChangeCarriedOut S.device (with_quorum on driver.1.descriptor) (λ was is given. RuleGives (with_quorum on was.core.descriptor) patience.old.left was is given) patience.old.left driver posts bytes result.stage result.reply }
{
    let Changed { driver, answer } = set_quorum(alloc, driver, on, patience);
    after_change(driver, posts, bytes, answer)
}

// Makes the group of a session big.
fn become_big<S: Shelf>(
    alloc: Global,
    driver: CommandDriver<S>,
    posts: Vec<Post>,
    bytes: Vec<u8>,
    patience: &mut Patience,
) -> Answered<S>
    requires settled { IsSettled driver.1 }
    requires sound { IsSound (state_of S.device driver) }
    requires rows { HasItsRows driver.1.descriptor driver.1.origin.table }
    ensures { IsChangeCarriedOut S.device (as_big driver.1.descriptor) (λ was is given. BigGives patience.old.left was is given) patience.old.left driver posts bytes result.stage result.reply }
{
    let Changed { driver, answer } = make_big(alloc, driver, patience);
    after_change(driver, posts, bytes, answer)
}

/// Switches quorum checking of a group on or off, if that is on and none of its requests is open. Turns are made first until
/// nothing is under way.
///
/// Refused by `NoGroup` where no group is on, or another one, `Busy` while a request of it isn't answered, `NoQuorum` where by
/// the next rule the members that aren't missing have too few votes to write, or where checking is switched off while a member
/// is missing, `HistoryFull` where the history or the numbers have no room, and `Memory` where memory runs out.
/// The turns and the writes of records may end it by `Dark` (the power was cut), `Stuck` (nothing was heard a million times)
/// or `WentOff` (too few votes are left).
pub fn do_chvg_quorum<S: Shelf>(alloc: Global, stage: Stage<S>, on: bool, name: Name) -> Answered<S>
    requires fits { IsFittingStage stage }
    requires between { IsBetweenStage S.device stage }
    ensures { EndsUnasked S.device (λ _. ChvgQuorumDoes on name) ⊥ OfGroup stage result.stage result.reply }
{
    if !stage.is_on(name) {
        return stage.refused(Refusal::NoGroup);
    }
    if stage.holder.open() > 0 {
        return stage.refused(Refusal::Busy);
    }
    let Stage {
        holder,
        posts,
        bytes,
    } = stage;
    let mut patience = Patience::whole();
    match come_to_rest(holder, &mut patience) {
        Ok(driver) => switch_quorum(alloc, driver, posts, bytes, on, &mut patience),
        Err((driver, why)) => Stage::ended(driver, posts, bytes).refused(drain_refusal(why)),
    }
}

/// Makes a group big, with up to 128 members and 511 volumes, if that is on and none of its requests is open. Turns are made
/// first until nothing is under way. A group that is big stays as it is, and nothing is written.
///
/// Refused by `NoGroup` where no group is on, or another one, `Busy` while a request of it isn't answered, `HistoryFull` where
/// the history or the numbers have no room, and `Memory` where memory runs out.
/// The turns and the writes of records may end it by `Dark` (the power was cut), `Stuck` (nothing was heard a million times)
/// or `WentOff` (too few votes are left).
pub fn do_chvg_big<S: Shelf>(alloc: Global, stage: Stage<S>, name: Name) -> Answered<S>
    requires fits { IsFittingStage stage }
    requires between { IsBetweenStage S.device stage }
    ensures { EndsUnasked S.device (λ _. ChvgBigDoes name) ⊥ OfGroup stage result.stage result.reply }
{
    if !stage.is_on(name) {
        return stage.refused(Refusal::NoGroup);
    }
    if stage.holder.open() > 0 {
        return stage.refused(Refusal::Busy);
    }
    let Stage {
        holder,
        posts,
        bytes,
    } = stage;
    let mut patience = Patience::whole();
    match come_to_rest(holder, &mut patience) {
        Ok(driver) => become_big(alloc, driver, posts, bytes, &mut patience),
        Err((driver, why)) => Stage::ended(driver, posts, bytes).refused(drain_refusal(why)),
    }
}
