//! The line by which disks leave the group that is on.
ghost use Rattle.std.specs.Prelude.{◌≡◌, ◌≢◌, ◌≤◌, ◌↔◌, [], AllPairs, IfNone, IfSome, IsTrue, IsFalse, Err, length, true, false};
ghost use Rattle.lvm_status.specs.Members.{HasItsRows};
ghost use Rattle.lvm_session.specs.Sound.{IsSound};
ghost use Rattle.lvm_core.specs.Settled.{IsSettled};
ghost use Rattle.lvm_core.specs.State.{state_of};
ghost use Rattle.lvm_reduce.specs.Answers.{ends_session, is_over};
ghost use Rattle.lvm_volume_lines.specs.passed.TieCommands.{MayServeWith};
ghost use Rattle.lvm_volume_lines.specs.passed.GroupLines.{EndsUnasked, OfGroup, IsBetweenStage, IsFittingStage};
ghost use Rattle.lvm_volume_lines.specs.Commands.{IsLeftAs};
ghost use Rattle.lvm_member_lines.specs.Reducing.{IsReduceCarriedOut, ReducevgDoes, reduce_refusal, reduce_reply};

use lvm_core::CommandDriver;
use lvm_disk::Shelf;
use lvm_member_plan::ReduceFault;
use lvm_num::Name;
use lvm_reduce::{Reduced, reducevg};
use lvm_transfer::Patience;
use lvm_volume_lines::below::stage::{Answered, Refusal, Reply, Stage};
use lvm_volume_lines::below::{GroupFault, Post};
use lvm_volume_lines::{close_after, come_to_rest, drain_refusal, go_on};
use std::alloc::Global;

// Why disks didn't leave, as the refusal of the line.
fn reduce_refusal(why: ReduceFault) -> Refusal
    ensures { result ≡ reduce_refusal why }
{
    match why {
        ReduceFault::Dark => Refusal::Dark,
        ReduceFault::WentOff { have, total } => Refusal::WentOff { have, total },
        ReduceFault::Busy => Refusal::Busy,
        ReduceFault::NoDisk { disk } => Refusal::NoDisk { disk },
        ReduceFault::LastDisk => Refusal::LastDisk,
        ReduceFault::DiskInUse { disk } => Refusal::DiskInUse { disk },
        ReduceFault::NoQuorum { have, total } => Refusal::NoQuorum { have, total },
        ReduceFault::HistoryFull => Refusal::HistoryFull,
        ReduceFault::Stuck => Refusal::Stuck,
        ReduceFault::Memory => Refusal::Memory,
    }
}

// The fault by which a session has ended, if this one has ended it.
fn ending_of(why: ReduceFault) -> Option<GroupFault>
    ensures ends { IfSome result (λ by. ends_session why ≡ true) }
    ensures dark { IfSome result (λ by. (by ≡ GroupFault.Dark) ↔ (why ≡ ReduceFault.Dark)) }
    ensures goes { IfNone result (ends_session why ≡ false) }
{
    match why {
        ReduceFault::Dark => Some(GroupFault::Dark),
        ReduceFault::WentOff { have, total } => Some(GroupFault::WentOff { have, total }),
        ReduceFault::Stuck => Some(GroupFault::Stuck),
        ReduceFault::Busy => None,
        ReduceFault::NoDisk { disk: _ } => None,
        ReduceFault::LastDisk => None,
        ReduceFault::DiskInUse { disk: _ } => None,
        ReduceFault::NoQuorum { have: _, total: _ } => None,
        ReduceFault::HistoryFull => None,
        ReduceFault::Memory => None,
    }
}

// What is left of a session that has failed so.
fn after_reduce_fault<S: Shelf>(
    driver: CommandDriver<S>,
    posts: Vec<Post>,
    bytes: Vec<u8>,
    why: ReduceFault,
) -> Answered<S>
    requires dark { why ≡ ReduceFault.Dark → (S.device driver.0).flights ≡ [] }
    requires lit { IsTrue (ends_session why) → (why ≡ ReduceFault.Dark → ⊥) → ((S.device driver.0).power ≡ true) × ((S.device driver.0).freed ≡ []) }
    requires rows { IsFalse (ends_session why) → HasItsRows driver.1.descriptor driver.1.origin.table }
    requires may { IsFalse (ends_session why) → MayServeWith [] (state_of S.device driver) }
    ensures stage { IsLeftAs S.device (ends_session why) [] driver posts bytes result.stage }
    ensures reply { result.reply ≡ Reply.Refused (reduce_refusal why) }
{
    match ending_of(why) {
        Some(by) => close_after(driver, posts, bytes, by).refused(reduce_refusal(why)),
        None => go_on(driver, posts, bytes, &[]).refused(reduce_refusal(why)),
    }
}

// What is left of a session that was answered so.
fn after_reduce<S: Shelf>(
    driver: CommandDriver<S>,
    posts: Vec<Post>,
    bytes: Vec<u8>,
    done: Result<(), ReduceFault>,
) -> Answered<S>
    requires dark { done ≡ Err ReduceFault.Dark → (S.device driver.0).flights ≡ [] }
    requires lit { IsTrue (is_over done) → (done ≡ Err ReduceFault.Dark → ⊥) → ((S.device driver.0).power ≡ true) × ((S.device driver.0).freed ≡ []) }
    requires rows { IsFalse (is_over done) → HasItsRows driver.1.descriptor driver.1.origin.table }
    requires may { IsFalse (is_over done) → MayServeWith [] (state_of S.device driver) }
    ensures stage { IsLeftAs S.device (is_over done) [] driver posts bytes result.stage }
    ensures reply { result.reply ≡ reduce_reply done }
{
    match done {
        Ok(()) => go_on(driver, posts, bytes, &[]).answered(Reply::Ok),
        Err(why) => after_reduce_fault(driver, posts, bytes, why),
    }
}

// Takes these disks out of the group of a session.
fn reduce_group<S: Shelf>(
    alloc: Global,
    driver: CommandDriver<S>,
    posts: Vec<Post>,
    bytes: Vec<u8>,
    disks: &[u16],
    patience: &mut Patience,
) -> Answered<S>
    requires settled { IsSettled driver.1 }
    requires sound { IsSound (state_of S.device driver) }
    requires rows { HasItsRows driver.1.descriptor driver.1.origin.table }
    requires some { 1 ≤ length disks.now }
    requires differ { AllPairs (λ a b. a ≢ b) disks.now }
    ensures { IsReduceCarriedOut S.device disks.now patience.old.left driver posts bytes result.stage result.reply }
{
    let Reduced { driver, answer } = reducevg(alloc, driver, disks, patience);
    after_reduce(driver, posts, bytes, answer)
}

/// Takes disks, which differ, out of a group, if that is on and none of its requests is open. Turns are made first until
/// nothing is under way. A disk that isn't missing is in no group from then on: its blocks have no known content.
///
/// Refused by `NoGroup` where no group is on, or another one, `Busy` while a request of it isn't answered, `NoDisk` for the
/// first disk named that is no member, `LastDisk` where no member would stay, `DiskInUse` for the first disk named on which a
/// volume has a partition, `NoQuorum` where the members that would stay and aren't missing have too few votes to write,
/// `HistoryFull` where the history or the numbers have no room, and `Memory` where memory runs out.
/// The turns and the writes of records may end it by `Dark` (the power was cut), `Stuck` (nothing was heard a million times)
/// or `WentOff` (too few votes are left, or are there for a step on the way).
pub fn do_reducevg<S: Shelf>(
    alloc: Global,
    stage: Stage<S>,
    name: Name,
    disks: &[u16],
) -> Answered<S>
    requires fits { IsFittingStage stage }
    requires between { IsBetweenStage S.device stage }
    requires some { 1 ≤ length disks.now }
    requires differ { AllPairs (λ a b. a ≢ b) disks.now }
    ensures { EndsUnasked S.device (λ _. ReducevgDoes name disks.now) ⊥ OfGroup stage result.stage result.reply }
{
    if !stage.is_on(name) {
        return stage.refused(Refusal::NoGroup);
    }
    if stage.holder.open() > 0 {
        return stage.refused(Refusal::Busy);
    }
    let Stage {
        holder,
        posts,
        bytes,
    } = stage;
    let mut patience = Patience::whole();
    match come_to_rest(holder, &mut patience) {
        Ok(driver) => reduce_group(alloc, driver, posts, bytes, disks, &mut patience),
        Err((driver, why)) => Stage::ended(driver, posts, bytes).refused(drain_refusal(why)),
    }
}
