//! The line that moves copies.
ghost use Rattle.std.specs.Prelude.{◌≡◌, ◌≢◌, ℕ, [], None};
ghost use Rattle.std.specs.Global.{Vec};
ghost use Rattle.lvm_session.specs.declared.open.Power.TheVariants as power;
ghost use Rattle.lvm_session.specs.Sound.{IsSound};
ghost use Rattle.lvm_session.specs.State.{state_of};
ghost use Rattle.lvm_range_lines.specs.Leaving.{EndsInPlace, EndsInSession};
ghost use Rattle.lvm_range_lines.specs.passed.GroupLines.{IsBetweenStage, IsFittingStage};
ghost use Rattle.lvm_migrate.specs.Migrating.{MayMigrate};
ghost use Rattle.lvm_move_lines.specs.Moving.{EmptyAnswers, MigratepvDoes, MovesInSession, empty_reply, move_refusal, move_reply};

use crate::asking::asked_for;
use lvm_core::CommandDriver;
use lvm_disk::Shelf;
use lvm_migrate::{MoveFault, migrate};
use lvm_num::Name;
use lvm_range_lines::below::driver::Driver;
use lvm_range_lines::below::stage::{Holder, Refusal, Reply, Stage};
use lvm_transfer::Patience;
use std::alloc::Global;

// Why copies don't move, or no more of them, as the refusal of the line.
fn move_refusal(why: MoveFault) -> Refusal
    ensures { result ≡ move_refusal why }
{
    match why {
        MoveFault::Dark => Refusal::Dark,
        MoveFault::WentOff { have, total } => Refusal::WentOff { have, total },
        MoveFault::Busy => Refusal::Busy,
        MoveFault::Missing { disk } => Refusal::Missing { disk },
        MoveFault::Strict { lp } => Refusal::Strict { lp },
        MoveFault::NoRoom { free } => Refusal::NoRoom { free },
        MoveFault::HistoryFull => Refusal::HistoryFull,
        MoveFault::SyncFailed { disk } => Refusal::SyncFailed { disk },
        MoveFault::NoFresh { lp } => Refusal::NoFresh { lp },
        MoveFault::Stuck => Refusal::Stuck,
        MoveFault::Memory => Refusal::Memory,
    }
}

// The reply to a `migratepv`; its session is sound.
fn move_reply<S: Shelf>(driver: &Driver<S>, moved: Result<u32, MoveFault>) -> Reply
    ensures reply { result ≡ move_reply moved }
    ensures sound { IsSound (state_of S.device driver.now) }
{
    let _ = driver.power();
    match moved {
        Ok(moved) => Reply::Migrated(moved),
        Err(why) => Reply::Refused(move_refusal(why)),
    }
}

// Moves the copies of a volume, or of all, in a session that is on, however they were asked for.
fn move_asked<S: Shelf>(
    alloc: Global,
    driver: &mut Driver<S>,
    lv: Option<u16>,
    from: u16,
    to: u16,
) -> Reply
    requires on { driver.old.1.power ≡ power.On }
    requires shut { driver.old.1.copy ≡ None }
    requires epoch { driver.old.1.status.stamp.epoch ≢ 0 }
    requires may { MayMigrate driver.old.1.descriptor lv from to }
    ensures { MovesInSession S.device lv from to driver.old driver.new result }
{
    let moved = migrate(driver, alloc, lv, from, to, &mut Patience::whole());
    move_reply(driver, moved)
}

// So it does those that a line asks for.
fn move_on<S: Shelf>(
    alloc: Global,
    driver: &mut Driver<S>,
    volume: Option<Name>,
    from: u16,
    to: u16,
) -> Reply
    requires on { driver.old.1.power ≡ power.On }
    requires shut { driver.old.1.copy ≡ None }
    requires epoch { driver.old.1.status.stamp.epoch ≢ 0 }
    requires differ { from ≢ to }
    ensures { (bytes : Vec ℕ) → EndsInSession S.device (MigratepvDoes volume from to) driver.old bytes driver.new bytes result }
{
    match asked_for(driver.descriptor(), volume, from, to) {
        Err(why) => Reply::Refused(why),
        Ok(lv) => move_asked(alloc, driver, lv, from, to),
    }
}

// The reply in a group without volumes.
fn empty_reply<S: Shelf>(driver: &CommandDriver<S>, to: u16) -> Reply
    ensures { result ≡ empty_reply driver.now.1 to }
{
    if driver.table().is_missing(to) {
        Reply::Refused(Refusal::Missing { disk: to })
    } else if driver.numbers_left() < 65_536 {
        Reply::Refused(Refusal::HistoryFull)
    } else {
        Reply::Migrated(0)
    }
}

// What a line is answered there.
fn move_none<S: Shelf>(driver: &CommandDriver<S>, volume: Option<Name>, from: u16, to: u16) -> Reply
    ensures { EmptyAnswers driver.now.1 volume from to result }
{
    match asked_for(driver.descriptor(), volume, from, to) {
        Err(why) => Reply::Refused(why),
        Ok(_) => empty_reply(driver, to),
    }
}

/// Moves the copies of a volume, or of all volumes, of the group that is on from the first disk to the second, beside its
/// requests: in the order of volumes, their logical partitions and their copies, each to the lowest partition that is free then.
/// The stage isn't given away for it: `Stage::left` makes of it what stands behind the line.
///
/// Refused by `NoGroup` where no group is on, `NoDisk` for the first of the two disks that is no member, `NoVolume` for the name,
/// `Missing` where the second disk is missing, `Strict` where it has another copy of a logical partition that would move, with
/// the first such, `NoRoom` where it has fewer free partitions than there are copies to move, `HistoryFull` where few numbers are
/// left for stamps; and by what the turns come to: `Dark` (the power was cut), `Stuck` (nothing was heard a million times), `WentOff`
/// (too few votes are left), `Missing` or `HistoryFull` before a later copy, `SyncFailed` (the second disk failed, or each copy
/// that it might be read from) or `NoFresh` (no copy could be used). `Memory` may come before any copy. Those that have moved stay moved.
pub fn do_migratepv<S: Shelf>(
    alloc: Global,
    stage: &mut Stage<S>,
    volume: Option<Name>,
    from: u16,
    to: u16,
) -> Reply
    requires fits { IsFittingStage stage.old }
    requires between { IsBetweenStage S.device stage.old }
    requires differ { from ≢ to }
    ensures { EndsInPlace S.device (MigratepvDoes volume from to) stage.old stage.new result }
{
    match &mut stage.holder {
        Holder::Off {
            shelf: _,
            history: _,
        } => Reply::Refused(Refusal::NoGroup),
        Holder::Empty { driver } => move_none(driver, volume, from, to),
        Holder::Serving { driver } => move_on(alloc, driver, volume, from, to),
    }
}
