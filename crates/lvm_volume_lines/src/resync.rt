//! The lines that bring up stale copies.
ghost use Rattle.std.specs.Prelude.{◌≡◌, ℕ, IfErr, None};
ghost use Rattle.std.specs.Global.{Vec};
ghost use Rattle.lvm_session.specs.declared.open.Power.TheVariants as power;
ghost use Rattle.lvm_session.specs.Sound.{IsSound};
ghost use Rattle.lvm_core.specs.Looking.{IsNumberOf};
ghost use Rattle.lvm_session.specs.State.{state_of};
ghost use Rattle.lvm_volume_lines.specs.passed.RangeLines.{EndsInPlace, EndsInSession};
ghost use Rattle.lvm_volume_lines.specs.passed.GroupLines.{IsBetweenStage, IsFittingStage};
ghost use Rattle.lvm_volume_lines.specs.Resyncing.{MayCome, SyncGroupDoes, SyncVolumeDoes, numbers_reply, sync_refusal, sync_reply};

use crate::below::driver::Driver;
use crate::below::stage::{Holder, Refusal, Reply, Stage};
use lvm_core::number_of;
use lvm_disk::Shelf;
use lvm_num::Name;
use lvm_ranges::{SyncFault, sync_group, sync_volume};
use lvm_transfer::Patience;

// A fault of a resync, as the refusal of its line. No copy is open between lines, and whole volumes are asked for.
fn sync_refusal<S: Shelf>(driver: &Driver<S>, why: SyncFault) -> Refusal
    requires { MayCome why }
    ensures { result ≡ sync_refusal driver.now.1 why }
{
    match why {
        SyncFault::Dark => Refusal::Dark,
        SyncFault::Off => {
            let (have, total) = driver.votes();
            Refusal::WentOff { have, total }
        }
        SyncFault::Stuck => Refusal::Stuck,
        SyncFault::NoVolume => Refusal::NoVolume,
        SyncFault::HistoryFull => Refusal::HistoryFull,
        SyncFault::SyncFailed { disk } => Refusal::SyncFailed { disk },
        SyncFault::NoFresh { lp } => Refusal::NoFresh { lp },
        SyncFault::Missing { disk } => Refusal::Missing { disk },
        SyncFault::Busy | SyncFault::OutOfRange => unreachable!(),
    }
}

// The reply to a resync, by the session that it leaves.
fn sync_reply<S: Shelf>(driver: &Driver<S>, synced: Result<u32, SyncFault>) -> Reply
    requires { IfErr synced MayCome }
    ensures reply { result ≡ sync_reply driver.now.1 synced }
    ensures sound { IsSound (state_of S.device driver.now) }
{
    let _ = driver.power();
    match synced {
        Ok(made) => Reply::Synced(made),
        Err(why) => Reply::Refused(sync_refusal(driver, why)),
    }
}

// Brings up the stale copies of a volume in a session that is on.
fn sync_numbered<S: Shelf>(driver: &mut Driver<S>, name: Name, lv: u16) -> Reply
    requires on { driver.old.1.power ≡ power.On }
    requires shut { driver.old.1.copy ≡ None }
    requires number { IsNumberOf driver.old.1.descriptor.lvs name lv }
    ensures { (bytes : Vec ℕ) → EndsInSession S.device (SyncVolumeDoes name) driver.old bytes driver.new bytes result }
{
    let synced = sync_volume(driver, lv, &mut Patience::whole());
    sync_reply(driver, synced)
}

// So it does those of the volume of the name.
fn sync_volume_on<S: Shelf>(driver: &mut Driver<S>, name: Name) -> Reply
    requires on { driver.old.1.power ≡ power.On }
    requires shut { driver.old.1.copy ≡ None }
    ensures { (bytes : Vec ℕ) → EndsInSession S.device (SyncVolumeDoes name) driver.old bytes driver.new bytes result }
{
    match number_of(driver.descriptor(), name) {
        None => Reply::Refused(Refusal::NoVolume),
        Some(lv) => sync_numbered(driver, name, lv),
    }
}

/// Brings up the stale copies of a volume of the group that is on, beside its requests. The stage isn't given away for
/// it: `Stage::left` makes of it what stands behind the line.
///
/// Refused by `NoGroup` where no group is on, `NoVolume` for the name, `HistoryFull` where the history has no room, and
/// by what the turns come to: `Dark` (the power was cut), `Stuck` (nothing was heard a million times), `WentOff` (too few
/// votes are left) or `HistoryFull`. Where all copies have been passed and one stayed stale it is refused by the first
/// cause of `SyncFailed`, `NoFresh` and `Missing`.
pub fn do_sync_volume<S: Shelf>(stage: &mut Stage<S>, name: Name) -> Reply
    requires fits { IsFittingStage stage.old }
    requires between { IsBetweenStage S.device stage.old }
    ensures { EndsInPlace S.device (SyncVolumeDoes name) stage.old stage.new result }
{
    match &mut stage.holder {
        Holder::Off {
            shelf: _,
            history: _,
        } => Reply::Refused(Refusal::NoGroup),
        Holder::Empty { driver: _ } => Reply::Refused(Refusal::NoVolume),
        Holder::Serving { driver } => sync_volume_on(driver, name),
    }
}

// Whether more than 65,535 numbers are left for the stamps of records, as the reply in a group without volumes.
fn numbers_reply<S: Shelf>(driver: &lvm_core::CommandDriver<S>) -> Reply
    ensures { result ≡ numbers_reply driver.now.1 }
{
    if driver.numbers_left() < 65_536 {
        Reply::Refused(Refusal::HistoryFull)
    } else {
        Reply::Synced(0)
    }
}

// Brings up the stale copies of all volumes in a session that is on.
fn sync_group_on<S: Shelf>(driver: &mut Driver<S>, name: Name) -> Reply
    requires on { driver.old.1.power ≡ power.On }
    requires shut { driver.old.1.copy ≡ None }
    requires named { driver.old.1.descriptor.name ≡ name }
    ensures { (bytes : Vec ℕ) → EndsInSession S.device (SyncGroupDoes name) driver.old bytes driver.new bytes result }
{
    let synced = sync_group(driver, &mut Patience::whole());
    sync_reply(driver, synced)
}

/// So it does those of the group of the name, if it is on.
///
/// Refused by `NoGroup` where this group isn't on, `HistoryFull` where the history has no room, and by what the turns
/// come to: `Dark` (the power was cut), `Stuck` (nothing was heard a million times), `WentOff` (too few votes are left) or
/// `HistoryFull`. Where all copies have been passed and one stayed stale it is refused by the first cause of
/// `SyncFailed`, `NoFresh` and `Missing`.
pub fn do_sync_group<S: Shelf>(stage: &mut Stage<S>, name: Name) -> Reply
    requires fits { IsFittingStage stage.old }
    requires between { IsBetweenStage S.device stage.old }
    ensures { EndsInPlace S.device (SyncGroupDoes name) stage.old stage.new result }
{
    if !stage.is_on(name) {
        return Reply::Refused(Refusal::NoGroup);
    }
    match &mut stage.holder {
        Holder::Off {
            shelf: _,
            history: _,
        } => unreachable!(),
        Holder::Empty { driver } => numbers_reply(driver),
        Holder::Serving { driver } => sync_group_on(driver, name),
    }
}
