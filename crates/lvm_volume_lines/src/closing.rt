//! The line that varies a group off.
ghost use Rattle.std.specs.Prelude.{◌≡◌, ◌&&◌};
ghost use Rattle.lvm_num.specs.Modes.{is_passive};
ghost use Rattle.lvm_num.specs.Status.{calls_dirty};
ghost use Rattle.lvm_disk.specs.Device.{IsReady};
ghost use Rattle.lvm_core.specs.Settled.{IsSettled};
ghost use Rattle.lvm_volume_lines.specs.passed.GroupLines.{EndsUnasked, OfGroup, IsBetweenStage, IsFittingStage, session_of};
ghost use Rattle.lvm_volume_lines.specs.Closing.{IsTidiedOff, VaryoffDoes, has_dirty, is_dirty_on};
ghost use Rattle.lvm_volume_lines.specs.Commands.{IsLeftOff};

use crate::below::Post;
use crate::below::stage::{Answered, Holder, Refusal, Reply, Stage};
use crate::volumes::{close_after, come_to_rest, drain_refusal};
use lvm_core::{Closed, CommandDriver};
use lvm_disk::Shelf;
use lvm_num::{Descriptor, LvRow, Mode, Name};
use lvm_range_lines::below::group_lines;
use lvm_range_lines::below::volumes::GroupFault;
use lvm_status::StaleTable;
use lvm_transfer::Patience;
use lvm_volumes::tidy;

// Whether a volume is in mode passive and dirty.
fn is_dirty(row: &LvRow, table: &StaleTable) -> bool
    ensures { result ≡ (is_passive row.now.mode && calls_dirty table.now row.now.number) }
{
    row.mode == Mode::Passive && table.is_dirty(row.number)
}

// Whether one of the group's is.
fn has_dirty(group: &Descriptor, table: &StaleTable) -> bool
    ensures { result ≡ has_dirty group.now table.now }
{
    for row in group.lvs.as_slice() {
        if is_dirty(row, table) {
            return true;
        }
    }
    false
}

// Whether one of the group that is on is.
fn is_dirty_on<S: Shelf>(holder: &Holder<S>) -> bool
    ensures { result ≡ is_dirty_on (session_of holder.now) }
{
    match holder {
        Holder::Off {
            shelf: _,
            history: _,
        } => false,
        Holder::Empty { driver } => has_dirty(driver.descriptor(), driver.table()),
        Holder::Serving { driver } => has_dirty(driver.descriptor(), driver.table()),
    }
}

// Closes a session at which nothing is out. Its posts have ended.
fn close_lit<S: Shelf>(driver: CommandDriver<S>, posts: Vec<Post>, bytes: Vec<u8>) -> Stage<S>
    requires ready { IsReady (S.device driver.0) }
    ensures { IsLeftOff S.device driver posts bytes result }
{
    let holder = Holder::Empty { driver };
    let (closed, posts, bytes) = Stage {
        holder,
        posts,
        bytes,
    }
    .close();
    let Closed { shelf, history } = closed;
    Stage::off(shelf, history, posts, bytes)
}

// Drops the marks that aren't needed of a session at which nothing is under way, and closes it.
fn tidy_away<S: Shelf>(
    driver: CommandDriver<S>,
    posts: Vec<Post>,
    bytes: Vec<u8>,
    patience: &mut Patience,
) -> Answered<S>
    requires settled { IsSettled driver.1 }
    requires ready { IsReady (S.device driver.0) }
    ensures { IsTidiedOff S.device patience.old.left driver posts bytes result.stage result.reply }
{
    let mut driver = driver;
    match tidy(&mut driver, patience) {
        Ok(()) => close_lit(driver, posts, bytes).answered(Reply::Ok),
        Err(why) => {
            close_after(driver, posts, bytes, GroupFault::from(why)).refused(drain_refusal(why))
        }
    }
}

/// Varies the group of the name off, if it is on and none of its requests is open. Where no volume of it is dirty nothing
/// is written, and transfers that are out stay so. Else turns are made first until nothing is under way, and the marks
/// go that aren't needed.
///
/// Refused by `NoGroup` where this group isn't on, and by `Busy` while a request of it isn't answered. With a dirty volume
/// also by what the turns and the status come to: `Dark` (the power was cut), `Stuck` (nothing was heard a million times) or
/// `WentOff` (too few votes are left).
pub fn do_varyoff<S: Shelf>(stage: Stage<S>, name: Name) -> Answered<S>
    requires fits { IsFittingStage stage }
    requires between { IsBetweenStage S.device stage }
    ensures { EndsUnasked S.device (λ _. VaryoffDoes name) ⊥ OfGroup stage result.stage result.reply }
{
    if !is_dirty_on(&stage.holder) {
        return group_lines::do_varyoff(stage, name);
    }
    if !stage.is_on(name) {
        return stage.refused(Refusal::NoGroup);
    }
    if stage.holder.open() > 0 {
        return stage.refused(Refusal::Busy);
    }
    let Stage {
        holder,
        posts,
        bytes,
    } = stage;
    let mut patience = Patience::whole();
    match come_to_rest(holder, &mut patience) {
        Ok(driver) => tidy_away(driver, posts, bytes, &mut patience),
        Err((driver, why)) => Stage::ended(driver, posts, bytes).refused(drain_refusal(why)),
    }
}
