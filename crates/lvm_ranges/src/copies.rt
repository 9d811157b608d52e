//! One copy: it is judged, and brought up where it is stale.
ghost use Rattle.std.specs.Prelude.{◌≡◌, true, false, IfOk};
ghost use Rattle.lvm_session.specs.declared.open.Power.TheVariants as power;
ghost use Rattle.lvm_session.specs.Judging.{is_stale};
ghost use Rattle.lvm_session.specs.State.{Core, state_of};
ghost use Rattle.lvm_ranges.specs.Passing.{BringsUp, CopyHasEnded, IsAnsweredBy, IsJustOpened, IsPassedBy, JudgesCopy, MayPass, MayRefuse, PassesOrEnds, Runs, copy_of};
ghost use Rattle.lvm_ranges.specs.Turning.{GoesBeside};

use crate::below::Driver;
use crate::fault::SyncFault;
use crate::resync_turns::make_turn;
use lvm_disk::Shelf;
use lvm_num::Pp;
use lvm_session::{CopyFault, CopyState};
use lvm_transfer::Patience;

/// What became of a copy that was judged.
pub enum Opening {
    /// It is fresh already.
    Fresh,
    /// It is stale, and open.
    Opened,
    /// It is stale, and isn't opened.
    Refused(SyncFault),
}

/// How a copy was passed.
pub enum Passed {
    /// It was fresh already.
    Fresh,
    /// It was stale, and was made fresh.
    Made,
    /// It stays stale.
    Failed(SyncFault),
}

fn is_stale<S: Shelf>(driver: &Driver<S>, pp: Pp) -> bool
    ensures { result ≡ is_stale driver.now.1 pp }
{
    driver.table().is_stale(pp)
}

// What is answered by why a copy isn't opened.
fn refused(why: CopyFault, lp: u32) -> Result<Opening, SyncFault>
    requires may { (core : Core) × MayRefuse core why }
    ensures { IsAnsweredBy lp why result }
{
    match why {
        CopyFault::Dark => Err(SyncFault::Dark),
        CopyFault::Off => Err(SyncFault::Off),
        CopyFault::HistoryFull => Err(SyncFault::HistoryFull),
        CopyFault::Missing { disk } => Ok(Opening::Refused(SyncFault::Missing { disk })),
        CopyFault::NoFresh => Ok(Opening::Refused(SyncFault::NoFresh { lp })),
        CopyFault::Busy | CopyFault::NoVolume | CopyFault::OutOfRange | CopyFault::AlreadyFresh => {
            unreachable!()
        }
    }
}

// Opens a copy that is stale. One that the committed status alone calls stale is judged once it is settled.
fn open_stale<S: Shelf>(
    driver: &mut Driver<S>,
    lv: u16,
    lp: u32,
    number: u8,
    pp: Pp,
    patience: &mut Patience,
) -> Result<Opening, SyncFault>
    requires unstuck { driver.old.1.power ≡ power.Stuck → ⊥ }
    requires may { MayPass driver.old.1 (copy_of lv lp number pp) }
    ensures ends { JudgesCopy (copy_of lv lp number pp) patience.old.left patience.new.left (state_of S.device driver.old) (state_of S.device driver.new) result }
    ensures beside { GoesBeside (state_of S.device driver.old) (state_of S.device driver.new) patience.old.left patience.new.left }
{
    while is_stale(driver, pp) {
        driver.is_sound();
        match driver.open_copy(lv, lp, number) {
            Ok(()) => return Ok(Opening::Opened),
            Err(why) => match why {
                CopyFault::AlreadyFresh => make_turn(driver, patience)?,
                _ => return refused(why, lp),
            },
        }
    }
    Ok(Opening::Fresh)
}

fn is_running<S: Shelf>(driver: &Driver<S>) -> bool
    ensures runs { result ≡ true → Runs driver.now.1 }
    ensures ended { result ≡ false → Runs driver.now.1 → ⊥ }
{
    match driver.copy_state() {
        CopyState::Running { cursor: _ } => true,
        _ => false,
    }
}

// Brings up the copy that is open, and closes it. Answers how it has ended.
fn bring_up<S: Shelf>(
    driver: &mut Driver<S>,
    patience: &mut Patience,
) -> Result<CopyState, SyncFault>
    requires unstuck { driver.old.1.power ≡ power.Stuck → ⊥ }
    requires opened { IsJustOpened driver.old.1 }
    ensures ends { BringsUp patience.old.left patience.new.left (state_of S.device driver.old) (state_of S.device driver.new) result }
    ensures ended { IfOk result CopyHasEnded }
    ensures beside { GoesBeside (state_of S.device driver.old) (state_of S.device driver.new) patience.old.left patience.new.left }
{
    while is_running(driver) {
        driver.is_sound();
        make_turn(driver, patience)?;
    }
    let how = driver.copy_state();
    driver.close_copy();
    Ok(how)
}

fn passed_by(how: CopyState, lp: u32) -> Passed
    requires ended { CopyHasEnded how }
    ensures { IsPassedBy lp how result }
{
    match how {
        CopyState::Done => Passed::Made,
        CopyState::SyncFailed { disk } => Passed::Failed(SyncFault::SyncFailed { disk }),
        CopyState::NoFresh => Passed::Failed(SyncFault::NoFresh { lp }),
        CopyState::Closed | CopyState::Running { cursor: _ } | CopyState::Ended => unreachable!(),
    }
}

/// Passes a copy, from 1, of a logical partition, from 0, of a volume: where it is stale it is brought up.
///
/// # Errors
///
/// Where the session is over, the patience or the numbers of stamps have run out.
pub fn pass_copy<S: Shelf>(
    driver: &mut Driver<S>,
    lv: u16,
    lp: u32,
    number: u8,
    pp: Pp,
    patience: &mut Patience,
) -> Result<Passed, SyncFault>
    requires unstuck { driver.old.1.power ≡ power.Stuck → ⊥ }
    requires may { MayPass driver.old.1 (copy_of lv lp number pp) }
    ensures ends { PassesOrEnds (copy_of lv lp number pp) patience.old.left patience.new.left (state_of S.device driver.old) (state_of S.device driver.new) result }
    ensures beside { GoesBeside (state_of S.device driver.old) (state_of S.device driver.new) patience.old.left patience.new.left }
{
    let opening = open_stale(driver, lv, lp, number, pp, patience)?;
    match opening {
        Opening::Fresh => Ok(Passed::Fresh),
        Opening::Refused(why) => Ok(Passed::Failed(why)),
        Opening::Opened => {
            let how = bring_up(driver, patience)?;
            Ok(passed_by(how, lp))
        }
    }
}
