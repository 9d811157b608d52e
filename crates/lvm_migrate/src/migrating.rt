//! The copies of a disk move to another one.
ghost use Rattle.std.specs.Prelude.{◌≡◌, ◌≢◌, ◌≤◌, false, None, is_some, All, IfErr, IfOk, length};
ghost use Rattle.lvm_session.specs.declared.open.Power.TheVariants as power;
ghost use Rattle.lvm_session.specs.Calls.{has_numbers};
ghost use Rattle.lvm_session.specs.Judging.{is_missing};
ghost use Rattle.lvm_session.specs.State.{state_of};
ghost use Rattle.lvm_move_plan.specs.declared.plan.PlannedMove.{PlannedMove};
ghost use Rattle.lvm_move_plan.specs.Planned.{planned_moves};
ghost use Rattle.lvm_migrate.specs.Committed.{MovesAsPlanned};
ghost use Rattle.lvm_migrate.specs.Migrating.{AreFreshBut, ArePlanned, GoesBesideMoving, IsLeftEmpty, IsLeftShut, IsPlanOf, MayMigrate, MigrateGives, MoveCause, MovesAll, StandMoved, busy_or_missing, session_refusal};

use crate::fault::MoveFault;
use crate::moving::move_one;
use lvm_disk::Shelf;
use lvm_driver::Driver;
use lvm_move_plan::{PlannedMove, plan_moves};
use lvm_num::Rows;
use lvm_session::{CopyState, Power};
use lvm_transfer::Patience;
use std::alloc::Global;

// No copy is open where it is closed.
fn has_copy<S: Shelf>(driver: &Driver<S>) -> bool
    ensures { result ≡ is_some driver.now.1.copy }
{
    match driver.copy_state() {
        CopyState::Closed => false,
        _ => true,
    }
}

// More than 65,535 numbers are left for the stamps of records.
fn has_numbers<S: Shelf>(driver: &Driver<S>) -> bool
    ensures { result ≡ has_numbers driver.now.1 }
{
    driver.numbers_left() >= 65_536
}

// Why a session that goes on lets no copy move to the disk.
fn refusal_on<S: Shelf>(driver: &Driver<S>, to: u16) -> Option<MoveFault>
    ensures { result ≡ busy_or_missing driver.now.1 to }
{
    if has_copy(driver) {
        Some(MoveFault::Busy)
    } else if driver.is_missing(to) {
        Some(MoveFault::Missing { disk: to })
    } else {
        None
    }
}

// So it is where the session may be over.
fn session_refusal<S: Shelf>(driver: &Driver<S>, to: u16) -> Option<MoveFault>
    ensures { result ≡ session_refusal driver.now.1 to }
{
    match driver.power() {
        Power::Dark => Some(MoveFault::Dark),
        Power::Off => {
            let (have, total) = driver.votes();
            Some(MoveFault::WentOff { have, total })
        }
        Power::On | Power::Stuck => refusal_on(driver, to),
    }
}

// The moves, unless something stands against them.
fn plan<S: Shelf>(
    driver: &Driver<S>,
    alloc: Global,
    lv: Option<u16>,
    from: u16,
    to: u16,
) -> Result<Rows<PlannedMove>, MoveFault>
    requires may { MayMigrate driver.now.1.descriptor lv from to }
    ensures planned { ArePlanned driver.now.1 lv from to result }
    ensures few { IfOk result (λ moves. length moves ≤ 1016) }
{
    if let Some(why) = session_refusal(driver, to) {
        return Err(why);
    }
    let moves = plan_moves(alloc, driver.descriptor(), lv, from, to)?;
    if !has_numbers(driver) {
        return Err(MoveFault::HistoryFull);
    }
    Ok(moves)
}

// Each of them, in order.
fn move_all<S: Shelf>(
    driver: &mut Driver<S>,
    alloc: Global,
    moves: &[PlannedMove],
    patience: &mut Patience,
) -> Result<u32, MoveFault>
    requires on { driver.old.1.power ≡ power.On }
    requires epoch { driver.old.1.status.stamp.epoch ≢ 0 }
    requires none { driver.old.1.copy ≡ None }
    requires plan { IsPlanOf driver.old.1.descriptor moves.now }
    requires few { length moves.now ≤ 1016 }
    requires there { All (λ (m : PlannedMove). is_missing driver.old.1 m.to.disk ≡ false) moves.now }
    ensures moves { MovesAll moves.now patience.old.left patience.new.left (state_of S.device driver.old) (state_of S.device driver.new) result }
    ensures stand { StandMoved moves.now driver.old.1.descriptor driver.new.1.descriptor result }
    ensures fresh { IfOk result (λ moved. AreFreshBut moves.now (state_of S.device driver.old) (state_of S.device driver.new)) }
    ensures closed { IsLeftShut driver.new.1 result }
    ensures caused { IfErr result (MoveCause patience.old.left (state_of S.device driver.old) (state_of S.device driver.new)) }
    ensures beside { GoesBesideMoving (state_of S.device driver.old) (state_of S.device driver.new) patience.old.left patience.new.left }
    ensures way { MovesAsPlanned moves.now (state_of S.device driver.old) (state_of S.device driver.new) }
{
    for one in moves {
        driver.is_sound();
        move_one(driver, alloc, *one, patience)?;
    }
    Ok(moves.len() as u32)
}

/// Moves the copies of a volume, or of all volumes, from one disk to another, beside the requests that are open: in the order of
/// volumes, their logical partitions and their copies, each to the lowest partition that is free then. Answers how many. A
/// first disk that is missing doesn't matter, and the second may be a spare. Before each commit all is done that may be done
/// of the requests.
///
/// # Errors
///
/// Those of `MoveFault`; those that have moved before stay moved. Nothing changes where none is begun.
pub fn migrate<S: Shelf>(
    driver: &mut Driver<S>,
    alloc: Global,
    lv: Option<u16>,
    from: u16,
    to: u16,
    patience: &mut Patience,
) -> Result<u32, MoveFault>
    requires may { MayMigrate driver.old.1.descriptor lv from to }
    requires unstuck { driver.old.1.power ≡ power.Stuck → ⊥ }
    requires epoch { driver.old.1.status.stamp.epoch ≢ 0 }
    ensures gives { MigrateGives lv from to patience.old.left patience.new.left (state_of S.device driver.old) (state_of S.device driver.new) result }
    ensures stand { StandMoved (planned_moves driver.old.1.descriptor lv from to) driver.old.1.descriptor driver.new.1.descriptor result }
    ensures empty { IfOk result (λ moved. IsLeftEmpty lv from driver.new.1.descriptor) }
    ensures fresh { IfOk result (λ moved. AreFreshBut (planned_moves driver.old.1.descriptor lv from to) (state_of S.device driver.old) (state_of S.device driver.new)) }
    ensures closed { driver.old.1.copy ≡ None → IsLeftShut driver.new.1 result }
    ensures caused { IfErr result (MoveCause patience.old.left (state_of S.device driver.old) (state_of S.device driver.new)) }
    ensures beside { GoesBesideMoving (state_of S.device driver.old) (state_of S.device driver.new) patience.old.left patience.new.left }
    ensures way { MovesAsPlanned (planned_moves driver.old.1.descriptor lv from to) (state_of S.device driver.old) (state_of S.device driver.new) }
{
    driver.is_sound();
    let moves = plan(driver, alloc, lv, from, to)?;
    move_all(driver, alloc, moves.as_slice(), patience)
}
