//! The lines that make a group, vary one on, or vary one off.
ghost use Rattle.std.specs.Prelude.{◌≡◌, ◌≢◌, ◌≤◌, [], length, Some, IfOk, IfErr, IsTrue, AllPairs};
ghost use Rattle.std.specs.Option.{ForSome};
ghost use Rattle.lvm_num.specs.Descriptor.{is_size};
ghost use Rattle.lvm_io.specs.Count.{next_count};
ghost use Rattle.lvm_session.specs.Sound.{IsSound};
ghost use Rattle.lvm_core.specs.Sound.{IsSoundAtRest};
ghost use Rattle.lvm_core.specs.Starting.{IsRoom};
ghost use Rattle.lvm_core.specs.State.{state_of};
ghost use Rattle.lvm_group_lines.specs.Groups.{IsHeldBy, IsLeftBy, MkvgDoes, VaryonDoes, VaryoffDoes};
ghost use Rattle.lvm_group_lines.specs.Moments.{Aside};
ghost use Rattle.lvm_group_lines.specs.Ends.{CommandEnds, EndsUnasked};
ghost use Rattle.lvm_group_lines.specs.Stages.{IsBetweenStage, IsFittingStage, IsOfKind, history_of, session_of, shelf_of};
ghost use Rattle.lvm_group_lines.specs.Lighting.{IsRelit, refusal_of};

use crate::below::driver;
use crate::below::quiesce::{mkvg, varyon};
use crate::holder::Holder;
use crate::reply::{Refusal, Reply};
use crate::stage::{Answered, Stage};
use lvm_core::{Cause, Closed, CommandDriver, Refused, Room};
use lvm_disk::Shelf;
use lvm_io::Clock;
use lvm_num::Name;
use lvm_transfer::{Patience, relight};
use std::alloc::Global;

// The cause for which no group came on, as the refusal of its line.
fn refusal_of(cause: Cause) -> Refusal
    ensures { result ≡ refusal_of cause }
{
    match cause {
        Cause::NoDisk { disk } => Refusal::NoDisk { disk },
        Cause::TooMany { limit } => Refusal::TooMany { limit },
        Cause::TooSmall { disk } => Refusal::TooSmall { disk },
        Cause::GroupExists => Refusal::GroupExists,
        Cause::NoRecord => Refusal::NoRecord,
        Cause::Ambiguous => Refusal::Ambiguous,
        Cause::NoQuorum { have, total } => Refusal::NoQuorum { have, total },
        Cause::ClockBack { seen } => Refusal::ClockBack { seen },
        Cause::DiskFailed { disk } => Refusal::DiskFailed { disk },
        Cause::HistoryFull => Refusal::HistoryFull,
        Cause::Dark => Refusal::Dark,
        Cause::Stuck => Refusal::Stuck,
        Cause::Memory => Refusal::Memory,
    }
}

// Puts the power on again where it was cut.
fn relight_after_refusal<S: Shelf>(shelf: &mut S, cause: Cause)
    requires { cause ≡ Cause.Dark → (S.device shelf.old).flights ≡ [] }
    ensures { IsRelit cause (S.device shelf.old) (S.device shelf.new) }
{
    match cause {
        Cause::Dark => relight(shelf),
        _ => {}
    }
}

// Who holds a group that has come on, which takes requests where it has a volume.
fn hold<S: Shelf>(driver: CommandDriver<S>) -> Holder<S>
    requires may { IsSoundAtRest (state_of S.device driver) → IsSound (state_of S.device driver) }
    ensures shelf { shelf_of result ≡ driver.0 }
    ensures history { history_of result ≡ driver.1.history }
    ensures session { session_of result ≡ Some driver.1 }
    ensures kind { IsOfKind result }
    ensures between { IsSoundAtRest (state_of S.device driver) }
    ensures sound { IsSound (state_of S.device driver) }
{
    let _ = driver.open();
    if driver.descriptor().lvs.is_empty() {
        Holder::Empty { driver }
    } else {
        let (shelf, session) = driver.into_parts();
        let driver = driver::Driver::from_parts(shelf, session);
        Holder::Serving { driver }
    }
}

// Who holds the shelf and the history after a command by which a group comes on or doesn't, and what it is answered.
fn left<S: Shelf>(outcome: Result<CommandDriver<S>, Refused<S>>) -> (Holder<S>, Reply)
    requires may { IfOk outcome (λ driver. IsSoundAtRest (state_of S.device driver) → IsSound (state_of S.device driver)) }
    requires still { IfErr outcome (λ refused. refused.cause ≡ Cause.Dark → (S.device refused.shelf).flights ≡ []) }
    ensures on { IfOk outcome (IsHeldBy S.device result.0 result.1) }
    ensures off { IfErr outcome (IsLeftBy S.device result.0 result.1) }
{
    match outcome {
        Ok(driver) => (hold(driver), Reply::Ok),
        Err(refused) => {
            let Refused {
                mut shelf,
                history,
                cause,
            } = refused;
            relight_after_refusal(&mut shelf, cause);
            (
                Holder::Off { shelf, history },
                Reply::Refused(refusal_of(cause)),
            )
        }
    }
}

/// Makes a group of some disks, at the moment that the clock answers, and varies it on. The transfers that are out are
/// ended first.
pub fn do_mkvg<S: Shelf, C: Clock>(
    alloc: Global,
    stage: Stage<S>,
    clock: &mut C,
    room: Room,
    force: bool,
    name: Name,
    mib: Option<u16>,
    disks: &[u16],
) -> Answered<S>
    requires fits { IsFittingStage stage }
    requires between { IsBetweenStage S.device stage }
    requires room { IsRoom room }
    requires a_disk { 1 ≤ length disks.now }
    requires differ { AllPairs (λ a b. a ≢ b) disks.now }
    requires size { ForSome mib (λ given. IsTrue (is_size given)) }
    ensures asked { C.asked clock.new ≡ next_count (C.asked clock.old) }
    ensures ends { CommandEnds S.device (λ log. MkvgDoes log room force name mib disks.now) ⊥ Aside stage result.stage result.reply (C.last clock.old) (C.last clock.new) }
{
    let moment = clock.now();
    match stage.into_off() {
        Ok((closed, posts, bytes)) => {
            let Closed { shelf, history } = closed;
            let mut patience = Patience::whole();
            let (holder, reply) = left(mkvg(
                alloc,
                shelf,
                history,
                name,
                mib,
                disks,
                force,
                moment,
                room,
                &mut patience,
            ));
            Stage {
                holder,
                posts,
                bytes,
            }
            .answered(reply)
        }
        Err(stage) => stage.refused(Refusal::GroupOn),
    }
}

/// Varies a group on, at the moment that the clock answers. The transfers that are out are ended first.
pub fn do_varyon<S: Shelf, C: Clock>(
    alloc: Global,
    stage: Stage<S>,
    clock: &mut C,
    room: Room,
    name: Name,
) -> Answered<S>
    requires fits { IsFittingStage stage }
    requires between { IsBetweenStage S.device stage }
    requires room { IsRoom room }
    ensures asked { C.asked clock.new ≡ next_count (C.asked clock.old) }
    ensures ends { CommandEnds S.device (λ log. VaryonDoes log room name) ⊥ Aside stage result.stage result.reply (C.last clock.old) (C.last clock.new) }
{
    let moment = clock.now();
    match stage.into_off() {
        Ok((closed, posts, bytes)) => {
            let Closed { shelf, history } = closed;
            let mut patience = Patience::whole();
            let (holder, reply) = left(varyon(
                alloc,
                shelf,
                history,
                name,
                moment,
                room,
                &mut patience,
            ));
            Stage {
                holder,
                posts,
                bytes,
            }
            .answered(reply)
        }
        Err(stage) => stage.refused(Refusal::GroupOn),
    }
}

/// Varies the group of the name off, if it is on and none of its requests is open. Transfers that are out stay so.
pub fn do_varyoff<S: Shelf>(stage: Stage<S>, name: Name) -> Answered<S>
    requires fits { IsFittingStage stage }
    requires between { IsBetweenStage S.device stage }
    ensures { EndsUnasked S.device (λ _. VaryoffDoes name) ⊥ Aside stage result.stage result.reply }
{
    if !stage.is_on(name) {
        return stage.refused(Refusal::NoGroup);
    }
    if stage.holder.open() > 0 {
        return stage.refused(Refusal::Busy);
    }
    let (closed, posts, bytes) = stage.close();
    let Closed { shelf, history } = closed;
    Stage::off(shelf, history, posts, bytes).answered(Reply::Ok)
}
