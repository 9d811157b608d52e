//! The work that is left of a write.
ghost use Rattle.std.specs.Prelude.{◌≡◌, ◌≤◌, ◌<◌, ◌^◌, ◌&&◌, count_by, length, not, sum_by};
ghost use Rattle.lvm_num.specs.Descriptor.{IsValid};
ghost use Rattle.lvm_path.specs.Asks.{at_of};
ghost use Rattle.lvm_session.specs.Fields.{core_of};
ghost use Rattle.lvm_session.specs.Judging.{IsWithinVolume, copies_for, is_changed, destinations_for};
ghost use Rattle.lvm_session.specs.Left.{begun_left, if_so, is_brought_up, is_held, lacks_dirty, lacks_note, phase_left, destination_turns, turns_of, unbegun_left, waiting_targets, write_left};
ghost use Rattle.lvm_session.specs.Requests.{IsLaid};

use crate::below::is_changed;
use crate::facts_places::is_pp;
use crate::standing::{
    copies_for, destination_for, group_of, is_missing, is_running, is_settled, is_usable, mode_of,
};
use lvm_num::{Mode, Pp};
use lvm_path::{Phase, Request, Target, are_over};
use lvm_sched::TargetState;
use lvm_session::Session;

fn if_so(is: bool, work: u64) -> u64
    ensures is { result ≡ if_so is work }
    ensures most { result ≤ work }
{
    if is { work } else { 0 }
}

/// The targets whose transfers aren't started.
pub fn waiting_targets(request: &Request) -> u64
    requires { length request.now.targets.items ≤ 4 }
    ensures is { result ≡ waiting_targets request.now }
    ensures few { result ≤ 4 }
{
    let mut waiting = 0;
    for target in request.targets.as_slice() {
        if matches!(target.state, TargetState::Waiting) {
            waiting += 1;
        }
    }
    waiting
}

// Whether a note is to be started on the disk of a target.
fn lacks_note(session: &Session, request: &Request, target: &Target) -> bool
    requires { at_of request.now.ask < 2 ^ 40 }
    ensures { result ≡ lacks_note (core_of session.now) request.now target.now }
{
    let (disk, lv, group) = (target.pp.disk, request.ask.lv(), group_of(&request.ask));
    request.pinned
        && !is_missing(session, disk)
        && !session.cache.is_named(disk, lv, group)
        && !session.cache.flight_names(disk, lv, group)
}

fn lacking_notes(session: &Session, request: &Request) -> u64
    requires at { at_of request.now.ask < 2 ^ 40 }
    requires targets { length request.now.targets.items ≤ 4 }
    ensures is { result ≡ count_by (lacks_note (core_of session.now) request.now) request.now.targets.items }
    ensures few { result ≤ 4 }
{
    let mut lacking = 0;
    for target in request.targets.as_slice() {
        if lacks_note(session, request, target) {
            lacking += 1;
        }
    }
    lacking
}

// By its phase.
fn phase_left(session: &Session, request: &Request) -> u64
    requires at { at_of request.now.ask < 2 ^ 40 }
    requires targets { length request.now.targets.items ≤ 4 }
    ensures is { result ≡ phase_left request.now.phase (core_of session.now) request.now }
    ensures few { result ≤ 19 }
{
    match request.phase {
        Phase::Held => 19,
        Phase::WantEntry => 18,
        Phase::WantRecord => 9 + 2 * lacking_notes(session, request),
        Phase::Data | Phase::WantStatus | Phase::Landed => 9,
    }
}

// Whether the copy on this partition is being brought up.
fn is_brought_up(session: &Session, pp: Pp) -> bool
    ensures { result ≡ is_brought_up (core_of session.now) pp }
{
    match &session.copy {
        None => false,
        Some(copy) => is_running(copy) && is_pp(pp, copy.pp),
    }
}

// What a copy may still make of it: it may come to be among the targets, and cease to be.
fn turns_of(session: &Session, pp: Pp) -> u64
    ensures is { result ≡ turns_of (core_of session.now) pp }
    ensures few { result ≤ 46 }
{
    if is_missing(session, pp.disk) {
        0
    } else if is_usable(session, pp) {
        if is_brought_up(session, pp) { 34 } else { 22 }
    } else if is_brought_up(session, pp) {
        46
    } else if is_settled(session, pp) {
        0
    } else {
        34
    }
}

fn all_turns(session: &Session, pps: &[Pp]) -> u64
    requires { length pps.now ≤ 3 }
    ensures is { result ≡ sum_by (turns_of (core_of session.now)) pps.now }
    ensures few { result ≤ 138 }
{
    let mut turns = 0;
    for pp in pps {
        turns += turns_of(session, *pp);
    }
    turns
}

// So may the destination of a move of its logical partition.
fn destination_turns(session: &Session, request: &Request) -> u64
    ensures is { result ≡ sum_by (destination_turns (core_of session.now)) (destinations_for (core_of session.now) request.now.ask) }
    ensures few { result ≤ 46 }
{
    match destination_for(session, &request.ask) {
        None => 0,
        Some(pp) => {
            if !is_missing(session, pp.disk) && is_brought_up(session, pp) {
                46
            } else {
                0
            }
        }
    }
}

// Whether its volume is passive, and a mark of it is still to be wanted.
fn lacks_dirty(session: &Session, request: &Request) -> bool
    ensures { result ≡ lacks_dirty (core_of session.now) request.now.ask }
{
    match mode_of(session, &request.ask) {
        Mode::Passive => !session.updater.wanted().is_dirty(request.ask.lv()),
        Mode::Active | Mode::Off => false,
    }
}

// Whether it is admitted with targets that are no longer those.
fn is_stray(session: &Session, request: &Request) -> bool
    requires valid { IsValid session.now.descriptor }
    requires within { IsWithinVolume session.now.descriptor request.now.ask }
    ensures { result ≡ (not (is_held request.now.phase) && is_changed (core_of session.now) request.now) }
{
    !matches!(request.phase, Phase::Held) && is_changed(session, request)
}

// One that hasn't started its data.
fn unbegun_left(session: &Session, request: &Request) -> u64
    requires valid { IsValid session.now.descriptor }
    requires laid { IsLaid (core_of session.now) request.now }
    ensures is { result ≡ unbegun_left (core_of session.now) request.now }
    ensures few { result ≤ 1024 }
{
    256 + all_turns(session, copies_for(session, &request.ask))
        + destination_turns(session, request)
        + if_so(lacks_dirty(session, request), 256)
        + if_so(is_stray(session, request), 12)
        + phase_left(session, request)
}

// One that has.
fn begun_left(request: &Request) -> u64
    requires { length request.now.targets.items ≤ 4 }
    ensures is { result ≡ begun_left request.now }
    ensures few { result ≤ 1024 }
{
    1 + 2 * waiting_targets(request) + if_so(!are_over(&request.targets), 256)
}

/// A write, from its submission to the end of its transfers.
pub fn write_left(session: &Session, request: &Request) -> u64
    requires valid { IsValid session.now.descriptor }
    requires laid { IsLaid (core_of session.now) request.now }
    ensures is { result ≡ write_left (core_of session.now) request.now }
    ensures few { result ≤ 1024 }
{
    if request.has_started() {
        begun_left(request)
    } else {
        unbegun_left(session, request)
    }
}
