//! Ranges that are posted: they are answered later, perhaps once their session is gone.
ghost use Rattle.std.specs.Prelude.{◌≡◌, ◌<◌, ◌+◌, ◌++◌, true, [], map};
ghost use Rattle.lvm_vol.specs.Log.{is_answered};
ghost use Rattle.lvm_vol.specs.Order.{Ordered};
ghost use Rattle.lvm_session.specs.Sound.{outcome_in};
ghost use Rattle.lvm_disk.specs.Device.{Device};
ghost use Rattle.lvm_kept.specs.Moments.{Moment};
ghost use Rattle.lvm_steps.specs.Moments.{Keeps};
ghost use Rattle.lvm_steps.specs.Requests.{at as moment_of};
ghost use Rattle.lvm_posts.specs.Pieces.{IsLaidOut};
ghost use Rattle.lvm_posts.specs.Posts.{AreAnswered, ended_with, landing_by, takings};
ghost use Rattle.lvm_posts.specs.Deciding.{EndsWith, RangeEnds, fault_by};

use crate::asked::Asked;
use crate::fault::{RangeFault, first_fault};
use crate::pieces::piece_lp;
use lvm_history::History;
use lvm_num::SCRIPT_CLIENT;
use lvm_vol::{Entry, Outcome};

/// A write that was asked for and is answered later.
#[derive(Clone, Copy, PartialEq, Eq)]
pub struct Post {
    pub asked: Asked,
    /// The votes of the members that weren't missing, and those of all, as its session ended, where it has.
    pub ended: Option<(u32, u32)>,
}

/// Notes that the session of each of these posts has ended, with so many votes of so many, where it hadn't before.
pub fn end_posts(posts: &mut [Post], have: u32, total: u32)
    ensures { posts.new ≡ map (ended_with have total) posts.old }
{
    for post in posts.iter_mut() {
        post.ended = Some(post.ended.unwrap_or((have, total)));
    }
}

// How the request of this number has landed, where this entry tells it.
fn landing_by(entry: Entry, id: u64) -> Option<Outcome>
    ensures { result ≡ landing_by id entry }
{
    match entry {
        Entry::Landed {
            id: landed,
            outcome,
            started: _,
        } => { if landed == id { Some(outcome) } else { None } }
        Entry::Making { .. }
        | Entry::Made { .. }
        | Entry::Split { .. }
        | Entry::Removing { .. }
        | Entry::Removed { .. }
        | Entry::Begun { .. }
        | Entry::Taken { .. }
        | Entry::Cut
        | Entry::On { .. } => None,
    }
}

// How the request of this number has landed, if it has.
fn outcome_in(history: &History, id: u64) -> Option<Outcome>
    ensures { result ≡ outcome_in history.now.facts id }
{
    for k in 0..history.len() {
        match landing_by(history.entry(k), id) {
            Some(how) => return Some(how),
            None => {}
        }
    }
    None
}

// How a piece in this logical partition has failed that landed so, where the votes are so many of so many.
fn fault_by(how: Outcome, lp: u32, have: u32, total: u32) -> Option<RangeFault>
    ensures { result ≡ fault_by lp have total how }
{
    match how {
        Outcome::Done | Outcome::Got => None,
        Outcome::Lost => Some(RangeFault::Lost),
        Outcome::ReadFailed => Some(RangeFault::ReadFailed),
        Outcome::NoFresh => Some(RangeFault::NoFresh { lp }),
        Outcome::Off => Some(RangeFault::WentOff { have, total }),
        Outcome::Dark => Some(RangeFault::Dark),
    }
}

// How a piece has failed that has landed, where the votes are so many of so many.
fn piece_fault(
    history: &History,
    asked: &Asked,
    piece: u32,
    have: u32,
    total: u32,
) -> Option<RangeFault>
    requires within { piece < asked.now.pieces }
    requires answered { is_answered history.now.facts 1 (asked.now.first + piece) ≡ true }
    requires laid { IsLaidOut asked.now }
    ensures { EndsWith history.now.facts asked.now have total piece result }
{
    match outcome_in(history, asked.first + u64::from(piece)) {
        Some(how) => fault_by(how, piece_lp(asked, piece), have, total),
        None => None,
    }
}

// All that the history tells is of its run, in order.
fn is_ordered(history: &History)
    ensures { Ordered history.now.run [] history.now.facts }
{
    let _ = history.run();
}

/// Takes the answers of a range whose session is gone, as the history tells of them, in the order of its blocks. The
/// votes are those as the session ended.
///
/// # Errors
///
/// The first piece that didn't end well decides; all answers are taken all the same.
pub fn take_closed(
    history: &mut History,
    asked: &Asked,
    have: u32,
    total: u32,
) -> Result<(), RangeFault>
    requires answered { AreAnswered history.old.facts asked.now }
    requires laid { IsLaidOut asked.now }
    ensures entered { history.new ≡ record history.old { facts = history.old.facts ++ takings history.old.facts asked.now.first asked.now.pieces } }
    ensures ends { RangeEnds history.new.facts asked.now have total result }
    ensures keeps { (first : Moment) (device : Device) → Keeps history.old.run first (moment_of device history.old.facts) → Keeps history.old.run first (moment_of device history.new.facts) }
{
    let mut fault = None;
    for piece in 0..asked.pieces {
        is_ordered(history);
        let failed = piece_fault(history, asked, piece, have, total);
        fault = first_fault(fault, failed);
        history.taken(SCRIPT_CLIENT, asked.first + u64::from(piece));
    }
    match fault {
        None => Ok(()),
        Some(why) => Err(why),
    }
}
