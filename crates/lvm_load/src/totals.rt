//! What is counted of a workload.
ghost use Rattle.std.specs.Prelude.{◌≡◌, ◌<◌, ◌+◌, ◌^◌, if◌then◌else◌};
ghost use Rattle.lvm_load.specs.Totals.{entries_since, is_of, is_same, kind_of, totals_of};

use lvm_history::History;
use lvm_vol::{Entry, Outcome};

/// How the requests of a workload ended.
#[derive(Clone, Copy)]
pub struct Totals {
    /// How many began.
    pub begun: u32,
    /// How many writes ended well.
    pub done: u32,
    /// How many reads did.
    pub got: u32,
    /// How many writes failed on each copy that was fresh.
    pub lost: u32,
    /// How many ended in another way.
    pub refused: u32,
    /// How many didn't begin.
    pub unbegun: u32,
}

/// What an entry tells of a request that is counted.
#[derive(Clone, Copy)]
pub enum Kind {
    Begun,
    Done,
    Got,
    Lost,
    Refused,
}

// Whether a request that ended so counts so.
fn is_end(kind: Kind, outcome: Outcome) -> bool
    ensures { result ≡ is_same (kind_of outcome) kind }
{
    match outcome {
        Outcome::Done => matches!(kind, Kind::Done),
        Outcome::Got => matches!(kind, Kind::Got),
        Outcome::Lost => matches!(kind, Kind::Lost),
        Outcome::ReadFailed | Outcome::NoFresh | Outcome::Off | Outcome::Dark => matches!(
            kind,
            Kind::Refused
        ),
    }
}

// Whether an entry counts so.
fn is_of(kind: Kind, entry: Entry) -> bool
    ensures { result ≡ is_of kind entry }
{
    match entry {
        Entry::Begun { .. } => matches!(kind, Kind::Begun),
        Entry::Landed { outcome, .. } => is_end(kind, outcome),
        _ => false,
    }
}

// One more, where an entry counts so.
fn counted(n: u32, kind: Kind, entry: Entry) -> u32
    requires { n + 1 < 2 ^ 32 }
    ensures { result ≡ (if is_of kind entry then n + 1 else n) }
{
    if is_of(kind, entry) { n + 1 } else { n }
}

/// The totals of a workload of so many requests, by what the history tells since it had so many entries.
pub fn totals_since(history: &History, from: u32, requests: u32) -> Totals
    ensures { result ≡ totals_of requests (entries_since from history.now.facts) }
{
    let (mut begun, mut done, mut got, mut lost, mut refused) = (0, 0, 0, 0, 0);
    for k in from..history.len() {
        let entry = history.entry(k);
        begun = counted(begun, Kind::Begun, entry);
        done = counted(done, Kind::Done, entry);
        got = counted(got, Kind::Got, entry);
        lost = counted(lost, Kind::Lost, entry);
        refused = counted(refused, Kind::Refused, entry);
    }
    Totals {
        begun,
        done,
        got,
        lost,
        refused,
        unbegun: requests.saturating_sub(begun),
    }
}
