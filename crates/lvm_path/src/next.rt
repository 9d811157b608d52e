//! What a request does next, phase by phase.
ghost use Rattle.std.specs.Prelude.{◌≡◌, ◌≤◌, length};
ghost use Rattle.lvm_path.specs.Next.{next_held, next_chosen, next_marked, next_read, next_write};

use crate::facts::{Facts, Next};
use crate::target::{Target, any_flies, any_is_done, first_waiting, states_of};
use lvm_sched::below::Policy;
use lvm_sched::write_next;
use lvm_vol::Outcome;

/// What one does that isn't admitted yet.
pub fn next_held(facts: Facts) -> Next
    ensures { result ≡ next_held facts }
{
    if facts.blocked || facts.pending {
        Next::Wait
    } else if facts.usable {
        Next::Admit
    } else {
        Next::Land {
            outcome: Outcome::NoFresh,
        }
    }
}

/// What a write does that hasn't started its data, where it goes on by `on`.
pub fn next_chosen(facts: Facts, on: Next) -> Next
    ensures { result ≡ next_chosen facts on }
{
    if facts.pending {
        on
    } else if !facts.usable {
        Next::Land {
            outcome: Outcome::NoFresh,
        }
    } else if facts.changed {
        Next::Admit
    } else {
        on
    }
}

/// What a write does whose transfers have all ended.
pub fn next_marked(facts: Facts) -> Next
    ensures { result ≡ next_marked facts }
{
    if !facts.marked {
        return Next::Wait;
    }
    Next::Land {
        outcome: if facts.kept {
            Outcome::Done
        } else {
            Outcome::Lost
        },
    }
}

/// What a read does that has its copies.
pub fn next_read(targets: &[Target]) -> Next
    requires { length targets.now ≤ 4 }
    ensures { result ≡ next_read targets.now }
{
    if any_is_done(targets) {
        return Next::Land {
            outcome: Outcome::Got,
        };
    }
    if any_flies(targets) {
        return Next::Wait;
    }
    match first_waiting(targets) {
        Some(place) => Next::Start {
            target: place as u8,
        },
        None => Next::Land {
            outcome: Outcome::ReadFailed,
        },
    }
}

/// The start of the target whose turn it is by the policy.
pub fn next_write(policy: Policy, targets: &[Target]) -> Next
    requires { length targets.now ≤ 4 }
    ensures { result ≡ next_write policy targets.now }
{
    let states = states_of(targets);
    match write_next(policy, &states[..targets.len()]) {
        Some(target) => Next::Start { target },
        None => Next::Wait,
    }
}
