//! Which target of a write is started next.
ghost use Rattle.std.specs.Prelude.{◌≡◌, ◌≤◌, ◌<◌, length, position};
ghost use Rattle.std.specs.List.{list_any};
ghost use Rattle.lvm_sched.specs.Writes.{is_waiting, is_flying, next_target};

use lvm_num::Policy;

/// How far the write of one copy is.
#[derive(Clone, Copy)]
pub enum TargetState {
    /// Not started.
    Waiting,
    /// Started and not ended.
    Flying,
    /// Ended, and the data is on the disk.
    Done,
    /// Ended by a fault.
    Failed,
}

/// The place, from 0, of the target that is started next, if one may be. The sequential policy starts
/// none while one flies.
pub fn write_next(policy: Policy, states: &[TargetState]) -> Option<u8>
    requires { length states.now ≤ 4 }
    ensures { result ≡ next_target policy states.now }
{
    if matches!(policy, Policy::Sequential) && any_flies(states) {
        return None;
    }
    let place = first_waiting(states)?;
    Some(place as u8)
}

fn any_flies(states: &[TargetState]) -> bool
    ensures { result ≡ list_any is_flying states.now }
{
    states
        .iter()
        .any(|state| matches!(state, TargetState::Flying))
}

fn first_waiting(states: &[TargetState]) -> Option<usize>
    ensures { result ≡ position is_waiting states.now }
{
    states
        .iter()
        .position(|state| matches!(state, TargetState::Waiting))
}
