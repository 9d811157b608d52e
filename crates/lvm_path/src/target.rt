//! The copies to which a request goes, and how far each transfer is.
ghost use Rattle.std.specs.Prelude.{◌≡◌, ◌≤◌, ◌<◌, length, take, position};
ghost use Rattle.std.specs.List.{list_any};
ghost use Rattle.lvm_sched.specs.Writes.{is_waiting, is_flying};
ghost use Rattle.lvm_path.specs.declared.target.Target.{Target};
ghost use Rattle.lvm_path.specs.Targets.{is_done, is_begun, are_over, states_of, with_state};

use arrayvec::ArrayVec;
use lvm_sched::TargetState;
use lvm_sched::below::Pp;

/// A copy to which a write goes, or which a read may try; or the destination of a move, for a write.
#[derive(Clone, Copy)]
pub struct Target {
    /// The sector of its disk at which the request's first block stands.
    pub sector: u64,
    /// How many transfers of its disk had failed when it was chosen.
    pub faults: u64,
    /// The physical partition that is the copy.
    pub pp: Pp,
    /// Whether the copy was usable when it was chosen, and not only being brought up.
    pub usable: bool,
    /// Whether it is the destination of a move, which is no copy yet.
    pub moves: bool,
    /// How far the transfer to it, or from it, is.
    pub state: TargetState,
}

impl Default for Target {
    fn default() -> Target {
        Target {
            sector: 0,
            faults: 0,
            pp: Pp { disk: 0, pp: 0 },
            usable: false,
            moves: false,
            state: TargetState::Waiting,
        }
    }
}

/// Whether a transfer of one of them was started.
pub fn any_is_begun(targets: &[Target]) -> bool
    ensures { result ≡ is_begun targets.now }
{
    targets
        .iter()
        .any(|target| !matches!(target.state, TargetState::Waiting))
}

/// Whether the transfer of one of them has ended well.
pub fn any_is_done(targets: &[Target]) -> bool
    ensures { result ≡ list_any (λ (t : Target). is_done t.state) targets.now }
{
    targets
        .iter()
        .any(|target| matches!(target.state, TargetState::Done))
}

/// Whether a transfer of one of them is under way.
pub fn any_flies(targets: &[Target]) -> bool
    ensures { result ≡ list_any (λ (t : Target). is_flying t.state) targets.now }
{
    targets
        .iter()
        .any(|target| matches!(target.state, TargetState::Flying))
}

/// The place of the first whose transfer wasn't started.
pub fn first_waiting(targets: &[Target]) -> Option<usize>
    ensures { result ≡ position (λ (t : Target). is_waiting t.state) targets.now }
{
    targets
        .iter()
        .position(|target| matches!(target.state, TargetState::Waiting))
}

/// Whether the transfer of each of them has ended.
pub fn are_over(targets: &[Target]) -> bool
    ensures { result ≡ are_over targets.now }
{
    targets.iter().all(|target| matches!(target.state, TargetState::Done | TargetState::Failed))
}

/// How far each of them is, in the first places.
pub fn states_of(targets: &[Target]) -> [TargetState; 4]
    requires { length targets.now ≤ 4 }
    ensures { take (length targets.now) result ≡ states_of targets.now }
{
    let mut states = [TargetState::Done; 4];
    for place in 0..targets.len() {
        states[place] = targets[place].state;
    }
    states
}

/// The transfer of the one at a place is so far now.
pub fn set_state(targets: &mut [Target], place: u8, state: TargetState)
    requires { place < length targets.old }
    ensures { targets.new ≡ with_state targets.old place state }
{
    targets[usize::from(place)].state = state;
}

/// The same ones, as a request has them.
pub fn targets_of(targets: &[Target]) -> ArrayVec<Target, 4>
    requires { length targets.now ≤ 4 }
    ensures { result.items ≡ targets.now }
{
    let mut list = ArrayVec::new();
    for target in targets {
        list.push(*target);
    }
    list
}
