//! A group whose rule of votes changes, or whose size or spares do, or that members leave: the records by which it turns to its next descriptor, and the members that these don't reach.
#![tactic(auto)]

mod parting;
mod rule;
mod spare;
mod turn;

pub use parting::part_with;
pub use rule::{FewVotes, as_big, few_votes_for, with_quorum};
pub use spare::with_spare;
pub use turn::{Transition, TransitionEnd, make_transition, next_stamp, without};
