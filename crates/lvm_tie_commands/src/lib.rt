//! A session is tied as a command has begun it or has left it, and the next command finds it settled: what
//! stands on its disks once volumes or copies are made or removed, and that it is sound with requests.
#![tactic(auto)]

pub mod below;
mod change_laws;
mod copies_laws;
mod groups_laws;
mod laws;
mod split_laws;

pub use change_laws::{
    change_finds_two, make_big_goes_on, make_big_serves, pairs_may_change, set_quorum_goes_on,
    set_quorum_serves,
};
pub use copies_laws::{
    mklvcopy_goes_on, mklvcopy_serves, rmlvcopy_goes_on, rmlvcopy_serves, split_goes_on,
    split_shares,
};
pub use groups_laws::{
    made_alone, made_serves, pairs_serve, settled_serves, settled_ties, tied_holds, tied_settles,
    varied_is_made_even, varied_on_serves,
};
pub use laws::{made_stands, mklv_goes_on, rmlv_goes_on, tidy_goes_on, varied_on_stands};
pub use split_laws::split_leaves_serving;
