//! What is passed on from the crates below.

pub use lvm_due::{
    is_held_stale, is_kept, is_missing, is_pp, is_running, is_sure_at, is_usable, is_whole,
    stays_fresh,
};
