//! What commands are answered as text: the listings of a volume group, of its volumes and of its members,
//! the lines of blocks, of turns and of copies, and refusals.
#![tactic(auto)]

mod block;
mod counted;
mod counts;
mod group;
mod map;
mod member;
mod refusal;
mod words;

pub use block::show_block;
pub use counted::{show_migrated, show_stepped, show_synced};
pub use counts::{
    all_free, all_partitions, all_stale, carriers, free_on, missing_members, quorum_votes,
    stale_in, stale_on,
};
pub use group::{show_group, show_volumes};
pub use map::show_map;
pub use member::show_disk;
pub use refusal::{Carried, Refusal, push_refusal, show_refusal};
pub use words::{FourDigits, push_counted, text_of};
