//! What stands between two lines of a script, what a line is answered, and what holds from one line to the
//! next; the lines on disks in no group and on the shelf itself, and those that make a group, vary one on
//! or off, and list it.
#![tactic(auto)]

pub mod below;
mod disks;
mod groups;
mod holder;
mod listings;
mod reply;
mod shelves;
mod stage;

pub use disks::{do_read, do_write, lines_reply};
pub use groups::{do_mkvg, do_varyoff, do_varyon};
pub use holder::Holder;
pub use listings::{list_disk, list_group, list_volume};
pub use reply::{Refusal, Reply, memory_text, push_refusal_line, refusal_line};
pub use shelves::{do_arrange, do_cut};
pub use stage::{Answered, Stage, take_rooms};
