//! The rows in which a history is kept, and what they allow: which values a block may have after them, and whether
//! they are legal.
#![tactic(auto)]

mod fits;
mod recent;
mod row;
mod values;

pub use fits::{has_landed, is_legal, is_taken};
pub use recent::{Told, either, may_have, off_by, told_by_end};
pub use row::{Ask, Row};
pub use values::{
    Block, Seen, Sought, ask_or_none, brings, id_of, is_allowed, is_over, is_zeros, opens,
    source_of,
};
