//! Fields that are read from the front of some bytes, each with its rule, and the place of the first that
//! doesn't fit.
#![tactic(auto)]

mod fault;
mod fields;
mod names;
mod unread;

pub use fault::Fault;
pub use fields::{
    all, behind, bytes_at, u8_at, u8_from_1, u8_up_to, u16_at, u16_from_1, u16_up_to, u32_at,
    u64_at, u64_nonzero, zeros_at,
};
pub use names::name_in;
pub use unread::Unread;
