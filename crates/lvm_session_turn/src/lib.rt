//! One turn of a session: what is learned of a transfer that has ended, by whose it is, and the first event
//! that is due. Beside it the orders to its shelf between turns.
#![tactic(auto)]

mod back;
pub mod below;
mod cases;
mod copy_learn;
mod data;
mod ending;
mod first;
mod learn;
mod next;
mod orders;
mod records;
mod rows;
mod step;
mod turns;

pub use back::{end_flight, return_flight};
pub use copy_learn::end_step;
pub use data::end_data;
pub use ending::finish;
pub use learn::{learn_note, learn_status};
pub use orders::arrange;
pub use records::{end_note, end_status};
pub use rows::{Back, reap_row};
pub use turns::turn;
