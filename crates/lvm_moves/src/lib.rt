//! The events of a turn, the first one first: a request lands, is admitted with its targets, or pins its
//! track group; or a transfer of data, of a note, of the status or of a copy is started.
#![tactic(auto)]

mod admit;
mod aiming;
pub mod below;
mod bytes;
mod copying;
mod data;
mod first;
mod front;
mod land;
mod launch;
mod laws;
mod loading;
mod moves;
mod noting;
mod pins;
mod reading;
mod start;

pub use admit::admit_at;
pub use copying::{read_copy, write_copy};
pub use data::start_data;
pub use first::make_start;
pub use land::land_at;
pub use launch::{add_flight, end_dark, take_free};
pub use laws::{first_start_can, first_start_has_flight, sessions_may_choose};
pub use moves::{land_first, move_first};
pub use noting::start_note;
pub use pins::pin_first;
pub use start::start_status;
