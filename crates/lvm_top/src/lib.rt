//! The run of a script: read line by line, done on a shelf of disks, and answered.
#![tactic(auto)]

pub mod below;
mod found_laws;
mod laws;
mod run;
mod script;
mod status;

pub use found_laws::{lines_find_no_more, scripts_find_what_stands, unforced_scripts_stay_alone};
pub use laws::{
    blank_holds_one_group, left_is_earlier, runs_end_in_time, runs_follow, scripts_are_complete,
    varyons_recover,
};
pub use lvm_core::Room;
pub use run::{Ended, close_ended, conclude, run_on, run_script, status_of, unbegun};
pub use script::{Stop, write_reply};
pub use status::ExitStatus;
