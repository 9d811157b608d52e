//! The program: what the words of its command line ask for.
#![tactic(auto)]

mod generate;
mod image;
mod laws;
mod load;
mod program;
mod workload;

pub use generate::run_gen;
pub use image::run_image;
pub use laws::{harmless_runs_go_well, request_lines_land_well, worked_run};
pub use load::{LoadWords, run_load};
pub use lvm_load::{Load, Workload};
pub use lvm_top::{Ended, ExitStatus, Room, run_script};
pub use lvm_words::{Job, WordsFault, read_words};
pub use program::run_words;
pub use workload::run_weave;
