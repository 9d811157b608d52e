//! Workloads that are drawn from a seed, over a group that is on; and a script of the same requests.
#![tactic(auto)]

mod client;
mod laws;
mod lent;
mod load;
mod request;
mod script;
mod serve;
mod totals;
mod workload;

pub use client::Client;
pub use laws::{requests_land_well, workloads_leave_open};
pub use load::{Load, Loaded, share_session};
pub use lvm_workers::{Draw, Tally, draw_request, generator, next_word};
pub use script::{ScriptFault, write_script};
pub use serve::{Served, Synced, serve_load};
pub use totals::{Totals, totals_since};
pub use workload::{Workload, Woven, weave};
