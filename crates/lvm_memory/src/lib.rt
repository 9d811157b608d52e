//! A shelf of disks in memory, with faults, delays and power cuts by plan. What any shelf keeps of its
//! transfers stands here too: those that are under way, in order of their starts and each with its ticket,
//! how often each thing happened, and which ranges were written.
#![tactic(auto)]

mod cutting;
mod disk;
mod flying;
mod gate;
mod injector;
mod making;
mod memory;
mod piece;
mod queue;
mod room;
mod row;
mod tally;
mod write_log;

pub use cutting::cut_flights;
pub use disk::Disk;
pub use flying::Flying;
pub use gate::GateShelf;
pub use injector::{Act, Injector, Planned, names_disks};
pub use making::{blank_disks, image_disks};
pub use memory::MemShelf;
pub use queue::{delay_by_ticket, first_due, free_ticket, pass_over, take_flight};
pub use room::rooms;
pub use row::{finish_flight, tear_flight};
pub use tally::Tally;
pub use write_log::WriteLog;
