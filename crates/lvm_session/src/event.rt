//! The events that a turn may make.

use lvm_kept::below::Outcome;

/// An event of a turn. A place is that of a request in the table, from 0.
#[derive(Clone, Copy)]
pub enum Event {
    /// The request lands with this outcome.
    Land { place: usize, outcome: Outcome },
    /// Its targets are chosen, or chosen again.
    Admit { place: usize },
    /// Its track group is pinned.
    Pin { place: usize },
    /// A write of the status is started.
    StartStatus,
    /// A note is started on a disk on which the request lacks one.
    StartNote { place: usize, disk: u16 },
    /// The transfer of its target at this place, from 0, is started.
    StartData { place: usize, target: u8 },
    /// The track group at the cursor of the copy that is open is read.
    ReadCopy,
    /// What was read of it is written.
    WriteCopy,
}
