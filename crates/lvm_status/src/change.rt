//! What may be wanted of a status, and what the end of a write brings.

use crate::below::Pp;

/// A change of the wanted status.
#[derive(Clone, Copy)]
pub enum Change {
    /// The partition becomes stale.
    Stale(Pp),
    /// The partition becomes fresh.
    Fresh(Pp),
    /// The disk of this number becomes missing, which it stays for the session.
    Missing(u16),
    /// The volume of this number, with passive consistency, may differ after a crash.
    Dirty(u16),
    /// The volume of this number may not differ any more.
    Clean(u16),
}

/// What the end of a write of a status update brings.
#[derive(Clone, Copy, PartialEq, Eq)]
pub enum Progress {
    /// The update isn't committed yet, or was already.
    Waiting,
    /// The update came to be committed.
    Committed,
    /// The votes `have` of the members that aren't missing aren't enough to write, of `total` of all.
    QuorumLost { have: u32, total: u32 },
}
