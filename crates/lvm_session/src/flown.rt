//! Whose the transfers are that are out.

/// What a transfer is for.
#[derive(Clone, Copy)]
pub enum Owner {
    /// The target at this place, from 0, of the request of this number.
    Data { id: u64, target: u8 },
    /// The status that is in flight, on this disk.
    Status { disk: u16 },
    /// The note that is in flight on this disk.
    Note { disk: u16 },
    /// The copy that is being brought up.
    Copy,
}

/// A transfer that is out.
#[derive(Clone, Copy)]
pub struct Flown {
    /// The number that the shelf gave it.
    pub ticket: u64,
    pub disk: u16,
    pub owner: Owner,
}
