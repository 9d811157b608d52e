//! The requests that a session has open, and whether it goes on.

use lvm_kept::below::Outcome;
use lvm_num::Pbuf;
use lvm_path::Request;

/// A request that was submitted and whose answer isn't taken yet.
#[derive(Drop)]
pub struct Open {
    pub request: Request,
    /// The block of the history, from 0, at which its blocks begin.
    pub place: u64,
    /// Whether its targets were chosen before the copy that is open was opened.
    pub older: bool,
    /// What a read has got, until it lands.
    pub got: Option<Pbuf>,
    /// How it landed, None while it hasn't.
    pub landed: Option<Outcome>,
}

/// Whether a session goes on.
#[derive(Clone, Copy)]
pub enum Power {
    /// It does.
    On,
    /// It is over: the members that aren't missing had too few votes to write.
    Off,
    /// It is over: the power was cut.
    Dark,
    /// Nothing was heard of a transfer of the commit of a move, which is still out. The session can only be looked at and
    /// closed.
    Stuck,
}
