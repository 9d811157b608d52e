//! A session beside its shelf.

use crate::bringing::OpenCopy;
use crate::flown::Flown;
use crate::open::{Open, Power};
use crate::origin::Origin;
use lvm_history::History;
use lvm_hold::Queue;
use lvm_kept::below::Homes;
use lvm_mwc::Cache;
use lvm_num::Descriptor;
use lvm_pbuf::Pool;
use lvm_status::Updater;

/// What a driver has beside its shelf.
#[derive(Drop)]
pub struct Session {
    /// The committed descriptor.
    pub descriptor: Descriptor,
    pub history: History,
    /// The requests that are open, by rising numbers.
    pub requests: Vec<Open>,
    /// How many may be.
    pub most: u32,
    /// Which requests and steps wait for which.
    pub queue: Queue,
    /// The copy that is being brought up.
    pub copy: Option<OpenCopy>,
    /// The transfer buffers.
    pub pool: Pool,
    /// Whose transfers are out, in the order of their starts.
    pub flying: Vec<Flown>,
    /// The committed status, the one in flight and the wanted one.
    pub updater: Updater,
    /// The track groups that may differ after a crash, and each disk's notes.
    pub cache: Cache,
    /// The slots to which the next records go.
    pub homes: Homes,
    /// For each number of a volume the copy at which its last read began, 0 before there was one.
    pub last: [u8; 512],
    pub origin: Origin,
    pub power: Power,
    /// Room for the bytes of a status.
    pub bytes: Vec<u8>,
}
