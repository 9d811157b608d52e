//! The types, numbers and buffers that every layer shares.
#![tactic(auto)]

use std::alloc::{AllocError, AllocFailed};

mod bits;
mod clones;
mod descriptor;
mod disks;
mod listed;
mod name;
mod numbers;
mod pbuf;
mod place;
mod record;
mod rows;
mod sizes;
mod status;
mod text;
mod valid;
mod word;

pub use bits::{clear_bit, has_bit, set_bit};
pub use clones::{clone_descriptor, clone_status, clone_volume, clone_volumes, with_volumes};
pub use descriptor::{Descriptor, LvRow, Mode, Policy, PvRow};
pub use disks::{DISKS, DiskSet};
pub use listed::{copies_of, has_member, has_partition_on, volume_among, volume_of};
pub use name::Name;
pub use numbers::VolumeNumbers;
pub use pbuf::Pbuf;
pub use place::{Place, Pp};
pub use record::{Framed, Kind, NoteEntry, Stamp};
pub use rows::Rows;
pub use sizes::{
    BLOCK_BYTES, BUFFER_BYTES, BUFFER_SECTORS, DATA_START, MIB_BLOCKS, MOST_COPIES,
    MOST_PARTITIONS, PARTITION_SIZES, SCRIPT_CLIENT, TRACK_GROUP,
};
pub use status::{Status, StatusRow};
pub use text::Text;
pub use word::{fill, word_of};

/// Want of memory: a growth was refused.
#[derive(Clone, Copy, Debug, PartialEq, Eq)]
pub struct Memory;

impl From<AllocError> for Memory {
    fn from(_refused: AllocError) -> Memory {
        Memory
    }
}

impl<T: Drop> From<AllocFailed<T>> for Memory {
    fn from(_refused: AllocFailed<T>) -> Memory {
        Memory
    }
}
