//! Sizes that every layer shares, and the client of a script. A block of a volume and a sector of a disk are 512 bytes.

/// The bytes of a block, and of a sector.
pub const BLOCK_BYTES: usize = 512;

/// The sectors of a buffer, and so the most that one transfer moves.
pub const BUFFER_SECTORS: u32 = 256;

/// The bytes of a buffer.
pub const BUFFER_BYTES: usize = 131_072;

/// The blocks of a track group: what one entry of a mirror write consistency note names.
pub const TRACK_GROUP: u32 = 256;

/// The first sector of a disk's data; below it stand the records.
pub const DATA_START: u64 = 4096;

/// The blocks of one MiB, in which partitions are measured.
pub const MIB_BLOCKS: u64 = 2048;

/// The most physical partitions that a member may have.
pub const MOST_PARTITIONS: u16 = 1016;

/// The most copies that a logical partition may have.
pub const MOST_COPIES: u8 = 3;

/// The sizes that a partition may have, in MiB.
pub const PARTITION_SIZES: [u16; 11] = [1, 2, 4, 8, 16, 32, 64, 128, 256, 512, 1024];

/// The client for which the requests of a script are made.
pub const SCRIPT_CLIENT: u32 = 1;
