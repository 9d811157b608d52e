//! What the words of the command line may ask for.

use lvm_num::Name;

/// What the words of the command line ask for.
#[derive(Clone, Copy, PartialEq, Eq)]
pub enum Job {
    /// `script`: a script over the image files of the current folder.
    Script,
    /// `sim DISKS MIB`: a script over so many disks of zeros in memory, 1 to 32, each of so many MiB, 1
    /// to 64.
    Sim {
        disks: u16,
        mib: u32,
    },
    /// `gen SEED COUNT`: a script of so many reads and writes, at most 100,000, which are drawn from the seed.
    Gen {
        seed: u64,
        count: u32,
    },
    /// `weave DISKS MIB CLIENTS REQUESTS SEED`: a workload of so many clients, 1 to 64, and so many requests, at most 50,000,
    /// which are drawn from the seed, over a group of so many disks of zeros in memory, 1 to 8, each of so many MiB, 8 to
    /// 64.
    Weave {
        disks: u16,
        mib: u32,
        clients: u32,
        requests: u32,
        seed: u64,
    },
    /// `load [--own] [--sync] GROUP VOLUME THREADS REQUESTS SEED`: so many reads and writes, at most 50,000, of a volume of a group
    /// on the image files of the current folder, by so many threads, 1 to 128, which are drawn from the seed. With `--own` each
    /// thread only writes, and to a track group of its own. With `--sync` one thread more brings up the volume's stale copies.
    /// Each stands anywhere behind `load`, at most once.
    Load {
        own: bool,
        sync: bool,
        group: Name,
        volume: Name,
        threads: u32,
        requests: u32,
        seed: u64,
    },
    /// `image N MIB`: a new image file for disk N, 0 to 127, of so many MiB of zeros, 1 to 4,096.
    Image {
        disk: u16,
        mib: u32,
    },
    /// `--help`: how the words go.
    Help,
    /// `--version`: which program this is.
    Version,
}
