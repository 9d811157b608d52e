//! What is refused of a new group before any disk is read, and how large its partitions are.
ghost use Rattle.std.specs.Prelude.{◌≡◌, ◌<◌, ◌-◌, ◌/◌, find, IfOk, IfErr, IsTrue};
ghost use Rattle.std.specs.Option.{ForSome};
ghost use Rattle.lvm_num.specs.Descriptor.{is_size};
ghost use Rattle.lvm_num.specs.Geometry.{data_start, partition_blocks, partition_count};
ghost use Rattle.lvm_group.specs.NewGroup.{most_sectors, least_size, size_for, first_absent, first_too_small, MayMakeGroup, RefusesFirst};

use lvm_core::Cause;
use lvm_disk::Shelf;
use lvm_num::{DATA_START, MIB_BLOCKS, MOST_PARTITIONS, PARTITION_SIZES};

// The most partitions of a member.
const MOST: u64 = MOST_PARTITIONS as u64;

// The most members of a group that isn't big.
const MOST_MEMBERS: u32 = 32;

// The last of them.
const LARGEST: u16 = 1024;

/// Whether a new group of these disks can be begun, with so many entries to spare; and if so of how many MiB its
/// partitions are.
pub fn size_to_begin<S: Shelf>(
    shelf: &S,
    spare: u32,
    disks: &[u16],
    given: Option<u16>,
) -> Result<u16, Cause>
    requires size { ForSome given (λ mib. IsTrue (is_size mib)) }
    ensures size { IfOk result (λ mib. mib ≡ size_for (S.device shelf.now).sizes disks.now given) }
    ensures is_size { IfOk result (λ mib. IsTrue (is_size mib)) }
    ensures may { IfOk result (λ mib. MayMakeGroup (S.device shelf.now).sizes spare disks.now given) }
    ensures refused { IfErr result (λ cause. RefusesFirst (S.device shelf.now).sizes spare disks.now given cause) }
{
    if let Some(disk) = first_absent(shelf, disks) {
        return Err(Cause::NoDisk { disk });
    }
    if disks.len() > MOST_MEMBERS as usize {
        return Err(Cause::TooMany {
            limit: MOST_MEMBERS,
        });
    }
    let mib = size_for(shelf, disks, given);
    if let Some(disk) = first_too_small(shelf, mib, disks) {
        return Err(Cause::TooSmall { disk });
    }
    if (spare as usize) < disks.len() + 1 {
        return Err(Cause::HistoryFull);
    }
    Ok(mib)
}

// The first disk that isn't there.
fn first_absent<S: Shelf>(shelf: &S, disks: &[u16]) -> Option<u16>
    ensures { result ≡ first_absent (S.device shelf.now).sizes disks.now }
{
    let count = shelf.disks();
    disks.iter().copied().find(|disk| *disk >= count)
}

// The size that is given, or the one that fits the largest of the disks.
fn size_for<S: Shelf>(shelf: &S, disks: &[u16], given: Option<u16>) -> u16
    requires there { first_absent (S.device shelf.now).sizes disks.now ≡ None }
    requires size { ForSome given (λ mib. IsTrue (is_size mib)) }
    ensures size { result ≡ size_for (S.device shelf.now).sizes disks.now given }
    ensures is_size { IsTrue (is_size result) }
{
    match given {
        Some(mib) => mib,
        None => least_size(most_sectors(shelf, disks)),
    }
}

// The sectors of the largest of the disks.
fn most_sectors<S: Shelf>(shelf: &S, disks: &[u16]) -> u64
    requires there { first_absent (S.device shelf.now).sizes disks.now ≡ None }
    ensures { result ≡ most_sectors (S.device shelf.now).sizes disks.now }
{
    let mut most: u64 = 0;
    for disk in disks {
        most = most.max(shelf.sectors(*disk));
    }
    most
}

// The least size of which a disk of so many sectors has no more partitions than a member may have.
fn least_size(sectors: u64) -> u16
    ensures least { result ≡ least_size sectors }
    ensures size { IsTrue (is_size result) }
{
    for mib in &PARTITION_SIZES {
        if room_for(sectors, *mib) <= MOST {
            return *mib;
        }
    }
    LARGEST
}

// For how many partitions a disk of so many sectors has room.
fn room_for(sectors: u64, mib: u16) -> u64
    requires { IsTrue (is_size mib) }
    ensures { result ≡ (sectors - data_start) / partition_blocks mib }
{
    sectors.saturating_sub(DATA_START) / (MIB_BLOCKS * u64::from(mib))
}

/// How many partitions a disk of so many sectors has as a member.
pub fn partitions_on(sectors: u64, mib: u16) -> u16
    requires { IsTrue (is_size mib) }
    ensures { result ≡ partition_count sectors mib }
{
    room_for(sectors, mib).min(MOST) as u16
}

// The first disk on which no partition fits.
fn first_too_small<S: Shelf>(shelf: &S, mib: u16, disks: &[u16]) -> Option<u16>
    requires there { first_absent (S.device shelf.now).sizes disks.now ≡ None }
    requires size { IsTrue (is_size mib) }
    ensures { result ≡ first_too_small (S.device shelf.now).sizes mib disks.now }
{
    for disk in disks {
        if partitions_on(shelf.sectors(*disk), mib) == 0 {
            return Some(*disk);
        }
    }
    None
}
