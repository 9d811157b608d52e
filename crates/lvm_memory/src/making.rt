//! Disks are made one after another.
ghost use Rattle.std.specs.Prelude.{◌≡◌, ◌++◌, [], ◌∷◌, map, IfOk, OnOk};
ghost use Rattle.lvm_disk.specs.Device.{AreSectors};
ghost use Rattle.lvm_memory.specs.Media.{AllSectors, media_of, sizes_of, blank_disks_of, sectors_in};

use crate::disk::Disk;
use lvm_num::{Memory, Rows};
use std::alloc::Global;

/// Disks of zeros, of these numbers of sectors.
pub fn blank_disks(alloc: Global, sizes: &[u64]) -> Result<Vec<Disk>, Memory>
    ensures disks { IfOk result (λ disks. disks.items ≡ blank_disks_of sizes.now) }
    ensures sectors { IfOk result (λ disks. AreSectors (sizes_of disks.items) (media_of disks.items)) }
{
    let mut disks = Vec::new(alloc);
    for count in sizes {
        push_disk(&mut disks, Disk::zeros(alloc, *count)?)?;
    }
    Ok(disks)
}

/// Disks with these contents: the whole sectors of each.
pub fn image_disks(alloc: Global, images: &[Rows<u8>]) -> Result<Vec<Disk>, Memory>
    ensures disks { IfOk result (λ disks. disks.items ≡ map sectors_in images.now) }
    ensures sectors { IfOk result (λ disks. AreSectors (sizes_of disks.items) (media_of disks.items)) }
{
    let mut disks = Vec::new(alloc);
    for image in images {
        push_disk(&mut disks, Disk::of_bytes(alloc, image.as_slice())?)?;
    }
    Ok(disks)
}

// Puts a disk behind others.
fn push_disk(disks: &mut Vec<Disk>, disk: Disk) -> Result<(), Memory>
    requires disk { AllSectors disk }
    requires sectors { AreSectors (sizes_of disks.old.items) (media_of disks.old.items) }
    ensures pushed { OnOk result (disks.new.items ≡ disks.old.items ++ disk ∷ []) }
    ensures sectors { OnOk result (AreSectors (sizes_of disks.new.items) (media_of disks.new.items)) }
{
    let Ok(()) = disks.push(disk) else {
        return Err(Memory);
    };
    Ok(())
}
