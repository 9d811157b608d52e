//! Disks in memory with plans of faults, and what calls on records want of them. What is made is None where memory runs out.
ghost use Rattle.std.specs.Prelude.{◌≡◌, ◌%◌, ◌<◌, ◌≤◌, ℕ, length, IsTrue, IfSome};
ghost use Rattle.std.specs.List.{All};
ghost use Rattle.lvm_num.specs.Disks.{has};
ghost use Rattle.lvm_write.specs.Written.{HasRoom};

use lvm_disk::Shelf;
use lvm_memory::{MemShelf, Planned, names_disks};
use lvm_num::{DiskSet, Rows};
use std::alloc::Global;

/// A plan as a shelf takes it.
pub fn plan_of(alloc: Global, plan: &[Planned]) -> Option<Rows<Planned>>
    ensures { IfSome result (λ rows. rows ≡ plan.now) }
{
    let Ok(rows) = Vec::from_slice(alloc, plan) else {
        return None;
    };
    Some(Rows::new(rows))
}

/// Disks of zeros, of these numbers of sectors; `log` as `MemShelf::new` takes it. None too where a shelf can't have so
/// many disks, or the plan names another.
pub fn blank_shelf(alloc: Global, sizes: &[u64], plan: &[Planned], log: u32) -> Option<MemShelf> {
    if sizes.is_empty() || sizes.len() > 128 {
        return None;
    }
    if !names_disks(plan, sizes.len() as u16) {
        return None;
    }
    let Some(plan) = plan_of(alloc, plan) else {
        return None;
    };
    MemShelf::new(alloc, sizes, plan, log).ok()
}

/// Disks on which this stands; `log` as `MemShelf::new` takes it. None too where a shelf can't have these disks, or the
/// plan names another.
pub fn image_shelf(
    alloc: Global,
    images: Rows<Rows<u8>>,
    plan: &[Planned],
    log: u32,
) -> Option<MemShelf> {
    if images.is_empty() || images.len() > 128 {
        return None;
    }
    if !are_whole(images.as_slice()) || !names_disks(plan, images.len() as u16) {
        return None;
    }
    let Some(plan) = plan_of(alloc, plan) else {
        return None;
    };
    MemShelf::from_images(alloc, images, plan, log).ok()
}

fn are_whole(images: &[Rows<u8>]) -> bool
    ensures { IsTrue result → All (λ bytes. length bytes % 512 ≡ 0) images.now }
{
    images.iter().all(|bytes| bytes.len() % 512 == 0)
}

/// Whether each disk has room for records.
pub fn has_room<S: Shelf>(shelf: &S) -> bool
    ensures { IsTrue result → (d : ℕ) → d < length (S.device shelf.now).sizes → HasRoom (S.device shelf.now) d }
{
    for disk in 0..shelf.disks() {
        if shelf.sectors(disk) < 4096 {
            return false;
        }
    }
    true
}

/// The first so many disks.
pub fn all_disks(count: u16) -> DiskSet
    requires { count ≤ 128 }
    ensures { (d : ℕ) → IsTrue (has result d) → d < count }
{
    let mut disks = DiskSet::empty();
    for disk in 0..count {
        disks = disks.with(disk);
    }
    disks
}
