// Disks in memory on which a group stands.
ghost use Rattle.std.specs.Prelude.{◌≡◌, ◌%◌, length, All, IsTrue};
ghost use Rattle.lvm_disk.specs.Device.{IsReady};
ghost use Rattle.lvm_memory.specs.Memory.{device_of};

use crate::tests::outside::{check, run};
use lvm_disk::Shelf;
use lvm_memory::{MemShelf, Planned, names_disks};
use lvm_num::Rows;
use std::process::Abort;
use std::sync::Wait;
use std::thread::Threads;

// How many writes a shelf tells by their ranges.
const LOG: u32 = 1_024;

// Disks of zeros, of these numbers of sectors.
fn blank(rt: &(impl Abort + AllocGlobal), sectors: &[u64]) -> MemShelf
    ensures { IsReady (device_of result) }
{
    let alloc = rt.alloc();
    check(
        rt,
        !sectors.is_empty() && sectors.len() <= 128,
        "1 to 128 disks",
    );
    MemShelf::new(alloc, sectors, Rows::empty(alloc), LOG).expect(rt, "disks")
}

fn images_of(rt: &(impl Abort + AllocGlobal), shelf: &MemShelf) -> Vec<Rows<u8>> {
    let alloc = rt.alloc();
    let mut images = Vec::new(alloc);
    for disk in 0..shelf.disks() {
        let image = shelf.image(alloc, disk).expect(rt, "an image");
        images.push(Rows::new(image)).expect(rt, "a place");
    }
    images
}

fn are_whole(images: &[Rows<u8>]) -> bool
    ensures { IsTrue result → All (λ bytes. length bytes % 512 ≡ 0) images.now }
{
    images.iter().all(|bytes| bytes.len() % 512 == 0)
}

/// The disks as they stand, started again: none is failing, and calls are counted from 1.
pub fn restarted(rt: &(impl Abort + AllocGlobal), shelf: &MemShelf, plan: &[Planned]) -> MemShelf
    ensures { IsReady (device_of result) }
{
    let alloc = rt.alloc();
    let images = images_of(rt, shelf);
    check(
        rt,
        !images.is_empty() && images.len() <= 128,
        "1 to 128 disks",
    );
    check(rt, are_whole(&images), "whole sectors");
    let plan = Vec::from_slice(alloc, plan).expect(rt, "a plan");
    check(
        rt,
        names_disks(&plan, images.len() as u16),
        "a plan of these disks",
    );
    MemShelf::from_images(alloc, Rows::new(images), Rows::new(plan), LOG).expect(rt, "disks")
}

/// Disks of these numbers of sectors as a script leaves them that ends well, started again.
pub fn scripted(
    rt: &(impl Abort + AllocGlobal + Threads + Wait + Sync),
    sectors: &[u64],
    script: &[u8],
    plan: &[Planned],
) -> MemShelf
    ensures { IsReady (device_of result) }
{
    let left = run(rt, &["script"], script, 1, blank(rt, sectors));
    check(rt, left.status == 0, "the script");
    restarted(rt, &left.files, plan)
}
