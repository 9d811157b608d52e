//! Reading the records of a disk: two slots of each kind, and the note.
ghost use Rattle.std.specs.Prelude.{◌≡◌, ◌<◌, ◌≤◌, length, slice_index_or, IfSome, IfOk, OnOk};
ghost use Rattle.lvm_num.specs.declared.record.Kind.TheVariants as kind_is;
ghost use Rattle.lvm_num.specs.Descriptor.{IsValid};
ghost use Rattle.lvm_num.specs.DescriptorBytes.{descriptor_of};
ghost use Rattle.lvm_num.specs.Record.{joined};
ghost use Rattle.lvm_num.specs.Status.{IsValidStatus};
ghost use Rattle.lvm_num.specs.StatusBytes.{status_of};
ghost use Rattle.lvm_transfer.specs.passed.Rec.{stamped_found, held};
ghost use Rattle.lvm_transfer.specs.passed.Disk.{IsReady, image_of};
ghost use Rattle.lvm_transfer.specs.Reading.{only_buffer, IsInRecords, ReadsEnd, SectorsRead};
ghost use Rattle.lvm_quorum.specs.Reading.{descriptor_shown, AreaRead, IsArea, IsAreaValid, IsLatestOn, IsValidLatest, SlotsRead};

use crate::found::{descriptor_in, status_in};
use lvm_num::{BLOCK_BYTES, Descriptor, Memory, Pbuf, Status};
use lvm_transfer::below::{Found, Latest, Shelf, newest};
use lvm_transfer::{Extent, Patience, Stop, Unread, read_front, read_sectors};
use std::alloc::Global;

const NOTE: u64 = 8;

const FIRST_STATUS: u64 = 64;

const SECOND_STATUS: u64 = 128;

const STATUS_SECTORS: u32 = 64;

const FIRST_DESCRIPTOR: u64 = 512;

const SECOND_DESCRIPTOR: u64 = 1664;

/// The newest records of a disk, and the bytes of its note.
#[derive(Drop)]
pub struct RecordArea {
    pub descriptor: Latest<Descriptor>,
    pub status: Latest<Status>,
    pub note: [u8; 512],
}

/// Reads both slots of descriptors, both of statuses and the note of a disk, in pieces of 256 sectors.
/// After a read that failed the rest is left out.
pub fn read_area<S: Shelf>(
    alloc: Global,
    shelf: &mut S,
    disk: u16,
    buf: Pbuf,
    patience: &mut Patience,
) -> Result<(RecordArea, Pbuf), Unread>
    requires ready { IsReady (S.device shelf.old) }
    requires there { disk < length (S.device shelf.old).sizes }
    requires large { 4096 ≤ slice_index_or (S.device shelf.old).sizes disk 0 }
    ensures reads { ReadsEnd disk buf.number patience.old.left patience.new.left (S.device shelf.old) (S.device shelf.new) (only_buffer result) }
    ensures whole { OnOk result (AreaRead disk (S.device shelf.old) (S.device shelf.new)) }
    ensures area { IfOk result (λ got. IfSome (S.device shelf.old).media (λ media. IsArea (media disk) got.0)) }
    ensures valid { IfOk result (λ got. IsAreaValid got.0) }
{
    let (descriptor, buf) = read_descriptors(alloc, shelf, disk, buf, patience)?;
    let (status, buf) = read_statuses(alloc, shelf, disk, buf, patience)?;
    let (note, buf) = read_note(alloc, shelf, disk, buf, patience)?;
    let area = RecordArea {
        descriptor,
        status,
        note,
    };
    Ok((area, buf))
}

/// Reads the two slots of descriptors of a disk, by 10 reads of at most 256 sectors, and answers the newest
/// descriptor that the disk shows. After a failed read the rest is left out. No write is started. The buffer is
/// used for each read.
pub fn read_descriptor<S: Shelf>(
    alloc: Global,
    shelf: &mut S,
    disk: u16,
    buf: Pbuf,
    patience: &mut Patience,
) -> Result<(Option<Descriptor>, Pbuf), Unread>
    requires ready { IsReady (S.device shelf.old) }
    requires there { disk < length (S.device shelf.old).sizes }
    requires large { 4096 ≤ slice_index_or (S.device shelf.old).sizes disk 0 }
    ensures whole { OnOk result (SlotsRead kind_is.Descriptor disk (S.device shelf.old) (S.device shelf.new)) }
    ensures shown { IfOk result (λ got. IfSome (S.device shelf.old).media (λ media. got.0 ≡ descriptor_shown (image_of (S.device shelf.old).sizes media) disk)) }
    ensures valid { IfOk result (λ got. IfSome got.0 IsValid) }
    ensures reads { ReadsEnd disk buf.number patience.old.left patience.new.left (S.device shelf.old) (S.device shelf.new) (only_buffer result) }
{
    let (latest, back) = read_descriptors(alloc, shelf, disk, buf, patience)?;
    Ok((latest.value, back))
}

// Reads both slots of descriptors of a disk, one after the other, and answers the newest descriptor.
fn read_descriptors<S: Shelf>(
    alloc: Global,
    shelf: &mut S,
    disk: u16,
    buf: Pbuf,
    patience: &mut Patience,
) -> Result<(Latest<Descriptor>, Pbuf), Unread>
    requires ready { IsReady (S.device shelf.old) }
    requires there { disk < length (S.device shelf.old).sizes }
    requires large { 4096 ≤ slice_index_or (S.device shelf.old).sizes disk 0 }
    ensures reads { ReadsEnd disk buf.number patience.old.left patience.new.left (S.device shelf.old) (S.device shelf.new) (only_buffer result) }
    ensures whole { OnOk result (SlotsRead kind_is.Descriptor disk (S.device shelf.old) (S.device shelf.new)) }
    ensures newest { IfOk result (λ got. IfSome (S.device shelf.old).media (λ media. IsLatestOn descriptor_of kind_is.Descriptor (media disk) got.0)) }
    ensures valid { IfOk result (λ got. IsValidLatest IsValid got.0) }
{
    let (first, buf) = read_descriptor_slot(alloc, shelf, disk, FIRST_DESCRIPTOR, buf, patience)?;
    let (second, buf) = read_descriptor_slot(alloc, shelf, disk, SECOND_DESCRIPTOR, buf, patience)?;
    Ok((newest(first, second), buf))
}

// The same of statuses.
fn read_statuses<S: Shelf>(
    alloc: Global,
    shelf: &mut S,
    disk: u16,
    buf: Pbuf,
    patience: &mut Patience,
) -> Result<(Latest<Status>, Pbuf), Unread>
    requires ready { IsReady (S.device shelf.old) }
    requires there { disk < length (S.device shelf.old).sizes }
    requires large { 4096 ≤ slice_index_or (S.device shelf.old).sizes disk 0 }
    ensures reads { ReadsEnd disk buf.number patience.old.left patience.new.left (S.device shelf.old) (S.device shelf.new) (only_buffer result) }
    ensures whole { OnOk result (SlotsRead kind_is.Status disk (S.device shelf.old) (S.device shelf.new)) }
    ensures newest { IfOk result (λ got. IfSome (S.device shelf.old).media (λ media. IsLatestOn status_of kind_is.Status (media disk) got.0)) }
    ensures valid { IfOk result (λ got. IsValidLatest IsValidStatus got.0) }
{
    let (first, buf) = read_status_slot(alloc, shelf, disk, FIRST_STATUS, buf, patience)?;
    let (second, buf) = read_status_slot(alloc, shelf, disk, SECOND_STATUS, buf, patience)?;
    Ok((newest(first, second), buf))
}

// Reads a slot of descriptors of a disk, and answers the descriptor that it holds. The bytes are given back before
// the next slot is read.
fn read_descriptor_slot<S: Shelf>(
    alloc: Global,
    shelf: &mut S,
    disk: u16,
    first: u64,
    buf: Pbuf,
    patience: &mut Patience,
) -> Result<(Option<Found<Descriptor>>, Pbuf), Unread>
    requires ready { IsReady (S.device shelf.old) }
    requires inside { IsInRecords (S.device shelf.old) disk first 1152 }
    ensures reads { ReadsEnd disk buf.number patience.old.left patience.new.left (S.device shelf.old) (S.device shelf.new) (only_buffer result) }
    ensures whole { OnOk result (SectorsRead disk first 1152 (S.device shelf.old) (S.device shelf.new)) }
    ensures held { IfOk result (λ got. IfSome (S.device shelf.old).media (λ media. stamped_found got.0 ≡ held descriptor_of kind_is.Descriptor (joined (media disk) first 1152))) }
    ensures valid { IfOk result (λ got. IfSome got.0 (λ it. IsValid it.value)) }
{
    let (bytes, back) = read_front(alloc, shelf, disk, first, buf, patience)?;
    match descriptor_in(alloc, &bytes) {
        Ok(found) => Ok((found, back)),
        Err(Memory) => Err(Unread::Stopped(Stop::Memory(back))),
    }
}

// Reads a slot of statuses of a disk, and answers the status that it holds.
fn read_status_slot<S: Shelf>(
    alloc: Global,
    shelf: &mut S,
    disk: u16,
    first: u64,
    buf: Pbuf,
    patience: &mut Patience,
) -> Result<(Option<Found<Status>>, Pbuf), Unread>
    requires ready { IsReady (S.device shelf.old) }
    requires inside { IsInRecords (S.device shelf.old) disk first 64 }
    ensures reads { ReadsEnd disk buf.number patience.old.left patience.new.left (S.device shelf.old) (S.device shelf.new) (only_buffer result) }
    ensures whole { OnOk result (SectorsRead disk first 64 (S.device shelf.old) (S.device shelf.new)) }
    ensures held { IfOk result (λ got. IfSome (S.device shelf.old).media (λ media. stamped_found got.0 ≡ held status_of kind_is.Status (joined (media disk) first 64))) }
    ensures valid { IfOk result (λ got. IfSome got.0 (λ it. IsValidStatus it.value)) }
{
    let extent = Extent {
        disk,
        first,
        count: STATUS_SECTORS,
        keep: STATUS_SECTORS,
    };
    let (bytes, back) = read_sectors(alloc, shelf, extent, buf, patience)?;
    match status_in(alloc, &bytes) {
        Ok(found) => Ok((found, back)),
        Err(Memory) => Err(Unread::Stopped(Stop::Memory(back))),
    }
}

// Reads the note of a disk.
fn read_note<S: Shelf>(
    alloc: Global,
    shelf: &mut S,
    disk: u16,
    buf: Pbuf,
    patience: &mut Patience,
) -> Result<([u8; 512], Pbuf), Unread>
    requires ready { IsReady (S.device shelf.old) }
    requires inside { IsInRecords (S.device shelf.old) disk 8 1 }
    ensures reads { ReadsEnd disk buf.number patience.old.left patience.new.left (S.device shelf.old) (S.device shelf.new) (only_buffer result) }
    ensures whole { OnOk result (SectorsRead disk 8 1 (S.device shelf.old) (S.device shelf.new)) }
    ensures note { IfOk result (λ got. IfSome (S.device shelf.old).media (λ media. got.0 ≡ media disk 8)) }
{
    let extent = Extent {
        disk,
        first: NOTE,
        count: 1,
        keep: 1,
    };
    let (bytes, back) = read_sectors(alloc, shelf, extent, buf, patience)?;
    let mut note = [0; BLOCK_BYTES];
    note.copy_from_slice(&bytes);
    Ok((note, back))
}
