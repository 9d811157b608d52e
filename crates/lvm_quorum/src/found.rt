//! The records that the bytes of slots hold.
ghost use Rattle.std.specs.Prelude.{◌≡◌, IfOk, IfSome};
ghost use Rattle.lvm_num.specs.declared.record.Kind.TheVariants as kind_is;
ghost use Rattle.lvm_num.specs.Descriptor.{IsValid};
ghost use Rattle.lvm_num.specs.DescriptorBytes.{descriptor_of};
ghost use Rattle.lvm_num.specs.Status.{IsValidStatus};
ghost use Rattle.lvm_num.specs.StatusBytes.{status_of};
ghost use Rattle.lvm_transfer.specs.passed.Rec.{held, stamped_found};

use lvm_num::{Descriptor, Memory, Status};
use lvm_transfer::below::{Found, Kind, read_slot};
use lvm_vgsa::below::Fault;
use std::alloc::Global;

/// The descriptor that the bytes of a slot hold.
pub fn descriptor_in(alloc: Global, bytes: &[u8]) -> Result<Option<Found<Descriptor>>, Memory>
    ensures held { IfOk result (λ found. stamped_found found ≡ held descriptor_of kind_is.Descriptor bytes.now) }
    ensures valid { IfOk result (λ found. IfSome found (λ it. IsValid it.value)) }
{
    let Some(framed) = read_slot(alloc, Kind::Descriptor, bytes)? else {
        return Ok(None);
    };
    let stamp = framed.stamp;
    match lvm_vgda::decode(alloc, framed.content.as_slice()) {
        Ok(value) => Ok(Some(Found { stamp, value })),
        Err(Fault::At(_)) => Ok(None),
        Err(Fault::Memory) => Err(Memory),
    }
}

/// The status that the bytes of a slot hold.
pub fn status_in(alloc: Global, bytes: &[u8]) -> Result<Option<Found<Status>>, Memory>
    ensures held { IfOk result (λ found. stamped_found found ≡ held status_of kind_is.Status bytes.now) }
    ensures valid { IfOk result (λ found. IfSome found (λ it. IsValidStatus it.value)) }
{
    let Some(framed) = read_slot(alloc, Kind::Status, bytes)? else {
        return Ok(None);
    };
    let stamp = framed.stamp;
    match lvm_vgsa::decode(alloc, framed.content.as_slice()) {
        Ok(value) => Ok(Some(Found { stamp, value })),
        Err(Fault::At(_)) => Ok(None),
        Err(Fault::Memory) => Err(Memory),
    }
}
