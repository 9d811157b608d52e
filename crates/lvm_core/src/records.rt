//! The records of a group that comes on, as bytes.
ghost use Rattle.std.specs.Prelude.{◌≡◌, IfOk};
ghost use Rattle.lvm_num.specs.Descriptor.{IsValid};
ghost use Rattle.lvm_num.specs.DescriptorBytes.{descriptor_bytes};
ghost use Rattle.lvm_num.specs.Status.{IsValidStatus};
ghost use Rattle.lvm_num.specs.StatusBytes.{status_bytes};

use lvm_num::{Memory, Rows};
use lvm_quorum::Choice;
use std::alloc::Global;

/// The bytes of a descriptor and of a status.
#[derive(Drop)]
pub struct RecordBytes {
    pub descriptor: Rows<u8>,
    pub status: Rows<u8>,
}

/// The bytes of the descriptor and of the status of a choice.
pub fn encode_records(alloc: Global, choice: &Choice) -> Result<RecordBytes, Memory>
    requires descriptor { IsValid choice.now.descriptor }
    requires status { IsValidStatus choice.now.status }
    ensures descriptor { IfOk result (λ bytes. bytes.descriptor ≡ descriptor_bytes choice.now.descriptor) }
    ensures status { IfOk result (λ bytes. bytes.status ≡ status_bytes choice.now.status) }
{
    let descriptor = lvm_vgda::encode(alloc, &choice.descriptor)?;
    let status = lvm_vgsa::encode(alloc, &choice.status)?;
    Ok(RecordBytes { descriptor, status })
}
