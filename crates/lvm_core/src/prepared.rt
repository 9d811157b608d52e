//! A descriptor that is ready to be committed.
use lvm_num::{Descriptor, Memory, Rows};
use std::alloc::Global;
use std::marker::Model;

/// A descriptor with the bytes of its record. Contracts see the descriptor.
#[derive(Drop)]
pub struct Prepared {
    descriptor: Descriptor,
    bytes: Rows<u8>,
}

impl Model for Prepared {
    ghost use Rattle.lvm_num.specs.declared.descriptor.Descriptor.{Descriptor};
    ghost use Rattle.lvm_core.specs.Preparing.{IsPrepared};

    ghost Value = { Descriptor };

    ghost view = { λ p. p.descriptor };

    ghost invariant = { λ p. IsPrepared p.descriptor p.bytes };
}

impl Prepared {
    ghost use Rattle.std.specs.Prelude.{◌≡◌, IfOk};
    ghost use Rattle.lvm_num.specs.Descriptor.{IsValid};
    ghost use Rattle.lvm_num.specs.DescriptorBytes.{descriptor_bytes};

    /// Takes the memory of its record.
    pub fn new(alloc: Global, descriptor: Descriptor) -> Result<Prepared, Memory>
        requires { IsValid descriptor }
        ensures { IfOk result (λ prepared. prepared ≡ descriptor) }
    {
        let bytes = lvm_vgda::encode(alloc, &descriptor)?;
        Ok(Prepared { descriptor, bytes })
    }

    /// The descriptor and the bytes.
    pub fn into_parts(self) -> (Descriptor, Rows<u8>)
        ensures descriptor { result.0 ≡ self }
        ensures bytes { result.1 ≡ descriptor_bytes self }
        ensures valid { IsValid self }
    {
        (self.descriptor, self.bytes)
    }
}
