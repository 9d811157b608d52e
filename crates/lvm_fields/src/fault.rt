//! Why no field was read.

ghost use Rattle.std.specs.Prelude.{◌≡◌};
ghost use Rattle.lvm_fields.specs.declared.fault.Fault.TheVariants as faults;

use lvm_num::Memory;
use std::alloc::{AllocError, AllocFailed};

/// Why no field was read.
#[derive(Clone, Copy, Debug, Drop)]
pub enum Fault {
    /// The bytes don't fit from this place on: that of the first byte of a field whose rule fails, that behind
    /// the last byte where the bytes end too early, or that of the first byte too many where more follow.
    At(usize),
    /// Want of memory: a growth was refused.
    Memory,
}

impl From<Memory> for Fault {
    ghost from_gives = { λ _ e. e ≡ faults.Memory };

    fn from(_refused: Memory) -> Fault {
        Fault::Memory
    }
}

impl From<AllocError> for Fault {
    ghost from_gives = { λ _ e. e ≡ faults.Memory };

    fn from(_refused: AllocError) -> Fault {
        Fault::Memory
    }
}

impl<T: Drop> From<AllocFailed<T>> for Fault {
    ghost from_gives = { λ _ e. e ≡ faults.Memory };

    fn from(_refused: AllocFailed<T>) -> Fault {
        Fault::Memory
    }
}
