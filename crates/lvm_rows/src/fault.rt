//! Why the cases end early.

use hex::FromHexError;
use lvm_io::SinkFault;
use lvm_num::Memory;
use std::alloc::{AllocError, AllocFailed};
use std::fmt;
use std::num::{ParseIntError, TryFromIntError};

#[derive(Clone, Copy)]
pub enum Fault {
    /// The line isn't one of a case, or names what the case doesn't have.
    Line,
    Memory,
    Sink,
}

impl fmt::Display for Fault {
    fn fmt<W: fmt::Write>(&self, f: &mut fmt::Formatter<W>) -> fmt::Result {
        f.write_str(match self {
            Fault::Line => "no line of a case",
            Fault::Memory => "memory ran out",
            Fault::Sink => "the output failed",
        })
    }
}

impl From<ParseIntError> for Fault {
    fn from(_bad: ParseIntError) -> Fault {
        Fault::Line
    }
}

impl From<TryFromIntError> for Fault {
    fn from(_large: TryFromIntError) -> Fault {
        Fault::Line
    }
}

impl From<FromHexError> for Fault {
    fn from(bad: FromHexError) -> Fault {
        match bad {
            FromHexError::OutOfMemory => Fault::Memory,
            _ => Fault::Line,
        }
    }
}

impl From<Memory> for Fault {
    fn from(_wanting: Memory) -> Fault {
        Fault::Memory
    }
}

impl From<AllocError> for Fault {
    fn from(_refused: AllocError) -> Fault {
        Fault::Memory
    }
}

impl<T: Drop> From<AllocFailed<T>> for Fault {
    fn from(_refused: AllocFailed<T>) -> Fault {
        Fault::Memory
    }
}

impl From<SinkFault> for Fault {
    fn from(_failed: SinkFault) -> Fault {
        Fault::Sink
    }
}
