//! Files that a program has for itself.

use std::fs::File;
use std::io;

/// A file, or a folder, that one program at a time may have for itself.
pub trait Exclusive {
    /// Locks it for this program, and never waits. The lock ends with the open file, however the program
    /// ends. Where another program has it locked, the error is of the kind `WouldBlock`.
    fn try_exclusive(&self) -> io::Result<()>;
}

impl Exclusive for File {
    fn try_exclusive(&self) -> io::Result<()> {
        self.try_lock()?;
        Ok(())
    }
}
