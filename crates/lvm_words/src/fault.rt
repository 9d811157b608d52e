//! Why the words of the command line were not read.

/// Why words were not read.
#[derive(Clone, Copy, PartialEq, Eq)]
pub enum WordsFault {
    /// They are not in the language of the command line.
    Usage,
    /// No memory was found for them.
    Memory,
}
