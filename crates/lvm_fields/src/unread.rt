//! The bytes that are still to read.
ghost use Rattle.std.specs.Prelude.{◌+◌, ◌<◌, ◌^◌, length};

/// The bytes that are still to read, and the place of the first of them.
#[derive(Clone, Copy)]
pub struct Unread<'a> {
    pub place: usize,
    pub bytes: &'a [u8],
    ghost within: { place + length bytes.now < 2 ^ 64 },
}
