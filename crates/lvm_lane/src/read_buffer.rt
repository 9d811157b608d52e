//! Room for what a transfer reads.
ghost use Rattle.std.specs.Prelude.{◌≡◌, ◌<◌, ◌≤◌, ◌*◌, length, replicate, [], IfOk, slice_index_or};
ghost use Rattle.std.specs.Simd.{first_chunks};

use lvm_num::{BUFFER_BYTES, Memory};
use std::alloc::Global;
use std::io;
use std::io::Read;
use std::marker::Model;

/// Room for the 256 sectors that a transfer has at most. Contracts see its bytes.
#[derive(Drop)]
pub struct ReadBuffer {
    bytes: Vec<u8>,
}

impl Model for ReadBuffer {
    ghost use Rattle.std.specs.Prelude.{◌≡◌, ℕ, List, length};

    ghost Value = { List ℕ };

    ghost view = { λ b. b.bytes.items };

    ghost invariant = { λ b. length b.bytes.items ≡ 131072 };
}

// Reads the next bytes of a file to the front of these.
fn read_bytes<F: Read>(bytes: &mut [u8], file: &mut F, count: usize) -> io::Result<()>
    requires { count ≤ length bytes.old }
{
    file.read_exact(&mut bytes[..count])
}

impl ReadBuffer {
    /// Room full of zeros.
    pub fn new(alloc: Global) -> Result<ReadBuffer, Memory>
        ensures { IfOk result (λ room. room ≡ replicate 131072 0) }
    {
        match vec![in alloc; 0; BUFFER_BYTES] {
            Ok(bytes) => Ok(ReadBuffer { bytes }),
            Err(_) => Err(Memory),
        }
    }

    /// Reads the next `count` sectors of a file to its front.
    pub(crate) fn read_front<F: Read>(&mut self, file: &mut F, count: u32) -> io::Result<()>
        requires { count ≤ 256 }
    {
        read_bytes(&mut self.bytes, file, 512 * count as usize)
    }

    /// Its sector `k`, from 0.
    pub(crate) fn sector(&self, k: u32) -> &[u8; 512]
        requires { k < 256 }
        ensures { result.now ≡ slice_index_or (first_chunks 512 256 self.now) k [] }
    {
        &self.bytes.as_chunks::<512>().0[k as usize]
    }
}
