//! A buffer of 256 sectors, which moves from hand to hand.
ghost use Rattle.std.specs.Prelude.{true, ◌≡◌, ◌*◌, ◌<◌, ◌≤◌, length, take, IfOk, slice_get, slice_set, replicate};
ghost use Rattle.std.specs.List.{flat_map};
ghost use Rattle.lvm_num.specs.Buffer.{zero_sector};

use crate::{BUFFER_SECTORS, Memory};
use std::alloc::Global;
use std::marker::Model;

/// A numbered buffer of 256 sectors of 512 bytes. Contracts see its number and the list of its sectors.
#[derive(Drop)]
pub struct Pbuf {
    number: u32,
    sectors: Vec<[u8; 512]>,
}

impl Model for Pbuf {
    ghost use Rattle.std.specs.Prelude.{◌≡◌, length};
    ghost use Rattle.lvm_num.specs.Buffer.{Buffer};

    ghost Value = { Buffer };

    ghost view = { λ b. record { number = b.number; sectors = b.sectors.items } };

    ghost invariant = { λ b. length b.sectors.items ≡ 256 };
}

impl Pbuf {
    /// A buffer of 256 sectors of zeros.
    pub fn fresh(alloc: Global, number: u32) -> Result<Pbuf, Memory>
        ensures { IfOk result (λ buf. buf ≡ record { number = number; sectors = replicate 256 zero_sector }) }
    {
        let mut sectors = Vec::new(alloc);
        sectors.resize(BUFFER_SECTORS as usize, [0; 512])?;
        Ok(Pbuf { number, sectors })
    }

    /// The number with which it was made.
    pub fn number(&self) -> u32
        ensures { result ≡ self.now.number }
    {
        self.number
    }

    /// Its sector `k`, from 0.
    pub fn sector(&self, k: u32) -> &[u8; 512]
        requires { k < 256 }
        ensures { slice_get self.now.sectors k ≡ Some result.now }
    {
        &self.sectors[k as usize]
    }

    /// Always true: it has 256 sectors, whatever was put into them.
    pub fn is_whole(&self) -> bool
        ensures always { result ≡ true }
        ensures length { length self.now.sectors ≡ 256 }
    {
        self.sectors.len() == BUFFER_SECTORS as usize
    }

    /// Puts 512 bytes into its sector `k`, from 0.
    pub fn set_sector(&mut self, k: u32, from: &[u8; 512])
        requires { k < 256 }
        ensures set { self.new ≡ record self.old { sectors = slice_set self.old.sectors k from.now } }
        ensures length { length self.old.sectors ≡ 256 }
    {
        self.sectors[k as usize] = *from;
    }

    /// The bytes of its first `count` sectors.
    pub fn front(&self, count: u32) -> &[u8]
        requires { count ≤ 256 }
        ensures bytes { result.now ≡ flat_map (λ sector. sector) (take count self.now.sectors) }
        ensures size { length result.now ≡ 512 * count }
    {
        self.sectors[..count as usize].as_flattened()
    }
}
