//! Bits of a list of bytes, by which partitions are marked.
ghost use Rattle.std.specs.Prelude.{◌≡◌, ℕ, ◌*◌, ◌<◌, ◌==◌, ◌||◌, ◌&&◌, not, length};
ghost use Rattle.lvm_num.specs.Bits.{has_bit};

/// Whether a bit is set: that of value `2^(bit mod 8)` in byte `bit / 8`.
pub fn has_bit(bits: &[u8], bit: usize) -> bool
    requires { bit < 8 * length bits.now }
    ensures { result ≡ has_bit bits.now bit }
{
    bits[bit / 8] >> (bit % 8) & 1 == 1
}

/// Sets a bit.
pub fn set_bit(bits: &mut [u8], bit: usize)
    requires { bit < 8 * length bits.old }
    ensures { (k : ℕ) → has_bit bits.new k ≡ (has_bit bits.old k || k == bit) }
{
    bits[bit / 8] |= 1 << (bit % 8);
}

/// Clears a bit.
pub fn clear_bit(bits: &mut [u8], bit: usize)
    requires { bit < 8 * length bits.old }
    ensures { (k : ℕ) → has_bit bits.new k ≡ (has_bit bits.old k && not (k == bit)) }
{
    bits[bit / 8] &= !(1 << (bit % 8));
}
