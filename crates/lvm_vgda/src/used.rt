//! Which partitions volumes have.
ghost use Rattle.std.specs.Prelude.{◌≡◌, ℕ, ◌+◌, ◌*◌, ◌<◌, ◌||◌, false};
ghost use Rattle.lvm_num.specs.Bits.{has_bit};
ghost use Rattle.lvm_num.specs.DescriptorBytes.{is_at};
ghost use Rattle.lvm_vgda.specs.Used.{has};

use lvm_num::{DISKS, MOST_PARTITIONS, Pp, has_bit, set_bit};

const MARKS: usize = DISKS as usize * MOST_PARTITIONS as usize / 8;

/// A set of partitions of the disks 0 to 127 with 1,016 partitions each.
#[derive(Drop)]
pub struct UsedPps {
    marks: [u8; 16256],
}

impl UsedPps {
    /// No partitions.
    pub fn none() -> UsedPps
        ensures { (disk pp : ℕ) → has result disk pp ≡ false }
    {
        UsedPps { marks: no_marks() }
    }

    pub fn has(&self, pp: Pp) -> bool
        requires disk { pp.disk < 128 }
        requires partition { pp.pp < 1016 }
        ensures { result ≡ has self.now pp.disk pp.pp }
    {
        has_bit(&self.marks, spot(pp))
    }

    /// Puts a partition into the set.
    pub fn put(&mut self, pp: Pp)
        requires disk { pp.disk < 128 }
        requires partition { pp.pp < 1016 }
        ensures { (disk other : ℕ) → other < 1016 → has self.new disk other ≡ (has self.old disk other || is_at pp disk other) }
    {
        set_bit(&mut self.marks, spot(pp));
    }
}

fn no_marks() -> [u8; 16256]
    ensures { (k : ℕ) → has_bit result k ≡ false }
{
    [0; MARKS]
}

fn spot(pp: Pp) -> usize
    ensures { result ≡ 1016 * pp.disk + pp.pp }
{
    usize::from(MOST_PARTITIONS) * usize::from(pp.disk) + usize::from(pp.pp)
}
