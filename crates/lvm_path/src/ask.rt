//! What a request asks for.
ghost use Rattle.std.specs.Prelude.{◌≡◌};
ghost use Rattle.lvm_path.specs.Asks.{lv_of, at_of, count_of, is_write};

/// Blocks of a logical volume that are read or written: `count` of them, from the block `at` of the volume
/// `lv` on. A block has 512 bytes, and the first one of a volume is 0.
#[derive(Clone, Copy)]
pub enum Ask {
    Read { lv: u16, at: u64, count: u32 },
    Write { lv: u16, at: u64, count: u32 },
}

impl Ask {
    /// The number of the volume.
    pub fn lv(&self) -> u16
        ensures { result ≡ lv_of self.now }
    {
        match self {
            Ask::Read { lv, .. } | Ask::Write { lv, .. } => *lv,
        }
    }

    /// The first block, counted in the volume.
    pub fn at(&self) -> u64
        ensures { result ≡ at_of self.now }
    {
        match self {
            Ask::Read { at, .. } | Ask::Write { at, .. } => *at,
        }
    }

    /// How many blocks.
    pub fn count(&self) -> u32
        ensures { result ≡ count_of self.now }
    {
        match self {
            Ask::Read { count, .. } | Ask::Write { count, .. } => *count,
        }
    }

    /// Whether they are written.
    pub fn is_write(&self) -> bool
        ensures { result ≡ is_write self.now }
    {
        matches!(self, Ask::Write { .. })
    }
}
