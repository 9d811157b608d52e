//! Where bytes come from, where they go, and what tells the time.
ghost use Rattle.std.specs.Prelude.{◌≡◌, ◌<◌, ◌≤◌, List, ℕ, Option, Some, None, [], length};
ghost use Rattle.lvm_io.specs.Count.{Rose, next_count};

/// The answer of a source.
#[derive(Clone, Copy, PartialEq, Eq)]
pub enum Got {
    /// So many bytes, at least one, stand at the front of the buffer.
    Bytes(usize),
    /// Nothing is left.
    End,
    /// Nothing was read: the source had a fault.
    Failed,
}

/// The answer of a sink.
#[derive(Clone, Copy, PartialEq, Eq)]
pub enum Put {
    /// The first so many bytes, at least one, were taken.
    Took(usize),
    /// Nothing was taken: the sink had a fault, or is full.
    Failed,
}

/// Bytes that are read one after the other.
pub trait Source {
    ghost use Rattle.lvm_io.specs.Stream.{ReadGives};

    // The bytes that are left, where they are told.
    ghost left: { Self → Option (List ℕ) };

    // How many reads failed. It never falls, and stands at the last value of 64 bits.
    ghost faults: { Self → ℕ };

    /// Reads some of the next bytes to the front of `into`. What stands behind them in `into` is not said.
    fn read(&mut self, into: &mut [u8]) -> Got
        requires { 0 < length into.old }
        ensures bytes { ReadGives (left self.old) (left self.new) into.new result }
        ensures later { faults self.old ≤ faults self.new }
        ensures cause { result ≡ Got.Failed → Rose (faults self.old) (faults self.new) }
        ensures well { (result ≡ Got.Failed → ⊥) → faults self.new ≡ faults self.old };
}

/// Bytes that are written one after the other.
pub trait Sink {
    ghost use Rattle.lvm_io.specs.Stream.{WriteGives};

    // The bytes that were taken, where they are told.
    ghost held: { Self → Option (List ℕ) };

    // How many writes failed. It never falls, and stands at the last value of 64 bits.
    ghost faults: { Self → ℕ };

    // The disk to whose image the bytes go, where one was chosen.
    ghost chosen: { Self → Option ℕ } = { λ _. None };

    // How often a disk was chosen. It never falls, and stands at the last value of 64 bits.
    ghost choices: { Self → ℕ } = { λ _. 0 };

    /// Writes a front of `from`.
    fn write(&mut self, from: &[u8]) -> Put
        requires { 0 < length from.now }
        ensures bytes { WriteGives (held self.old) (held self.new) from.now result }
        ensures image { (chosen self.new ≡ chosen self.old) × (choices self.new ≡ choices self.old) }
        ensures later { faults self.old ≤ faults self.new }
        ensures cause { result ≡ Put.Failed → Rose (faults self.old) (faults self.new) }
        ensures well { (result ≡ Put.Failed → ⊥) → faults self.new ≡ faults self.old };
}

/// A sink for the images of disks, one after the other.
pub trait Images: Sink {
    ghost use Rattle.lvm_io.specs.Stream.{WhereTold};

    /// What is written afterwards goes to a new image of this disk, which is empty.
    fn choose(&mut self, disk: u16)
        ensures image { Self.chosen self.new ≡ Some disk }
        ensures once { Self.choices self.new ≡ next_count (Self.choices self.old) }
        ensures empty { WhereTold (Self.held self.old) (Self.held self.new) (λ a b. b ≡ []) }
        ensures well { Self.faults self.new ≡ Self.faults self.old };
}

/// Moments, which rise.
pub trait Clock {
    // The moment that was answered last, 0 before.
    ghost last: { Self → ℕ };

    // How often the clock was asked. It never falls, and stands at the last value of 64 bits.
    ghost asked: { Self → ℕ };

    /// A moment of at least 1, later than the one before, but that the last of 64 bits is answered again.
    fn now(&mut self) -> u64
        ensures some { 1 ≤ result }
        ensures last { last self.new ≡ result }
        ensures later { Rose (last self.old) result }
        ensures asked { asked self.new ≡ next_count (asked self.old) };
}
