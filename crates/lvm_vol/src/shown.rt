//! What a value with a history tells of itself, to those who share it.
ghost use Rattle.std.specs.Prelude.{◌≡◌, List, Option, length};
ghost use Rattle.lvm_num.specs.Buffer.{Sector};
ghost use Rattle.lvm_vol.specs.Fronts.{Told};

/// A value that remembers what the disks under it held when its run began. Contracts alone see it.
pub trait Past {
    /// The sectors of each disk at that moment, where its shelf told them.
    ghost past: { Self → Option (List (List Sector)) };
}

/// A value with a history, which a lock lends to one thread after another.
///
/// Whoever is lent it may add to the history what is its own, and keeps what is fixed. So each user
/// finds again all that it has seen, with its own entries among what came since.
pub trait Shown: Past {
    /// The history's entries with their data, the numbers that never change, and the counts that never
    /// fall.
    ghost tells: { Self → Told };

    /// What holds of the value whenever nobody is changing it.
    ghost always: { Self → Type 0 };

    /// How many entries the history has.
    fn shown(&self) -> u64
        ensures { result ≡ length (tells self.now).entries };
}
