//! What a disk shows while its descriptor is erased. Each call does nothing: its contract is the law.
ghost use Rattle.lvm_erase.specs.Erasing.{ShowsNewestOrNone, ErasingShowsOne, ErasedShowsNone};

/// At each moment of it the disk shows the newest descriptor that it showed, or none; nothing else that disks show
/// changes. Once both slots begin with zeros it shows none.
pub fn newest_is_shown_or_none()
    ensures while_erased { ShowsNewestOrNone }
    ensures rest { ErasingShowsOne }
    ensures erased { ErasedShowsNone }
{}
