//! Laws of every shelf, whichever implements the trait.
ghost use Rattle.lvm_disk.specs.Images.{CutLaw, DoneLaw, FailedLaw, StartLaw, ArrangeLaw, WholeLaw};

/// After a transfer has ended in any way, after a power cut and after an arrangement, each crash image
/// is one of those from before. A start adds only images that differ from an earlier one in sectors of the started range.
pub fn only_starts_add_images()
    ensures cut { CutLaw }
    ensures done { DoneLaw }
    ensures failed { FailedLaw }
    ensures start { StartLaw }
    ensures arrange { ArrangeLaw }
{}

/// Each sector of a crash image has 512 bytes, where each sector on the disks and each sector of the
/// buffers that are being written has.
pub fn crash_images_are_whole()
    ensures { WholeLaw }
{}
