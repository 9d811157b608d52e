//! What image files are called.
ghost use Rattle.std.specs.Prelude.{◌≡◌};
ghost use Rattle.lvm_lane.specs.Names.{image_name};

use arrayvec::ArrayString;
use itoa::Buffer;

/// The name of the file of a disk: `hdisk`, the disk's number, and `.img`.
pub fn image_name(disk: u16) -> ArrayString<16>
    ensures { result.bytes ≡ image_name disk }
{
    let mut digits = Buffer::new();
    let mut name = ArrayString::new();
    name.push_str("hdisk");
    name.push_str(digits.format(disk));
    name.push_str(".img");
    name
}
