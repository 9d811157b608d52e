//! Where the copies of a volume are.
ghost use Rattle.std.specs.Prelude.{◌≡◌, ◌<◌, Some};
ghost use Rattle.lvm_num.specs.declared.descriptor.LvRow.{LvRow};
ghost use Rattle.lvm_num.specs.Descriptor.{IsValid, is_pp, volume_of};
ghost use Rattle.lvm_num.specs.Geometry.{partition_blocks};
ghost use Rattle.lvm_session.specs.Fields.{core_of};
ghost use Rattle.lvm_session.specs.Judging.{copies_in};
ghost use Rattle.lvm_session.specs.Sound.{IsCopy};

use lvm_num::{Descriptor, Pp, copies_of, volume_of};
use lvm_session::{OpenCopy, Session};

/// The copies of a logical partition of a volume.
pub fn copies_in(d: &Descriptor, lv: u16, lp: u32) -> &[Pp]
    requires valid { IsValid d.now }
    requires within { (row : LvRow) → volume_of d.now lv ≡ Some row → lp < row.lps }
    ensures { result.now ≡ copies_in d.now lv lp }
{
    match volume_of(d, lv) {
        None => &[],
        Some(row) => copies_of(row, lp),
    }
}

/// The copies of the logical partition of the copy that is open.
pub fn copies_beside<'a>(session: &'a Session, copy: &OpenCopy) -> &'a [Pp]
    requires valid { IsValid session.now.descriptor }
    requires copy { IsCopy (core_of session.now) copy.now }
    ensures { result.now ≡ copies_in session.now.descriptor copy.now.lv copy.now.lp }
{
    copies_in(&session.descriptor, copy.lv, copy.lp)
}

/// The blocks of 512 bytes of a partition of so many MiB.
pub fn partition_blocks(mib: u16) -> u64
    ensures { result ≡ partition_blocks mib }
{
    2048 * u64::from(mib)
}

/// Whether they are one partition.
pub fn is_pp(a: Pp, b: Pp) -> bool
    ensures { result ≡ is_pp a b }
{
    a.disk == b.disk && a.pp == b.pp
}
