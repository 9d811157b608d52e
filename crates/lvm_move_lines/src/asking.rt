//! What a `migratepv` asks for of the group that is on.
ghost use Rattle.std.specs.Prelude.{◌≡◌, IfSome, None};
ghost use Rattle.lvm_move_lines.specs.Asking.{Asks, first_outside};

use lvm_core::number_of;
use lvm_num::{Descriptor, Name, has_member};
use lvm_range_lines::below::stage::Refusal;

// The first of two disks that is no member of the group.
fn first_outside(d: &Descriptor, from: u16, to: u16) -> Option<u16>
    ensures { result ≡ first_outside d.now from to }
{
    if !has_member(d.pvs.as_slice(), from) {
        Some(from)
    } else if !has_member(d.pvs.as_slice(), to) {
        Some(to)
    } else {
        None
    }
}

/// The volume whose copies are to move from the first disk to the second; None where those of all are.
///
/// # Errors
///
/// `NoDisk` for the first disk that is no member; else `NoVolume` where no volume has the name.
pub fn asked_for(
    d: &Descriptor,
    volume: Option<Name>,
    from: u16,
    to: u16,
) -> Result<Option<u16>, Refusal>
    ensures { Asks d.now volume from to result }
{
    if let Some(disk) = first_outside(d, from, to) {
        return Err(Refusal::NoDisk { disk });
    }
    match volume {
        None => Ok(None),
        Some(name) => match number_of(d, name) {
            None => Err(Refusal::NoVolume),
            Some(lv) => Ok(Some(lv)),
        },
    }
}
