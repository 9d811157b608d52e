//! The listing of where a volume lies.
ghost use Rattle.std.specs.Prelude.{◌≡◌, ◌++◌, ◌<◌, IsSome, OnOk, IfOk, flat_map};
ghost use Rattle.std.specs.String.{string_bytes};
ghost use Rattle.lvm_num.specs.declared.descriptor.LvRow.{LvRow};
ghost use Rattle.lvm_num.specs.Descriptor.{IsValid, IsLaidOut, volume_of, copies_of};
ghost use Rattle.lvm_show.specs.Listings.{copy_text, partition_line, map_text, volume_map_text};

use crate::words::FourDigits;
use lvm_num::{Descriptor, LvRow, Memory, Pp, Text, copies_of, volume_among};
use lvm_status::StaleTable;
use std::alloc::{AllocError, Global};

/// `lslv -m`: for each logical partition of a volume its number and, for each of its copies, the
/// partition, its disk, and `stale` where it is. Both are counted from 1, in at least four digits.
pub fn show_map(alloc: Global, d: &Descriptor, t: &StaleTable, lv: u16) -> Result<Text, Memory>
    requires valid { IsValid d.now }
    requires there { IsSome (volume_of d.now lv) }
    ensures { IfOk result (λ text. text ≡ volume_map_text d.now t.now lv) }
{
    match volume_among(d.lvs.as_slice(), lv) {
        Some(row) => Ok(Text::new(map_lines(alloc, t, row)?)),
        None => unreachable!(),
    }
}

fn map_lines(alloc: Global, t: &StaleTable, row: &LvRow) -> Result<String, AllocError>
    requires { IsLaidOut row.now }
    ensures { IfOk result (λ text. string_bytes text ≡ map_text t.now row.now) }
{
    let mut text = String::new(alloc);
    for lp in 0..row.lps {
        push_partition(&mut text, t, row, lp)?;
    }
    Ok(text)
}

fn push_partition(text: &mut String, t: &StaleTable, row: &LvRow, lp: u32) -> Result<(), AllocError>
    requires laid_out { IsLaidOut row.now }
    requires within { lp < row.now.lps }
    ensures { OnOk result (string_bytes text.new ≡ string_bytes text.old ++ partition_line t.now row.now lp) }
{
    let number = FourDigits(u64::from(lp) + 1);
    write!(text, "{number}")?;
    push_copies(text, t, copies_of(row, lp))?;
    text.push('\n')
}

fn push_copies(text: &mut String, t: &StaleTable, copies: &[Pp]) -> Result<(), AllocError>
    ensures { OnOk result (string_bytes text.new ≡ string_bytes text.old ++ flat_map (copy_text t.now) copies.now) }
{
    for pp in copies {
        push_copy(text, t, *pp)?;
    }
    Ok(())
}

fn push_copy(text: &mut String, t: &StaleTable, pp: Pp) -> Result<(), AllocError>
    ensures { OnOk result (string_bytes text.new ≡ string_bytes text.old ++ copy_text t.now pp) }
{
    let number = FourDigits(u64::from(pp.pp) + 1);
    let disk = pp.disk;
    let stale = if t.is_stale(pp) { " stale" } else { "" };
    write!(text, " {number} hdisk{disk}{stale}")
}
