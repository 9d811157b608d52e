//! The descriptor of a group in which a volume has other copies.
ghost use Rattle.std.specs.Prelude.{◌≡◌, ◌≤◌, ◌+◌, ◌*◌, ◌==◌, if◌then◌else◌, length, take, drop, IfOk};
ghost use Rattle.lvm_volume_plan.specs.Copies.{with_map, with_copies, first_copies, further_copies};

use lvm_num::{Descriptor, LvRow, Memory, Pp, Rows, with_volumes};
use std::alloc::Global;

/// The group in which the volume of the number has so many copies, as this map has them.
pub fn with_copies(
    alloc: Global,
    d: &Descriptor,
    lv: u16,
    copies: u8,
    map: &[Pp],
) -> Result<Descriptor, Memory>
    ensures { IfOk result (λ next. next ≡ with_copies d.now lv copies map.now) }
{
    let mut lvs = Vec::new(alloc);
    for row in d.lvs.as_slice() {
        lvs.push(next_row(alloc, row, lv, copies, map)?)?;
    }
    with_volumes(alloc, d, Rows::new(lvs))
}

// The row of a volume in it.
fn next_row(alloc: Global, row: &LvRow, lv: u16, copies: u8, map: &[Pp]) -> Result<LvRow, Memory>
    ensures { IfOk result (λ next. next ≡ if row.now.number == lv then with_map row.now copies map.now else row.now) }
{
    if row.number == lv {
        with_map(alloc, row, copies, map)
    } else {
        with_map(alloc, row, row.copies, row.map.as_slice())
    }
}

// A volume with so many copies, as this map has them.
fn with_map(alloc: Global, row: &LvRow, copies: u8, map: &[Pp]) -> Result<LvRow, Memory>
    ensures { IfOk result (λ next. next ≡ with_map row.now copies map.now) }
{
    let map = Vec::from_slice(alloc, map)?;
    Ok(LvRow {
        number: row.number,
        name: row.name,
        copies,
        mode: row.mode,
        policy: row.policy,
        lps: row.lps,
        map: Rows::new(map),
    })
}

/// The copies of a logical partition in a map of so many copies.
pub fn copies_at(map: &[Pp], copies: u8, lp: u32) -> &[Pp]
    requires { lp * copies + copies ≤ length map.now }
    ensures { result.now ≡ take copies (drop (lp * copies) map.now) }
{
    let copies = usize::from(copies);
    let first = lp as usize * copies;
    &map[first..first + copies]
}

/// Of each logical partition the first copies, up to so many.
pub fn first_copies(alloc: Global, row: &LvRow, copies: u8) -> Result<Vec<Pp>, Memory>
    requires whole { length row.now.map ≡ row.now.lps * row.now.copies }
    requires fewer { copies ≤ row.now.copies }
    ensures { IfOk result (λ first. first.items ≡ first_copies row.now copies) }
{
    let mut first = Vec::new(alloc);
    for lp in 0..row.lps {
        let all = copies_at(row.map.as_slice(), row.copies, lp);
        first.extend_from_slice(&all[..usize::from(copies)])?;
    }
    Ok(first)
}

/// Of each logical partition in this map the copies behind those that its volume has.
pub fn further_copies(alloc: Global, row: &LvRow, copies: u8, map: &[Pp]) -> Result<Vec<Pp>, Memory>
    requires whole { length map.now ≡ row.now.lps * copies }
    requires more { row.now.copies ≤ copies }
    ensures { IfOk result (λ further. further.items ≡ further_copies (with_map row.now copies map.now) row.now.copies) }
{
    let mut further = Vec::new(alloc);
    for lp in 0..row.lps {
        let all = copies_at(map, copies, lp);
        further.extend_from_slice(&all[usize::from(row.copies)..])?;
    }
    Ok(further)
}

/// Of each logical partition the copies behind the first ones.
pub fn copies_behind(alloc: Global, row: &LvRow, copies: u8) -> Result<Vec<Pp>, Memory>
    requires whole { length row.now.map ≡ row.now.lps * row.now.copies }
    requires fewer { copies ≤ row.now.copies }
    ensures { IfOk result (λ further. further.items ≡ further_copies row.now copies) }
{
    let mut further = Vec::new(alloc);
    for lp in 0..row.lps {
        let all = copies_at(row.map.as_slice(), row.copies, lp);
        further.extend_from_slice(&all[usize::from(copies)..])?;
    }
    Ok(further)
}
