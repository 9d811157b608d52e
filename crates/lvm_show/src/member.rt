//! The listing of a member.
ghost use Rattle.std.specs.Prelude.{◌≡◌, ◌==◌, ◌++◌, IsSome, IfOk, OnOk, Contains};
ghost use Rattle.std.specs.List.{find};
ghost use Rattle.std.specs.Option.{option_copied};
ghost use Rattle.std.specs.String.{string_bytes};
ghost use Rattle.lvm_num.specs.declared.descriptor.PvRow.{PvRow};
ghost use Rattle.lvm_num.specs.Descriptor.{IsValid, member_of};
ghost use Rattle.lvm_show.specs.Listings.{state_text, member_state, member_counts, member_text, disk_text};

use crate::counts::{free_on, stale_on};
use crate::words::text_of;
use lvm_num::{Descriptor, Memory, PvRow, Text};
use lvm_status::StaleTable;
use std::alloc::{AllocError, Global};

/// `lspv`: a member's disk, the name of the group, whether it is missing, its partitions, those that no
/// volume has, and those of volumes that are stale.
pub fn show_disk(alloc: Global, d: &Descriptor, t: &StaleTable, disk: u16) -> Result<Text, Memory>
    requires valid { IsValid d.now }
    requires there { IsSome (member_of d.now disk) }
    ensures { IfOk result (λ text. text ≡ disk_text d.now t.now disk) }
{
    match member_of(d.pvs.as_slice(), disk) {
        Some(row) => Ok(Text::new(member_line(alloc, d, t, row)?)),
        None => unreachable!(),
    }
}

// The row of the member on a disk.
pub fn member_of(pvs: &[PvRow], disk: u16) -> Option<&PvRow>
    ensures { option_copied result ≡ find (λ (row : PvRow). row.disk == disk) pvs.now }
{
    pvs.iter().find(|row| row.disk == disk)
}

fn member_line(
    alloc: Global,
    d: &Descriptor,
    t: &StaleTable,
    row: &PvRow,
) -> Result<String, AllocError>
    requires valid { IsValid d.now }
    requires member { Contains d.now.pvs row.now }
    ensures { IfOk result (λ text. string_bytes text ≡ member_text d.now t.now row.now) }
{
    let mut text = String::new(alloc);
    push_state(&mut text, d, t, row.disk)?;
    push_counts(&mut text, d, t, row)?;
    Ok(text)
}

#[tactic(auto, unfolding(crate::specs::Listings::member_state))]
fn push_state(
    text: &mut String,
    d: &Descriptor,
    t: &StaleTable,
    disk: u16,
) -> Result<(), AllocError>
    ensures { OnOk result (string_bytes text.new ≡ string_bytes text.old ++ member_state d.now t.now disk) }
{
    let name = text_of(&d.name);
    let state = state_of(t, disk);
    write!(text, "hdisk{disk} {name} {state}")
}

#[tactic(auto, unfolding(crate::specs::Listings::member_counts))]
fn push_counts(
    text: &mut String,
    d: &Descriptor,
    t: &StaleTable,
    row: &PvRow,
) -> Result<(), AllocError>
    requires valid { IsValid d.now }
    requires member { Contains d.now.pvs row.now }
    ensures { OnOk result (string_bytes text.new ≡ string_bytes text.old ++ member_counts d.now t.now row.now) }
{
    let pps = row.pps;
    let free = free_on(d, row);
    let stale = stale_on(d, t, row.disk);
    write!(text, " pps {pps} free {free} stale {stale}\n")
}

fn state_of(t: &StaleTable, disk: u16) -> &'static str
    ensures { result.now ≡ state_text t.now disk }
{
    if t.is_missing(disk) {
        "missing"
    } else {
        "active"
    }
}
