//! The listings of a group.
ghost use Rattle.std.specs.Prelude.{◌≡◌, ◌++◌, OnOk, IfOk};
ghost use Rattle.std.specs.String.{string_bytes};
ghost use Rattle.lvm_num.specs.Descriptor.{IsValid};
ghost use Rattle.lvm_show.specs.Listings.{group_text, name_line, sizes_text, partitions_text, votes_text, volumes_text, volume_line};

use crate::counts::{
    all_free, all_partitions, all_stale, carriers, missing_members, quorum_votes, stale_in,
};
use crate::words::{push_counted, text_of};
use lvm_num::{Descriptor, LvRow, Memory, Text};
use lvm_status::StaleTable;
use std::alloc::{AllocError, Global};

/// `lsvg`: the name of the group, the size of a partition in MiB, and how many there are of each: its
/// members, those that are missing, its volumes, its partitions, those that no volume has, those of
/// volumes that are stale, its votes, and the votes with which it stays on. Partitions are counted over
/// all members, those that are missing and spares too.
pub fn show_group(alloc: Global, d: &Descriptor, t: &StaleTable) -> Result<Text, Memory>
    requires { IsValid d.now }
    ensures { IfOk result (λ text. text ≡ group_text d.now t.now) }
{
    Ok(Text::new(group_lines(alloc, d, t)?))
}

fn group_lines(alloc: Global, d: &Descriptor, t: &StaleTable) -> Result<String, AllocError>
    requires { IsValid d.now }
    ensures { IfOk result (λ text. string_bytes text ≡ group_text d.now t.now) }
{
    let mut text = String::new(alloc);
    push_name(&mut text, d)?;
    push_sizes(&mut text, d, t)?;
    push_partitions(&mut text, d, t)?;
    push_votes(&mut text, d)?;
    Ok(text)
}

#[tactic(auto, unfolding(crate::specs::Listings::name_line))]
fn push_name(text: &mut String, d: &Descriptor) -> Result<(), AllocError>
    ensures { OnOk result (string_bytes text.new ≡ string_bytes text.old ++ name_line d.now) }
{
    let name = text_of(&d.name);
    write!(text, "VOLUME GROUP {name}\n")
}

#[tactic(auto, unfolding(crate::specs::Listings::sizes_text))]
fn push_sizes(text: &mut String, d: &Descriptor, t: &StaleTable) -> Result<(), AllocError>
    ensures { OnOk result (string_bytes text.new ≡ string_bytes text.old ++ sizes_text d.now t.now) }
{
    push_counted(text, "PP SIZE", u64::from(d.mib))?;
    push_counted(text, "PVs", d.pvs.len() as u64)?;
    push_counted(text, "MISSING PVs", missing_members(d, t))?;
    push_counted(text, "LVs", d.lvs.len() as u64)
}

#[tactic(auto, unfolding(crate::specs::Listings::partitions_text))]
fn push_partitions(text: &mut String, d: &Descriptor, t: &StaleTable) -> Result<(), AllocError>
    requires { IsValid d.now }
    ensures { OnOk result (string_bytes text.new ≡ string_bytes text.old ++ partitions_text d.now t.now) }
{
    push_counted(text, "PPs", all_partitions(d))?;
    push_counted(text, "FREE PPs", all_free(d))?;
    push_counted(text, "STALE PPs", all_stale(d, t))
}

#[tactic(auto, unfolding(crate::specs::Listings::votes_text))]
fn push_votes(text: &mut String, d: &Descriptor) -> Result<(), AllocError>
    requires { IsValid d.now }
    ensures { OnOk result (string_bytes text.new ≡ string_bytes text.old ++ votes_text d.now) }
{
    push_counted(text, "VGDAs", u64::from(d.total_votes()))?;
    push_counted(text, "QUORUM", u64::from(quorum_votes(d)))
}

/// `lsvg -l`: for each volume, in the order of their numbers, its name, its logical partitions, the
/// partitions of all its copies, the members that carry it, and its stale partitions.
pub fn show_volumes(alloc: Global, d: &Descriptor, t: &StaleTable) -> Result<Text, Memory>
    requires { IsValid d.now }
    ensures { IfOk result (λ text. text ≡ volumes_text d.now t.now) }
{
    Ok(Text::new(volume_lines(alloc, d, t)?))
}

fn volume_lines(alloc: Global, d: &Descriptor, t: &StaleTable) -> Result<String, AllocError>
    ensures { IfOk result (λ text. string_bytes text ≡ volumes_text d.now t.now) }
{
    let lvs = d.lvs.as_slice();
    let mut text = String::new(alloc);
    for row in lvs {
        push_volume(&mut text, d, t, row)?;
    }
    Ok(text)
}

fn push_volume(
    text: &mut String,
    d: &Descriptor,
    t: &StaleTable,
    row: &LvRow,
) -> Result<(), AllocError>
    ensures { OnOk result (string_bytes text.new ≡ string_bytes text.old ++ volume_line d.now t.now row.now) }
{
    let name = text_of(&row.name);
    let lps = row.lps;
    let pps = row.map.len();
    write!(text, "{name} LPs {lps} PPs {pps}")?;
    let pvs = carriers(d, row);
    let stale = stale_in(t, row);
    write!(text, " PVs {pvs} stale {stale}\n")
}
