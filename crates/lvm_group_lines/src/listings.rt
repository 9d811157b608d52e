//! The lines that list the group that is on.
ghost use Rattle.std.specs.Prelude.{◌≡◌, ℕ, List, length, IfOk};
ghost use Rattle.lvm_num.specs.Descriptor.{IsValid};
ghost use Rattle.lvm_group_lines.specs.Listings.{CopiesShow, DiskShows, GroupShows, MemberShows, NamedShows, VolumeShows};
ghost use Rattle.lvm_group_lines.specs.Replies.{Shows};
ghost use Rattle.lvm_group_lines.specs.Stages.{shelf_in, session_in};

use crate::holder::Holder;
use crate::reply::{Refusal, Reply};
use crate::stage::Stage;
use lvm_core::number_of;
use lvm_disk::Shelf;
use lvm_num::{Descriptor, Memory, Name, Text, has_member};
use lvm_show::{show_disk, show_group, show_map, show_volumes};
use lvm_status::StaleTable;
use std::alloc::Global;

// The lines of a text, if there was memory for it.
fn shows(text: Result<Text, Memory>) -> Reply
    ensures { (lines : List ℕ) → IfOk text (λ shown. shown ≡ lines) → Shows lines result }
{
    match text {
        Ok(text) => Reply::Lines(text),
        Err(Memory) => Reply::Refused(Refusal::Memory),
    }
}

// Lists a group, or its volumes, if it has the name.
fn list_named(
    alloc: Global,
    group: &Descriptor,
    table: &StaleTable,
    volumes: bool,
    name: Name,
) -> Reply
    requires { IsValid group.now }
    ensures { NamedShows volumes name group.now table.now result }
{
    if group.name != name {
        return Reply::Refused(Refusal::NoGroup);
    }
    if volumes {
        shows(show_volumes(alloc, group, table))
    } else {
        shows(show_group(alloc, group, table))
    }
}

/// Lists a group, or its volumes.
pub fn list_group<S: Shelf>(alloc: Global, stage: &Stage<S>, volumes: bool, name: Name) -> Reply
    ensures { GroupShows volumes name (session_in stage.now) result }
{
    match &stage.holder {
        Holder::Off {
            shelf: _,
            history: _,
        } => Reply::Refused(Refusal::NoGroup),
        Holder::Empty { driver } => {
            list_named(alloc, driver.descriptor(), driver.table(), volumes, name)
        }
        Holder::Serving { driver } => {
            list_named(alloc, driver.descriptor(), driver.table(), volumes, name)
        }
    }
}

// Lists where the copies of the volume of a name lie.
fn list_copies(alloc: Global, group: &Descriptor, table: &StaleTable, name: Name) -> Reply
    requires { IsValid group.now }
    ensures { CopiesShow name group.now table.now result }
{
    match number_of(group, name) {
        None => Reply::Refused(Refusal::NoVolume),
        Some(lv) => shows(show_map(alloc, group, table, lv)),
    }
}

/// Lists where the copies of a volume lie.
pub fn list_volume<S: Shelf>(alloc: Global, stage: &Stage<S>, name: Name) -> Reply
    ensures { VolumeShows name (session_in stage.now) result }
{
    match &stage.holder {
        Holder::Off {
            shelf: _,
            history: _,
        } => Reply::Refused(Refusal::NoGroup),
        Holder::Empty { driver } => list_copies(alloc, driver.descriptor(), driver.table(), name),
        Holder::Serving { driver } => {
            list_copies(alloc, driver.descriptor(), driver.table(), name)
        }
    }
}

// Lists a member of a group on a shelf with so many disks.
fn list_member(
    alloc: Global,
    group: &Descriptor,
    table: &StaleTable,
    disk: u16,
    disks: u16,
) -> Reply
    requires { IsValid group.now }
    ensures { MemberShows disk disks group.now table.now result }
{
    if disk >= disks {
        return Reply::Refused(Refusal::NoDisk { disk });
    }
    if has_member(group.pvs.as_slice(), disk) {
        shows(show_disk(alloc, group, table, disk))
    } else {
        Reply::Refused(Refusal::NoDisk { disk })
    }
}

/// Lists a member of the group.
pub fn list_disk<S: Shelf>(alloc: Global, stage: &Stage<S>, disk: u16) -> Reply
    ensures { DiskShows disk (length (S.device (shelf_in stage.now)).sizes) (session_in stage.now) result }
{
    match &stage.holder {
        Holder::Off {
            shelf: _,
            history: _,
        } => Reply::Refused(Refusal::NoGroup),
        Holder::Empty { driver } => list_member(
            alloc,
            driver.descriptor(),
            driver.table(),
            disk,
            driver.disks(),
        ),
        Holder::Serving { driver } => list_member(
            alloc,
            driver.descriptor(),
            driver.table(),
            disk,
            driver.disks(),
        ),
    }
}
