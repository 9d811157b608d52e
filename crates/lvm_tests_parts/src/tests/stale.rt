use crate::tests::fixtures::check;
use lvm_num::{Descriptor, Pp};
use lvm_status::StaleTable;
use lvm_tests_values::{Member, Volume, group, table};
use std::process::Abort;

// The table of disks 3 and 7, with volume 5 dirty.
fn table_of(rt: &(impl Abort + AllocGlobal)) -> StaleTable {
    table(rt.alloc(), &[3, 7], &[5]).expect(rt, "a table")
}

fn mark(rt: &impl Abort, table: &mut StaleTable, disk: u16, pp: u16) {
    let fits = table.has_row(disk) && pp < 1016;
    assert!(rt; fits);
    table.mark(Pp { disk, pp });
}

fn clear(rt: &impl Abort, table: &mut StaleTable, disk: u16, pp: u16) {
    let fits = table.has_row(disk) && pp < 1016;
    assert!(rt; fits);
    table.clear(Pp { disk, pp });
}

// Of these partitions, those that are stale.
fn stale(table: &StaleTable) -> [bool; 4] {
    [(7, 1015), (7, 1014), (3, 1015), (7, 1016)].map(|(disk, pp)| table.is_stale(Pp { disk, pp }))
}

// The last byte of marks of the second of two rows.
fn last_marks(table: &StaleTable) -> Option<u8> {
    match table.as_status().rows.as_slice() {
        [_, row] => Some(row.stale[126]),
        _ => None,
    }
}

#[test]
fn a_partition_is_marked_and_cleared_alone(rt: HostRuntime) {
    let mut table = table_of(&rt);
    mark(&rt, &mut table, 7, 1015);
    check(&rt, stale(&table) == [true, false, false, false], "marked");
    check(&rt, last_marks(&table) == Some(0x80), "the last bit");
    clear(&rt, &mut table, 7, 1015);
    check(&rt, stale(&table) == [false; 4], "cleared");
}

fn set_missing(rt: &impl Abort, table: &mut StaleTable, disk: u16) {
    let there = table.has_row(disk);
    assert!(rt; there);
    table.set_missing(disk, true);
}

#[test]
fn a_disk_is_missing_alone(rt: HostRuntime) {
    let mut table = table_of(&rt);
    set_missing(&rt, &mut table, 3);
    let missing = [3, 7, 4].map(|disk| table.is_missing(disk));
    check(&rt, missing == [true, false, false], "missing");
    check(&rt, !table.is_stale(Pp { disk: 3, pp: 0 }), "fresh");
}

fn is_dirty(table: &StaleTable, volumes: &[u16]) -> bool {
    table.as_status().dirty.as_slice() == volumes
}

#[test]
fn dirty_volumes_stay_in_order(rt: HostRuntime) {
    let mut table = table_of(&rt);
    for lv in [511, 1, 7, 5, 7] {
        table.set_dirty(lv, true);
    }
    check(&rt, is_dirty(&table, &[1, 5, 7, 511]), "dirty");
    table.set_dirty(5, false);
    table.set_dirty(6, false);
    check(&rt, is_dirty(&table, &[1, 7, 511]), "clean");
    check(&rt, table.is_dirty(7) && !table.is_dirty(5), "one by one");
}

// Whether the status that is made of a table is as it is shown.
fn is_shown(rt: &(impl Abort + AllocGlobal), table: &StaleTable) -> bool {
    table.status(rt.alloc()).expect(rt, "memory") == *table.as_status()
}

#[test]
fn the_status_is_what_was_set(rt: HostRuntime) {
    let mut table = table_of(&rt);
    mark(&rt, &mut table, 3, 9);
    check(&rt, is_shown(&rt, &table), "the same");
    check(
        &rt,
        *table.as_status() != *table_of(&rt).as_status(),
        "changed",
    );
}

const MIRRORED: Volume = (2, "lv", 2, 2, &[(3, 4), (7, 4), (3, 1015), (7, 1015)]);

// How many copies of a volume of a group of disks 3 and 7 are stale.
fn stale_copies(rt: &(impl Abort + AllocGlobal), table: &StaleTable, lv: u16) -> u32 {
    let group = group(
        rt.alloc(),
        &[(3, 1016, false), (7, 1016, false)],
        &[MIRRORED],
    )
    .expect(rt, "a group");
    let valid = group.is_valid();
    assert!(rt; valid);
    table.stale_of(&group, lv)
}

#[test]
fn stale_copies_of_a_volume_are_counted(rt: HostRuntime) {
    let mut table = table_of(&rt);
    check(&rt, stale_copies(&rt, &table, 2) == 0, "none");
    for (disk, pp) in [(3, 4), (7, 1015), (3, 5)] {
        mark(&rt, &mut table, disk, pp);
    }
    check(&rt, stale_copies(&rt, &table, 2) == 2, "two");
    check(&rt, stale_copies(&rt, &table, 1) == 0, "no volume");
}

fn copy(rt: &impl Abort, to: &mut StaleTable, from: &StaleTable) {
    let rows = from.as_status().rows.len();
    let fits = rows == to.as_status().rows.len();
    assert!(rt; fits);
    to.copy_from(from);
}

// A table takes its own memory for what it was made of, and for all that comes later.
#[test]
fn a_table_becomes_another_without_memory(rt: HostRuntime) {
    let mut one = table_of(&rt);
    let mut other = table_of(&rt);
    mark(&rt, &mut one, 3, 2);
    other.set_dirty(9, true);
    copy(&rt, &mut other, &one);
    check(&rt, *one.as_status() == *other.as_status(), "the same");
}

// Of each of three disks whether it has a row, is missing, and has its last partition stale.
fn said(table: &StaleTable) -> [(bool, bool, bool); 3] {
    [3, 7, 9].map(|disk| {
        let stale = table.is_stale(Pp { disk, pp: 1015 });
        (table.has_row(disk), table.is_missing(disk), stale)
    })
}

const OTHERS: [Member; 2] = [(9, 1016, false), (7, 1016, false)];

// The table of disks 3 and 7 over the rows of a group of disks 9 and 7.
fn over_others(rt: &(impl Abort + AllocGlobal), table: &StaleTable) -> StaleTable {
    let group: Descriptor = group(rt.alloc(), &OTHERS, &[]).expect(rt, "a group");
    let valid = group.is_valid();
    assert!(rt; valid);
    table.with_rows(rt.alloc(), &group).expect(rt, "memory")
}

#[test]
fn a_table_is_said_over_the_rows_of_other_members(rt: HostRuntime) {
    let mut table = table_of(&rt);
    mark(&rt, &mut table, 3, 1015);
    mark(&rt, &mut table, 7, 1015);
    let mut over = over_others(&rt, &table);
    let none = (false, false, false);
    let new = (true, false, false);
    check(&rt, said(&over) == [none, (true, false, true), new], "made");
    set_missing(&rt, &mut table, 7);
    clear(&rt, &mut table, 7, 1015);
    table.set_dirty(9, true);
    over.copy_rows(&table);
    check(
        &rt,
        said(&over) == [none, (true, true, false), new],
        "copied",
    );
    check(&rt, is_dirty(&over, &[5, 9]), "dirty");
}
