ghost use Rattle.std.specs.Prelude.{◌≡◌, ◌≤◌, length};
ghost use Rattle.lvm_num.specs.Record.{longest_content};

use crate::tests::fixtures::{check, check_at};
use lvm_num::{Framed, NoteEntry, Rows, Stamp};
use lvm_rec::{Kind, frame, read_note, read_slot, slot_sectors, write_note};
use std::process::Abort;

const STAMP: Stamp = Stamp { epoch: 50, seq: 1 };

// A group of three disks, and what stands before its bytes in the sector of its descriptor.
const GROUP: [u8; 72] =
    *b"VGD1\0\0\0\0\0\0\0\x32datavg\0\0\0\0\0\0\0\0\0\0\0\x01\x01\0\0\x03\0\0\0\0\0\0\0\0\0\0\0\0\0\0\0\0\0\x06\0\0\0\0\0\x01\0\x06\0\0\0\0\0\x02\0\x06\0\0\0\0";

const HEAD: [u8; 20] = *b"VD\0\0\0\0\0\x01\0\0\0\0\0\0\0\x32\0\0\0\x48";

const NOTE: [u8; 16] = *b"\0\0\0\0\0\0\0\x32\0\x01\0\0\0\0\0\x05";

// What a slot holds.
fn held(rt: &(impl Abort + AllocGlobal), kind: Kind, slot: &[u8]) -> Option<Framed> {
    read_slot(rt.alloc(), kind, slot).expect(rt, "memory")
}

fn holds_the_group(rt: &(impl Abort + AllocGlobal), slot: &[u8]) -> bool {
    let content = Rows::new(GROUP.to_vec(rt.alloc()).expect(rt, "memory"));
    held(rt, Kind::Descriptor, slot).is_some_and(|framed| framed.stamp == STAMP
        && framed.content == content)
}

#[test]
fn the_descriptor_of_three_disks_has_these_bytes(rt: HostRuntime) {
    let mut want = [0; 512];
    want[..20].copy_from_slice(&HEAD);
    want[20..92].copy_from_slice(&GROUP);
    let sector = frame(Kind::Descriptor, STAMP, &GROUP, 0);
    check(&rt, slot_sectors(72) == 1 && sector == want, "the sector");
    check(&rt, holds_the_group(&rt, &sector), "the content");
    check(
        &rt,
        held(&rt, Kind::Status, &sector).is_none(),
        "another kind",
    );
    check(
        &rt,
        held(&rt, Kind::Descriptor, &sector[..511]).is_none(),
        "short",
    );
}

fn sevens(rt: &(impl Abort + AllocGlobal), count: usize) -> Vec<u8>
    ensures { length result.items ≡ count }
{
    vec![in rt.alloc(); 7; count].expect(rt, "memory")
}

// The sectors of a record of so many sevens.
fn slot_of(rt: &(impl Abort + AllocGlobal), kind: Kind, count: usize) -> Vec<u8>
    requires { count ≤ longest_content kind }
{
    let content = sevens(rt, count);
    let mut slot = Vec::new(rt.alloc());
    for k in 0..slot_sectors(count) {
        slot.extend_from_slice(&frame(kind, STAMP, &content, k))
            .expect(rt, "memory");
    }
    slot
}

// A further sector of the slot, of this index, with one more seven in it.
fn further_sector(rt: &impl Abort, slot: &[u8], index: [u8; 2]) -> [u8; 512] {
    let mut sector = [0; 512];
    sector[..16].copy_from_slice(slot.get(..16).expect(rt, "a sector"));
    sector[2..4].copy_from_slice(&index);
    sector[16] = 7;
    sector
}

// The slot with that sector behind it, and the length of that.
fn with_a_byte_more(rt: &(impl Abort + AllocGlobal), slot: Vec<u8>, index: [u8; 2]) -> Vec<u8> {
    let mut slot = slot;
    let sector = further_sector(rt, &slot, index);
    slot.extend_from_slice(&sector).expect(rt, "memory");
    *slot.get_mut(19).expect(rt, "a length") = 0xfd;
    slot
}

// The length of the record that a slot holds, if all of its content is sevens.
fn sevens_in(rt: &(impl Abort + AllocGlobal), kind: Kind, slot: &[u8]) -> Option<usize> {
    held(rt, kind, slot)
        .filter(|framed| framed.content.as_slice().iter().all(|byte| *byte == 7))
        .map(|framed| framed.content.len())
}

#[test]
fn the_longest_content_of_each_kind_fits(rt: HostRuntime) {
    for (kind, count, sectors, index, more) in [
        (Kind::Descriptor, 571_388, 1152, [4, 128], None),
        (Kind::Status, 31_740, 64, [0, 64], None),
        (Kind::Descriptor, 31_740, 64, [0, 64], Some(31_741)),
    ] {
        let slot = slot_of(&rt, kind, count);
        check_at(&rt, slot.len() == sectors * 512, "sectors", count);
        check_at(
            &rt,
            sevens_in(&rt, kind, &slot) == Some(count),
            "sevens",
            count,
        );
        let longer = with_a_byte_more(&rt, slot, index);
        check_at(&rt, sevens_in(&rt, kind, &longer) == more, "more", count);
    }
}

// The length of the content of the slot where a bit of this byte is turned, if it then holds a record.
fn read_turned(rt: &(impl Abort + AllocGlobal), slot: &[u8], at: usize, bit: u8) -> Option<usize> {
    let mut turned = slot.to_vec(rt.alloc()).expect(rt, "memory");
    *turned.get_mut(at).expect(rt, "a byte") ^= bit;
    held(rt, Kind::Status, &turned).map(|framed| framed.content.len())
}

// What is to be read there of a content of 493 bytes, in two sectors and one behind them.
fn wanted(at: usize, bit: u8) -> Option<usize> {
    match at {
        // a byte less, so that the first sector is the record
        19 if bit == 1 => Some(492),
        20..512 | 528 | 1024.. => Some(493),
        _ => None,
    }
}

fn check_turned(rt: &(impl Abort + AllocGlobal), slot: &[u8], at: usize) {
    for bit in [1, 128] {
        check_at(
            rt,
            read_turned(rt, slot, at, bit) == wanted(at, bit),
            "byte",
            at,
        );
    }
}

#[test]
fn a_slot_with_one_bit_turned_reads_as_another_content_or_none(rt: HostRuntime) {
    let mut slot = slot_of(&rt, Kind::Status, 493);
    slot.resize(1536, 0).expect(&rt, "memory");
    for at in 0..1536 {
        check_turned(&rt, &slot, at);
    }
}

// What a sector names, under this stamp.
fn noted(sector: &[u8; 512], stamp: u64, entries: &[NoteEntry]) -> bool {
    read_note(sector).is_some_and(|note| note.stamp == stamp && note.entries.as_slice() == entries)
}

#[test]
fn the_note_of_one_track_group_has_these_bytes(rt: HostRuntime) {
    let entry = NoteEntry { lv: 1, group: 5 };
    let mut want = [0; 512];
    want[..16].copy_from_slice(&NOTE);
    want[511] = 50;
    let mut sector = write_note(50, &[entry]);
    check(&rt, sector == want, "written");
    check(&rt, noted(&sector, 50, &[entry]), "read");
    sector[511] = 51;
    check(&rt, read_note(&sector).is_none(), "two stamps");
}

// How many entries the sector names where this byte is other ones.
fn entries_with(sector: &[u8; 512], at: usize, bits: u8) -> Option<usize> {
    let mut turned = *sector;
    if let Some(byte) = turned.get_mut(at) {
        *byte ^= bits;
    }
    read_note(&turned).map(|note| note.entries.len())
}

#[test]
fn entries_count_at_each_place_but_for_volume_0(rt: HostRuntime) {
    let full = [NoteEntry {
        lv: 65_535,
        group: u32::MAX,
    }; 62];
    let mut sector = write_note(u64::MAX, &full);
    // a volume of 255 or 65,280 counts, as does any track group
    for at in 8..504 {
        let count = if at % 8 == 2 || at % 8 == 3 { 61 } else { 62 };
        check_at(
            &rt,
            entries_with(&sector, at, 255) == Some(count),
            "byte",
            at,
        );
    }
    sector[8] = 0;
    check(&rt, entries_with(&sector, 9, 255) == Some(61), "volume 0");
}
