use crate::tests::fixtures::{check, check_at};
use crate::tests::mwc::Do::{At, Ends, Named, NamedOnlyHere, Pins, Puts, Starts, Unpin};
use lvm_mwc::{Cache, Pin};
use lvm_num::{DiskSet, NoteEntry};
use std::process::Abort;

// What a test does about a track group of volume 1, and what it is answered.
#[derive(Clone, Copy)]
enum Do {
    // Pins it.
    Puts(u32, Pin),
    Unpin(u32),
    // The place of its entry.
    At(u32, Option<u8>),
    // How many pins it has.
    Pins(u32, u32),
    // Starts a note on a disk, which has 62 entries, of which these are the first and the last.
    Starts(u16, u32, u32),
    // Ends it, well or badly.
    Ends(u16, bool),
    // Whether each note that may stand on the disk names it.
    Named(u16, u32, bool),
    // Each that may stand on this disk names it, but none on another, and none the same one of another volume.
    NamedOnlyHere(u16, u32),
}

fn pin(rt: &impl Abort, cache: &mut Cache, group: u32) -> Pin {
    assert!(rt; cache.pins(1, group) < u32::MAX);
    cache.pin(1, group)
}

fn unpin(rt: &impl Abort, cache: &mut Cache, group: u32) {
    assert!(rt; cache.pins(1, group) > 0);
    cache.unpin(1, group);
}

// Whether it names this track group.
fn is_of(entry: Option<&NoteEntry>, group: u32) -> bool {
    match entry {
        Some(entry) => *entry == NoteEntry { lv: 1, group },
        None => false,
    }
}

// Whether the note that is started has 62 entries, of which these are the first and the last.
fn starts(rt: &impl Abort, cache: &mut Cache, disk: u16, first: u32, last: u32) -> bool {
    assert!(rt; cache.has_disk(disk));
    assert!(rt; !cache.has_note_in_flight(disk));
    let note = cache.start_note(disk);
    note.len() == 62 && is_of(note.first(), first) && is_of(note.last(), last)
}

fn end(rt: &impl Abort, cache: &mut Cache, disk: u16, ok: bool) {
    assert!(rt; cache.has_note_in_flight(disk));
    cache.end_note(disk, ok);
}

fn is_named_only_here(cache: &Cache, disk: u16, group: u32) -> bool {
    let other = if disk == 0 { 127 } else { 0 };
    cache.is_named(disk, 1, group)
        && !cache.is_named(other, 1, group)
        && !cache.is_named(5, 1, group)
        && !cache.is_named(disk, 2, group)
}

fn is_so(cache: &Cache, what: &Do) -> bool {
    match what {
        At(group, place) => cache.find(1, *group) == *place,
        Pins(group, count) => cache.pins(1, *group) == *count,
        Named(disk, group, want) => cache.is_named(*disk, 1, *group) == *want,
        NamedOnlyHere(disk, group) => is_named_only_here(cache, *disk, *group),
        _ => true,
    }
}

// Whether it is answered as it is to be.
fn step(rt: &impl Abort, cache: &mut Cache, what: &Do) -> bool {
    match what {
        Puts(group, want) => pin(rt, cache, *group) == *want,
        Unpin(group) => {
            unpin(rt, cache, *group);
            true
        }
        Starts(disk, first, last) => starts(rt, cache, *disk, *first, *last),
        Ends(disk, ok) => {
            end(rt, cache, *disk, *ok);
            true
        }
        _ => is_so(cache, what),
    }
}

// A cache for two disks that has the first 62 track groups of volume 1.
fn full(rt: &(impl Abort + AllocGlobal)) -> Cache {
    let disks = DiskSet::empty().with(0).with(127);
    let mut cache = Cache::new(rt.alloc(), disks).expect(rt, "memory");
    for group in 0..62 {
        check(rt, pin(rt, &mut cache, group) == Pin::Pinned, "pinned");
    }
    cache
}

// Does this to such a cache, and ends the test at the first step of this name that is answered otherwise.
fn run(rt: &(impl Abort + AllocGlobal), name: &str, all: &[Do]) {
    let mut cache = full(rt);
    for (k, what) in all.iter().enumerate() {
        check_at(rt, step(rt, &mut cache, what), name, k);
    }
    check(rt, cache.find(2, 0).is_none(), "no other volume");
}

static SCRIPTS: [(&str, &[Do]); 4] = [
    (
        "the last of 63 track groups waits until another has no pins",
        &[
            Puts(62, Pin::AllPinned),
            At(62, None),
            At(0, Some(0)),
            At(61, Some(61)),
            Puts(0, Pin::Pinned),
            Pins(0, 2),
            At(0, Some(61)),
            At(5, Some(4)),
            Unpin(0),
            Puts(62, Pin::AllPinned),
            Unpin(5),
            At(5, Some(4)),
            Puts(62, Pin::Pinned),
            At(5, None),
            At(0, Some(60)),
            At(62, Some(61)),
            Pins(62, 1),
        ],
    ),
    (
        "entries without pins are put out in the order of their last pin",
        &[
            Unpin(9),
            Unpin(3),
            Unpin(1),
            Puts(1, Pin::Pinned),
            Unpin(1),
            At(3, Some(2)),
            Puts(100, Pin::Pinned),
            At(3, None),
            At(100, Some(61)),
            At(9, Some(7)),
            Puts(101, Pin::Pinned),
            At(9, None),
            At(101, Some(61)),
            At(1, Some(59)),
            Puts(102, Pin::Pinned),
            At(1, None),
            At(102, Some(61)),
            Puts(103, Pin::AllPinned),
        ],
    ),
    (
        "a group is named where the last note and the one in flight have it",
        &[
            Starts(0, 0, 61),
            Named(0, 0, false),
            Ends(0, true),
            NamedOnlyHere(0, 0),
            // Group 0 is put out, and named until a note without it is started.
            Unpin(0),
            Puts(62, Pin::Pinned),
            Named(0, 0, true),
            Starts(0, 1, 62),
            Named(0, 0, false),
            Named(0, 62, false),
            Named(0, 1, true),
            // It comes back while that note is in flight: the next note has it.
            Unpin(1),
            Puts(0, Pin::Pinned),
            Named(0, 0, false),
            Ends(0, true),
            Named(0, 0, false),
            Named(0, 62, true),
            Named(0, 1, true),
            Starts(0, 2, 0),
            Named(0, 0, false),
            Named(0, 1, false),
            Ends(0, true),
            Named(0, 0, true),
        ],
    ),
    (
        "after failed notes a group is named where each that may stand has it",
        &[
            Starts(127, 0, 61),
            Ends(127, true),
            Unpin(0),
            Puts(62, Pin::Pinned),
            Starts(127, 1, 62),
            Ends(127, false),
            Named(127, 0, false),
            Named(127, 1, true),
            Named(127, 2, true),
            Named(127, 62, false),
            // The second note that fails has group 0 again, and lacks group 1.
            Unpin(1),
            Puts(0, Pin::Pinned),
            Starts(127, 2, 0),
            Ends(127, false),
            Named(127, 0, false),
            Named(127, 1, false),
            Named(127, 2, true),
            Named(127, 62, false),
            Starts(127, 2, 0),
            Ends(127, true),
            Named(127, 0, true),
            Named(127, 1, false),
            Named(127, 2, true),
            Named(127, 62, true),
        ],
    ),
];

#[test]
fn track_groups_are_pinned_and_named_as_it_is_said(rt: HostRuntime) {
    for (name, all) in &SCRIPTS {
        run(&rt, name, all);
    }
}

fn admit(rt: &impl Abort, cache: &mut Cache, disk: u16) {
    let new = !cache.has_disk(disk) && disk < 128;
    assert!(rt; new);
    cache.admit(disk);
}

fn dismiss(rt: &impl Abort, cache: &mut Cache, disk: u16) {
    let still = !cache.has_note_in_flight(disk);
    assert!(rt; still);
    cache.dismiss(disk);
}

// Which of four disks are in the set, and which of them name track group 3.
fn disks_of(cache: &Cache) -> ([bool; 4], [bool; 4]) {
    (
        [0, 5, 9, 127].map(|disk| cache.has_disk(disk)),
        [0, 5, 9, 127].map(|disk| cache.is_named(disk, 1, 3)),
    )
}

#[test]
fn disks_come_and_go(rt: HostRuntime) {
    let mut cache = full(&rt);
    admit(&rt, &mut cache, 5);
    for disk in [0, 127] {
        check(&rt, starts(&rt, &mut cache, disk, 0, 61), "a note");
        end(&rt, &mut cache, disk, true);
    }
    let there = [true, true, false, true];
    check(
        &rt,
        disks_of(&cache) == (there, [true, false, false, true]),
        "one came",
    );
    dismiss(&rt, &mut cache, 0);
    dismiss(&rt, &mut cache, 9);
    let there = [false, true, false, true];
    check(
        &rt,
        disks_of(&cache) == (there, [false, false, false, true]),
        "one went",
    );
}

// The plain list that the cache is compared with: track groups of volume 1 with their pins, the last pin last.
fn pin_plain(rt: &impl Abort, plain: &mut Vec<(u32, u32)>, group: u32) -> Pin {
    let mut pins = 0;
    if let Some(place) = plain.iter().position(|entry| entry.0 == group) {
        pins = plain.remove(place).1;
    } else if plain.len() == 62 {
        match plain.iter().position(|entry| entry.1 == 0) {
            None => return Pin::AllPinned,
            Some(place) => {
                plain.remove(place);
            }
        }
    }
    assert!(rt; pins < u32::MAX);
    plain.push((group, pins + 1)).expect(rt, "places");
    Pin::Pinned
}

// Takes a pin, where there is one, in the cache and in the list.
fn unpin_both(rt: &impl Abort, cache: &mut Cache, plain: &mut Vec<(u32, u32)>, group: u32) {
    if cache.pins(1, group) > 0 {
        unpin(rt, cache, group);
    }
    for entry in plain.iter_mut() {
        if entry.0 == group && entry.1 > 0 {
            entry.1 -= 1;
        }
    }
}

// Whether the cache says of a track group what the list says.
fn is_as_in(cache: &Cache, plain: &[(u32, u32)], group: u32) -> bool {
    let found = cache.find(1, group);
    match plain.iter().position(|entry| entry.0 == group) {
        None => found.is_none() && cache.pins(1, group) == 0,
        Some(place) => match found {
            None => false,
            Some(found) => found as usize == place && cache.pins(1, group) == plain[place].1,
        },
    }
}

// Whether a note names the track groups of the list, in their order.
fn notes_all(rt: &impl Abort, cache: &mut Cache, plain: &[(u32, u32)]) -> bool {
    assert!(rt; cache.has_disk(0));
    assert!(rt; !cache.has_note_in_flight(0));
    let note = cache.start_note(0);
    end(rt, cache, 0, true);
    let mut same = note.len() == plain.len();
    for (entry, want) in note.as_slice().iter().zip(plain) {
        same = same
            && *entry
                == NoteEntry {
                    lv: 1,
                    group: want.0,
                };
    }
    same
}

// A number that follows another in a fixed row of numbers that look like chance.
fn next(number: u64) -> u64 {
    number
        .wrapping_mul(6364136223846793005)
        .wrapping_add(1442695040888963407)
}

// 600 pins and unpins of track groups that change over time. At step 69, with the 34th new one, the cache asks for memory,
// four times, behind one allocation for the list and seven for the cache. `rt try --test --fail-alloc N` refuses one of
// them: the answers stay.
#[test]
fn a_weave_of_pins_is_answered_as_a_plain_list_answers(rt: HostRuntime) {
    let mut plain = Vec::with_capacity(rt.alloc(), 62).expect(&rt, "memory");
    let disks = DiskSet::empty().with(0);
    let mut cache = Cache::new(rt.alloc(), disks).expect(&rt, "memory");
    let mut number = 7;
    for at in 0..600 {
        number = next(number);
        let group = (number >> 40) as u32 % 90 + at as u32 / 20;
        if number >> 33 & 1 == 0 {
            let want = pin_plain(&rt, &mut plain, group);
            check_at(&rt, pin(&rt, &mut cache, group) == want, "a pin", at);
        } else {
            unpin_both(&rt, &mut cache, &mut plain, group);
        }
        check_at(&rt, is_as_in(&cache, &plain, group), "an entry", at);
        if at % 50 == 0 {
            check_at(&rt, notes_all(&rt, &mut cache, &plain), "a note", at);
        }
    }
}
