//! What the records of disks in memory are found to be.
use crate::tests::disks::image_shelf;
use crate::tests::epochs::{DATA, FIRST, LATER, NAMESAKE, NONE, group, status};
use crate::tests::fixtures::check;
use lvm_disk::Shelf;
use lvm_memory::{Act, Planned};
use lvm_num::{Kind, Pbuf, Rows, Stamp};
use lvm_quorum::{Survey, SurveyRow, Surveyed, survey_disks};
use lvm_rec::{frame, slot_sectors, write_note};
use lvm_transfer::{Patience, relight};
use std::process::Abort;

const SECTOR: usize = 512;

// As many sectors as records need.
const LARGE: u64 = 4096;

// A record that a slot has, of a group and under a stamp.
type Slot = Option<(u64, Stamp)>;

// What is written on a disk.
#[derive(Clone, Copy)]
struct Disk {
    sectors: u64,
    note: Option<u64>,
    statuses: (Slot, Slot),
    descriptors: (Slot, Slot),
    // Of each status only the first sector is there.
    torn: bool,
}

const EMPTY: Disk = Disk {
    sectors: LARGE,
    note: None,
    statuses: (None, None),
    descriptors: (None, None),
    torn: false,
};

const MEMBER: Disk = Disk {
    sectors: LARGE,
    note: Some(50),
    statuses: (Some((DATA, FIRST)), None),
    descriptors: (Some((DATA, FIRST)), None),
    torn: false,
};

const SMALL: Disk = Disk {
    sectors: 4095,
    note: Some(50),
    statuses: (Some((DATA, FIRST)), None),
    descriptors: (Some((DATA, FIRST)), None),
    torn: false,
};

const NEWER: Disk = Disk {
    sectors: LARGE,
    note: Some(60),
    statuses: (Some((DATA, LATER)), Some((DATA, FIRST))),
    descriptors: (Some((DATA, FIRST)), Some((DATA, LATER))),
    torn: false,
};

const SAME: Disk = Disk {
    sectors: LARGE,
    note: Some(50),
    statuses: (Some((DATA, FIRST)), Some((NAMESAKE, FIRST))),
    descriptors: (None, Some((DATA, FIRST))),
    torn: false,
};

const TORN: Disk = Disk {
    sectors: LARGE,
    note: Some(50),
    statuses: (Some((DATA, FIRST)), Some((DATA, LATER))),
    descriptors: (Some((DATA, FIRST)), None),
    torn: true,
};

// What is found on a disk: its records by their groups and stamps, and of its note the stamp.
#[derive(Clone, Copy, PartialEq, Eq)]
struct Found {
    failed: bool,
    sectors: u64,
    descriptor: Slot,
    status: Slot,
    note: Option<u64>,
    homes: [u8; 2],
}

const NOTHING: Found = Found {
    failed: false,
    sectors: LARGE,
    descriptor: None,
    status: None,
    note: Some(0),
    homes: [2, 2],
};

const OF_MEMBER: Found = Found {
    failed: false,
    sectors: LARGE,
    descriptor: Some((DATA, FIRST)),
    status: Some((DATA, FIRST)),
    note: Some(50),
    homes: [0, 0],
};

const OF_SMALL: Found = Found {
    failed: false,
    sectors: 4095,
    descriptor: None,
    status: None,
    note: None,
    homes: [2, 2],
};

const UNREAD: Found = Found {
    failed: true,
    sectors: LARGE,
    descriptor: None,
    status: None,
    note: None,
    homes: [2, 2],
};

const OF_NEWER: Found = Found {
    failed: false,
    sectors: LARGE,
    descriptor: Some((DATA, LATER)),
    status: Some((DATA, LATER)),
    note: Some(60),
    homes: [1, 0],
};

const OF_SAME: Found = Found {
    failed: false,
    sectors: LARGE,
    descriptor: Some((DATA, FIRST)),
    status: Some((DATA, FIRST)),
    note: Some(50),
    homes: [1, 0],
};

const OF_TORN: Found = Found {
    failed: false,
    sectors: LARGE,
    descriptor: Some((DATA, FIRST)),
    status: None,
    note: Some(50),
    homes: [0, 2],
};

#[derive(Clone, Copy, PartialEq, Eq)]
enum End {
    Ended,
    Dark,
    Stuck,
    Memory,
}

struct Case {
    name: &'static str,
    disks: &'static [Disk],
    plan: &'static [Planned],
    patience: u32,
    // How it ends, after how many calls, and what it finds.
    end: End,
    calls: u64,
    found: &'static [Found],
}

static FOUND: [Case; 4] = [
    // A start and an end of each.
    Case {
        name: "a disk is read by 13 reads",
        disks: &[EMPTY],
        plan: &[],
        patience: 9,
        end: End::Ended,
        calls: 26,
        found: &[NOTHING],
    },
    Case {
        name: "a disk that is too small is not read",
        disks: &[SMALL, MEMBER],
        plan: &[],
        patience: 9,
        end: End::Ended,
        calls: 26,
        found: &[OF_SMALL, OF_MEMBER],
    },
    Case {
        name: "the newer slot is taken, and of two of one stamp the first",
        disks: &[NEWER, SAME],
        plan: &[],
        patience: 9,
        end: End::Ended,
        calls: 52,
        found: &[OF_NEWER, OF_SAME],
    },
    Case {
        name: "a torn slot counts for nothing",
        disks: &[TORN, MEMBER],
        plan: &[],
        patience: 9,
        end: End::Ended,
        calls: 52,
        found: &[OF_TORN, OF_MEMBER],
    },
];

// The rest of the disk is left out then.
static FAILED: [Case; 4] = [
    Case {
        name: "the first read fails",
        disks: &[MEMBER, MEMBER],
        plan: &[Planned {
            call: 1,
            act: Act::Fail(0),
        }],
        patience: 9,
        end: End::Ended,
        calls: 28,
        found: &[UNREAD, OF_MEMBER],
    },
    Case {
        name: "the second read fails",
        disks: &[MEMBER, MEMBER],
        plan: &[Planned {
            call: 3,
            act: Act::Fail(0),
        }],
        patience: 9,
        end: End::Ended,
        calls: 30,
        found: &[UNREAD, OF_MEMBER],
    },
    Case {
        name: "the last read of descriptors fails",
        disks: &[MEMBER, MEMBER],
        plan: &[Planned {
            call: 19,
            act: Act::Fail(0),
        }],
        patience: 9,
        end: End::Ended,
        calls: 46,
        found: &[UNREAD, OF_MEMBER],
    },
    Case {
        name: "the read of the note fails",
        disks: &[MEMBER, MEMBER],
        plan: &[Planned {
            call: 25,
            act: Act::Fail(0),
        }],
        patience: 9,
        end: End::Ended,
        calls: 52,
        found: &[UNREAD, OF_MEMBER],
    },
];

static BROKEN_OFF: [Case; 6] = [
    Case {
        name: "a delay is borne",
        disks: &[MEMBER],
        plan: &[Planned {
            call: 1,
            act: Act::Delay(9),
        }],
        patience: 10,
        end: End::Ended,
        calls: 35,
        found: &[OF_MEMBER],
    },
    Case {
        name: "a cut at the first start",
        disks: &[MEMBER, MEMBER],
        plan: &[Planned {
            call: 1,
            act: Act::Cut(0),
        }],
        patience: 9,
        end: End::Dark,
        calls: 1,
        found: &[],
    },
    Case {
        name: "a cut at the first end",
        disks: &[MEMBER, MEMBER],
        plan: &[Planned {
            call: 2,
            act: Act::Cut(0),
        }],
        patience: 9,
        end: End::Dark,
        calls: 2,
        found: &[],
    },
    Case {
        name: "a cut on the second disk",
        disks: &[MEMBER, MEMBER],
        plan: &[Planned {
            call: 29,
            act: Act::Cut(0),
        }],
        patience: 9,
        end: End::Dark,
        calls: 29,
        found: &[],
    },
    Case {
        name: "a cut at the last end",
        disks: &[MEMBER, MEMBER],
        plan: &[Planned {
            call: 52,
            act: Act::Cut(0),
        }],
        patience: 9,
        end: End::Dark,
        calls: 52,
        found: &[],
    },
    // 13 starts and 12 ends, five answers that nothing had ended, and the rest of the patience.
    Case {
        name: "the patience is that of all reads",
        disks: &[MEMBER],
        plan: &[
            Planned {
                call: 1,
                act: Act::Delay(5),
            },
            Planned {
                call: 30,
                act: Act::Delay(5),
            },
        ],
        patience: 9,
        end: End::Stuck,
        calls: 34,
        found: &[],
    },
];

// The sectors of a record.
fn record(rt: &(impl Abort + AllocGlobal), kind: Kind, stamp: Stamp, content: &[u8]) -> Vec<u8> {
    assert!(rt; content.len() <= 31_740);
    let mut bytes = Vec::new(rt.alloc());
    for k in 0..slot_sectors(content.len()) {
        bytes
            .extend_from_slice(&frame(kind, stamp, content, k))
            .expect(rt, "memory");
    }
    bytes
}

fn descriptor_content(rt: &(impl Abort + AllocGlobal), id: u64, stamp: Stamp) -> Rows<u8> {
    let group = group(rt, 2, id, stamp);
    assert!(rt; group.is_valid());
    lvm_vgda::encode(rt.alloc(), &group).expect(rt, "memory")
}

fn status_content(rt: &(impl Abort + AllocGlobal), id: u64, stamp: Stamp) -> Rows<u8> {
    let status = status(rt, id, stamp);
    assert!(rt; status.is_valid());
    lvm_vgsa::encode(rt.alloc(), &status).expect(rt, "memory")
}

fn slot_bytes(rt: &(impl Abort + AllocGlobal), kind: Kind, slot: Slot) -> Vec<u8> {
    let Some((id, stamp)) = slot else {
        return Vec::new(rt.alloc());
    };
    let content = match kind {
        Kind::Descriptor => descriptor_content(rt, id, stamp),
        Kind::Status => status_content(rt, id, stamp),
    };
    record(rt, kind, stamp, content.as_slice())
}

// Lets zeros follow up to a sector, and then these bytes.
fn put(rt: &impl Abort, image: &mut Vec<u8>, sector: usize, bytes: &[u8]) {
    image
        .resize(sector.min(8192) * SECTOR, 0)
        .expect(rt, "memory");
    image.extend_from_slice(bytes).expect(rt, "memory");
}

fn put_slots(rt: &(impl Abort + AllocGlobal), image: &mut Vec<u8>, disk: &Disk) {
    let (status_0, status_1) = disk.statuses;
    let (descriptor_0, descriptor_1) = disk.descriptors;
    let slots = [
        (64, Kind::Status, status_0),
        (128, Kind::Status, status_1),
        (512, Kind::Descriptor, descriptor_0),
        (1664, Kind::Descriptor, descriptor_1),
    ];
    for (at, kind, slot) in slots {
        let bytes = slot_bytes(rt, kind, slot);
        let part = if disk.torn && kind == Kind::Status {
            SECTOR
        } else {
            bytes.len()
        };
        put(rt, image, at, bytes.get(..part).unwrap_or(&[]));
    }
}

// The bytes of a disk.
fn image_of(rt: &(impl Abort + AllocGlobal), disk: &Disk) -> Rows<u8> {
    let mut image = Vec::new(rt.alloc());
    if let Some(stamp) = disk.note {
        put(rt, &mut image, 8, &write_note(stamp, &[]));
    }
    put_slots(rt, &mut image, disk);
    put(rt, &mut image, disk.sectors as usize, &[]);
    Rows::new(image)
}

fn images_of(rt: &(impl Abort + AllocGlobal), disks: &[Disk]) -> Rows<Rows<u8>> {
    let mut images = Vec::new(rt.alloc());
    for disk in disks {
        images.push(image_of(rt, disk)).expect(rt, "memory");
    }
    Rows::new(images)
}

// Its descriptor, which has to be the one that was written of that group and under that stamp.
fn descriptor_in(rt: &(impl Abort + AllocGlobal), row: &SurveyRow) -> Slot {
    let stamp = row.descriptor_stamp;
    let Some(descriptor) = &row.descriptor else {
        check(rt, stamp == NONE, "no stamp");
        return None;
    };
    let is = *descriptor == group(rt, 2, descriptor.id, stamp);
    check(rt, is, "a descriptor");
    Some((descriptor.id, stamp))
}

fn status_in(rt: &(impl Abort + AllocGlobal), row: &SurveyRow) -> Slot {
    let stamp = row.status_stamp;
    let Some(found) = &row.status else {
        check(rt, stamp == NONE, "no stamp");
        return None;
    };
    let is = *found == status(rt, found.id, stamp);
    check(rt, is, "a status");
    Some((found.id, stamp))
}

// The stamp of its note, which has to have no entries.
fn note_in(rt: &impl Abort, row: &SurveyRow) -> Option<u64> {
    let note = row.note.as_ref()?;
    check(rt, note.entries.is_empty(), "no entries");
    Some(note.stamp)
}

fn found_in(rt: &(impl Abort + AllocGlobal), row: &SurveyRow) -> Found {
    Found {
        failed: row.failed,
        sectors: row.sectors,
        descriptor: descriptor_in(rt, row),
        status: status_in(rt, row),
        note: note_in(rt, row),
        homes: row.homes,
    }
}

fn see_rows(rt: &(impl Abort + AllocGlobal), survey: &Survey, case: &Case) {
    check(rt, survey.rows.len() == case.found.len(), case.name);
    for (row, found) in survey.rows.as_slice().iter().zip(case.found) {
        check(rt, found_in(rt, row) == *found, case.name);
    }
}

fn survey<S: Shelf>(rt: &(impl Abort + AllocGlobal), shelf: &mut S, case: &Case) -> End {
    assert!(rt; shelf.flights() == 0);
    relight(shelf);
    let mut patience = Patience {
        left: case.patience,
    };
    let buf = Pbuf::fresh(rt.alloc(), 7).expect(rt, "memory");
    match survey_disks(rt.alloc(), shelf, buf, &mut patience) {
        Surveyed::Ended { survey, buf: _ } => {
            see_rows(rt, &survey, case);
            End::Ended
        }
        Surveyed::Dark => End::Dark,
        Surveyed::Stuck => End::Stuck,
        _ => End::Memory,
    }
}

fn see(rt: &(impl Abort + AllocGlobal), cases: &[Case]) {
    for case in cases {
        let images = images_of(rt, case.disks);
        let mut shelf = image_shelf(rt.alloc(), images, case.plan, 8).expect(rt, "disks");
        let end = survey(rt, &mut shelf, case);
        let is = end == case.end && shelf.calls() == case.calls;
        check(rt, is, case.name);
    }
}

#[test]
fn what_stands_on_disks_is_found(rt: HostRuntime) {
    see(&rt, &FOUND);
}

#[test]
fn a_disk_of_which_a_read_failed_shows_nothing(rt: HostRuntime) {
    see(&rt, &FAILED);
}

#[test]
fn a_cut_and_lost_patience_end_a_survey(rt: HostRuntime) {
    see(&rt, &BROKEN_OFF);
}
