//! Which group a name chooses, by what the disks show.
ghost use Rattle.std.specs.Prelude.{IsTrue, IfSome};
ghost use Rattle.lvm_num.specs.Descriptor.{IsValid};
ghost use Rattle.lvm_num.specs.Status.{IsValidStatus};
ghost use Rattle.lvm_quorum.specs.Rows.{AreRows};
ghost use Rattle.lvm_quorum.specs.Surveyed.{IsRowValid, IsSurveyValid};

use crate::tests::epochs::{
    DATA, FIRST, LARGE, LATER, NAMESAKE, NONE, OTHER, first_two, group, status,
};
use crate::tests::fixtures::{check, name_of};
use Answer::*;
use lvm_num::{Descriptor, Rows, Stamp, Status};
use lvm_quorum::{Choice, ChooseFault, Survey, SurveyRow, choose};
use lvm_rec::Homes;
use lvm_write::homes_of;
use std::process::Abort;

// What a disk shows: the group and the stamp of its records.
#[derive(Clone, Copy)]
struct Disk {
    sectors: u64,
    descriptor: Option<(u64, Stamp)>,
    status: Option<(u64, Stamp)>,
}

const EMPTY: Disk = Disk {
    sectors: LARGE,
    descriptor: None,
    status: None,
};

const MEMBER: Disk = Disk {
    sectors: LARGE,
    descriptor: Some((DATA, FIRST)),
    status: Some((DATA, FIRST)),
};

const SMALL: Disk = Disk {
    sectors: LARGE - 1,
    descriptor: Some((DATA, FIRST)),
    status: Some((DATA, FIRST)),
};

const NEWER_DESCRIPTOR: Disk = Disk {
    sectors: LARGE,
    descriptor: Some((DATA, LATER)),
    status: Some((DATA, FIRST)),
};

const NEWER_STATUS: Disk = Disk {
    sectors: LARGE,
    descriptor: Some((DATA, FIRST)),
    status: Some((DATA, LATER)),
};

// A newer status on a disk that has no descriptor, and so no vote.
const STRAY: Disk = Disk {
    sectors: LARGE,
    descriptor: None,
    status: Some((DATA, LATER)),
};

const BARE: Disk = Disk {
    sectors: LARGE,
    descriptor: Some((DATA, FIRST)),
    status: None,
};

const FOREIGN_STATUS: Disk = Disk {
    sectors: LARGE,
    descriptor: Some((DATA, FIRST)),
    status: Some((OTHER, LATER)),
};

const OTHERS: Disk = Disk {
    sectors: LARGE,
    descriptor: Some((OTHER, LATER)),
    status: Some((OTHER, LATER)),
};

const NAMESAKES: Disk = Disk {
    sectors: LARGE,
    descriptor: Some((NAMESAKE, FIRST)),
    status: None,
};

#[derive(Clone, Copy, PartialEq, Eq)]
enum Answer {
    // The stamps under which the descriptor and the status stand, which of the first four disks are voters, and
    // the greatest epoch.
    Chosen((Stamp, Stamp), [bool; 4], u64),
    Not(ChooseFault),
    // It is no survey as `choose` is given one.
    Refused,
}

// How many members `datavg` has, what the disks show, and what is answered.
static CASES: [(&str, u16, &[Disk], Answer); 22] = [
    (
        "all members are there",
        3,
        &[MEMBER, MEMBER, MEMBER, EMPTY],
        Chosen((FIRST, FIRST), [true, true, true, false], 50),
    ),
    (
        "two of three are there",
        3,
        &[EMPTY, MEMBER, MEMBER],
        Chosen((FIRST, FIRST), [false, true, true, false], 50),
    ),
    (
        "the newest records are taken and not the first",
        3,
        &[MEMBER, NEWER_DESCRIPTOR, NEWER_STATUS],
        Chosen((LATER, LATER), [true, true, true, false], 60),
    ),
    (
        "a namesake behind the group",
        3,
        &[MEMBER, MEMBER, NAMESAKES],
        Not(ChooseFault::Ambiguous),
    ),
    (
        "a namesake before the group",
        3,
        &[NAMESAKES, MEMBER, MEMBER],
        Not(ChooseFault::Ambiguous),
    ),
    (
        "a group without a status",
        3,
        &[NAMESAKES, NAMESAKES],
        Not(ChooseFault::NoRecord),
    ),
    (
        "half of four votes",
        4,
        &[MEMBER, EMPTY, MEMBER],
        Not(ChooseFault::NoQuorum { have: 2, total: 4 }),
    ),
    (
        "three of four votes",
        4,
        &[MEMBER, EMPTY, MEMBER, MEMBER],
        Chosen((FIRST, FIRST), [true, false, true, true], 50),
    ),
    (
        "the second of two disks has one vote of three",
        2,
        &[EMPTY, MEMBER],
        Not(ChooseFault::NoQuorum { have: 1, total: 3 }),
    ),
    (
        "the first of two disks has two votes of three",
        2,
        &[MEMBER, EMPTY],
        Chosen((FIRST, FIRST), [true, false, false, false], 50),
    ),
    (
        "a disk that is too small has no vote",
        3,
        &[MEMBER, MEMBER, SMALL],
        Chosen((FIRST, FIRST), [true, true, false, false], 50),
    ),
    (
        "one vote beside disks that are too small",
        3,
        &[MEMBER, SMALL, SMALL],
        Not(ChooseFault::NoQuorum { have: 1, total: 3 }),
    ),
    (
        "no voter, and so no status",
        1,
        &[SMALL],
        Not(ChooseFault::NoRecord),
    ),
    (
        "a disk of another group has no vote",
        3,
        &[MEMBER, MEMBER, OTHERS],
        Chosen((FIRST, FIRST), [true, true, false, false], 50),
    ),
    (
        "a status may be of an older epoch",
        1,
        &[NEWER_DESCRIPTOR],
        Chosen((LATER, FIRST), [true, false, false, false], 60),
    ),
    (
        "a status of no voter is seen and not taken",
        2,
        &[MEMBER, STRAY],
        Chosen((FIRST, FIRST), [true, false, false, false], 60),
    ),
    ("no disk", 3, &[], Not(ChooseFault::NoRecord)),
    (
        "no descriptor of the name",
        3,
        &[EMPTY, OTHERS],
        Not(ChooseFault::NoRecord),
    ),
    (
        "no status at all",
        3,
        &[BARE, BARE, BARE],
        Not(ChooseFault::NoRecord),
    ),
    (
        "a status of another group",
        1,
        &[FOREIGN_STATUS],
        Not(ChooseFault::NoRecord),
    ),
    (
        "a status on one voter alone",
        3,
        &[BARE, BARE, NEWER_STATUS],
        Chosen((FIRST, LATER), [true, true, true, false], 60),
    ),
    (
        "a descriptor without its first disk",
        3,
        &[EMPTY, NEWER_DESCRIPTOR, MEMBER],
        Chosen((LATER, FIRST), [false, true, true, false], 60),
    ),
];

fn row_of(rt: &(impl Abort + AllocGlobal), members: u16, disk: u16, shown: &Disk) -> SurveyRow {
    SurveyRow {
        disk,
        failed: false,
        sectors: shown.sectors,
        descriptor: shown
            .descriptor
            .map(|(id, stamp)| group(rt, members, id, stamp)),
        descriptor_stamp: stamp_of(shown.descriptor),
        status: shown.status.map(|(id, stamp)| status(rt, id, stamp)),
        status_stamp: stamp_of(shown.status),
        note: None,
        homes: [2, 2],
    }
}

fn stamp_of(shown: Option<(u64, Stamp)>) -> Stamp {
    match shown {
        Some((_, stamp)) => stamp,
        None => NONE,
    }
}

fn survey_of(rt: &(impl Abort + AllocGlobal), members: u16, disks: &[Disk]) -> Survey {
    let mut rows = Vec::new(rt.alloc());
    for (disk, shown) in (0..128).zip(disks) {
        rows.push(row_of(rt, members, disk, shown))
            .expect(rt, "memory");
    }
    Survey {
        rows: Rows::new(rows),
    }
}

// Whether it is a survey as `choose` is given one.
fn is_survey(survey: &Survey) -> bool
    ensures rows { IsTrue result → AreRows survey.now }
    ensures valid { IsTrue result → IsSurveyValid survey.now }
{
    let rows = survey.rows.as_slice();
    if rows.len() > 128 {
        return false;
    }
    for (place, row) in rows.iter().enumerate() {
        if usize::from(row.disk) != place || !is_row(row) {
            return false;
        }
    }
    true
}

fn is_row(row: &SurveyRow) -> bool
    ensures { IsTrue result → IsRowValid row.now }
{
    is_descriptor(row) && is_status(row)
}

fn is_descriptor(row: &SurveyRow) -> bool
    ensures { IsTrue result → IfSome row.now.descriptor IsValid }
{
    match &row.descriptor {
        Some(descriptor) => descriptor.is_valid(),
        None => true,
    }
}

fn is_status(row: &SurveyRow) -> bool
    ensures { IsTrue result → IfSome row.now.status IsValidStatus }
{
    match &row.status {
        Some(status) => status.is_valid(),
        None => true,
    }
}

fn descriptor_stamp(rt: &(impl Abort + AllocGlobal), members: u16, is: &Descriptor) -> Stamp {
    for stamp in [FIRST, LATER] {
        if *is == group(rt, members, DATA, stamp) {
            return stamp;
        }
    }
    NONE
}

fn status_stamp(rt: &(impl Abort + AllocGlobal), is: &Status) -> Stamp {
    for stamp in [FIRST, LATER] {
        if *is == status(rt, DATA, stamp) {
            return stamp;
        }
    }
    NONE
}

fn told(rt: &(impl Abort + AllocGlobal), members: u16, choice: &Choice) -> Answer {
    let descriptor = descriptor_stamp(rt, members, &choice.descriptor);
    let status = status_stamp(rt, &choice.status);
    let has = choice.answering;
    let voters = [has.has(0), has.has(1), has.has(2), has.has(3)];
    Chosen((descriptor, status), voters, choice.seen)
}

// What `datavg` chooses.
fn chosen(rt: &(impl Abort + AllocGlobal), members: u16, survey: &Survey) -> Answer {
    if !is_survey(survey) {
        return Refused;
    }
    let name = name_of(rt, b"datavg");
    match choose(rt.alloc(), survey, name) {
        Ok(choice) => told(rt, members, &choice),
        Err(why) => Not(why),
    }
}

#[test]
fn a_name_chooses_by_what_the_disks_show(rt: HostRuntime) {
    for (name, members, disks, answer) in &CASES {
        let survey = survey_of(&rt, *members, disks);
        check(&rt, chosen(&rt, *members, &survey) == *answer, name);
    }
}

// The homes of two disks, and the disks whose next descriptor and whose next status goes to slot 1.
static NEXT: [([[u8; 2]; 2], [[bool; 2]; 2]); 2] = [
    ([[0, 2], [1, 0]], [[true, false], [false, true]]),
    ([[2, 1], [0, 0]], [[false, true], [false, true]]),
];

fn with_homes(rt: &(impl Abort + AllocGlobal), disk: u16, homes: [u8; 2]) -> SurveyRow {
    SurveyRow {
        homes,
        ..row_of(rt, 2, disk, &EMPTY)
    }
}

fn survey_with(rt: &(impl Abort + AllocGlobal), homes: &[[u8; 2]; 2]) -> Survey {
    let mut rows = Vec::new(rt.alloc());
    for (disk, slots) in (0..2).zip(homes) {
        rows.push(with_homes(rt, disk, *slots)).expect(rt, "memory");
    }
    Survey {
        rows: Rows::new(rows),
    }
}

fn next_slots(rt: &impl Abort, survey: &Survey) -> [[bool; 2]; 2] {
    assert!(rt; is_survey(survey));
    let Homes { descriptor, status } = homes_of(survey);
    [first_two(descriptor), first_two(status)]
}

#[test]
fn the_slot_without_the_newest_record_comes_next(rt: HostRuntime) {
    for (homes, second) in &NEXT {
        let survey = survey_with(&rt, homes);
        check(&rt, next_slots(&rt, &survey) == *second, "the next slots");
    }
}
