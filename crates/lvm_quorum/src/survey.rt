//! Reading the records of all disks of a shelf.
ghost use Rattle.std.specs.Prelude.{◌≡◌, ℕ, ◌<◌, length, false};
ghost use Rattle.lvm_quorum.specs.passed.Transfer.{IsReady, IsUntouched, OnlyReads};
ghost use Rattle.lvm_quorum.specs.Rows.{AreRows};
ghost use Rattle.lvm_quorum.specs.Surveyed.{IsEmpty, IsRowValid, IsSurveyValid};
ghost use Rattle.lvm_quorum.specs.Reading.{IsAreaValid};
ghost use Rattle.lvm_quorum.specs.Surveying.{AreHomes, DiskGives, IfSurveyed, IsRowOfArea, IsSmall, RowGives, RowsGive, SurveyEnds};

use crate::area::{RecordArea, read_area};
use crate::below::{Patience, Shelf, Stop, Unread, read_note};
use crate::row::{Survey, SurveyRow};
use lvm_num::{DATA_START, Pbuf, Rows, Stamp};
use std::alloc::Global;

const NO_STAMP: Stamp = Stamp { epoch: 0, seq: 0 };

/// How a survey ended. The buffer comes back where nothing is out and the power is on.
#[derive(Drop)]
pub enum Surveyed {
    /// All disks have their rows.
    Ended { survey: Survey, buf: Pbuf },
    /// The power was cut, and is off.
    Dark,
    /// Nothing was heard of a read until the patience had run out.
    Stuck,
    /// Want of memory.
    Memory { buf: Pbuf },
}

/// Reads the records of each disk, in the order of their numbers: the two slots of descriptors, those of
/// statuses, and the note, by 13 reads of at most 256 sectors. After a failed read the rest of that disk
/// is left out. No write is started. The buffer is used for each read.
pub fn survey_disks<S: Shelf>(
    alloc: Global,
    shelf: &mut S,
    buf: Pbuf,
    patience: &mut Patience,
) -> Surveyed
    requires ready { IsReady (S.device shelf.old) }
    ensures ends { SurveyEnds buf.number patience.old.left (S.device shelf.old) (S.device shelf.new) result }
    ensures rows { IfSurveyed result AreRows }
    ensures valid { IfSurveyed result IsSurveyValid }
    // Disks without records aren't read.
    ensures small { (d : ℕ) → IsSmall (S.device shelf.old) d → IsUntouched d (S.device shelf.old) (S.device shelf.new) }
    ensures only { OnlyReads patience.old.left patience.new.left (S.device shelf.old) (S.device shelf.new) }
{
    match survey_rows(alloc, shelf, buf, patience) {
        Ok((rows, buf)) => Surveyed::Ended {
            survey: Survey {
                rows: Rows::new(rows),
            },
            buf,
        },
        Err(Stop::Memory(buf)) => Surveyed::Memory { buf },
        Err(Stop::Dark) => Surveyed::Dark,
        Err(Stop::Stuck) => Surveyed::Stuck,
    }
}

// The rows of all disks.
fn survey_rows<S: Shelf>(
    alloc: Global,
    shelf: &mut S,
    buf: Pbuf,
    patience: &mut Patience,
) -> Result<(Vec<SurveyRow>, Pbuf), Stop>
    requires ready { IsReady (S.device shelf.old) }
    ensures only { OnlyReads patience.old.left patience.new.left (S.device shelf.old) (S.device shelf.new) }
    ensures small { (d : ℕ) → IsSmall (S.device shelf.old) d → IsUntouched d (S.device shelf.old) (S.device shelf.new) }
    ensures gives { RowsGive buf.number patience.old.left (S.device shelf.old) (S.device shelf.new) result }
{
    let mut rows = Vec::new(alloc);
    let mut back = buf;
    for disk in 0..shelf.disks() {
        back = add_row(alloc, shelf, disk, &mut rows, back, patience)?;
    }
    Ok((rows, back))
}

// Surveys a disk, and adds its row.
fn add_row<S: Shelf>(
    alloc: Global,
    shelf: &mut S,
    disk: u16,
    rows: &mut Vec<SurveyRow>,
    buf: Pbuf,
    patience: &mut Patience,
) -> Result<Pbuf, Stop>
    requires ready { IsReady (S.device shelf.old) }
    requires there { disk < length (S.device shelf.old).sizes }
    ensures only { OnlyReads patience.old.left patience.new.left (S.device shelf.old) (S.device shelf.new) }
    ensures elsewhere { (d : ℕ) → (d ≡ disk → IsSmall (S.device shelf.old) d) → IsUntouched d (S.device shelf.old) (S.device shelf.new) }
    ensures gives { RowGives disk buf.number patience.old.left (S.device shelf.old) (S.device shelf.new) rows.old.items rows.new.items result }
{
    let (row, back) = survey_disk(alloc, shelf, disk, buf, patience)?;
    match rows.push(row) {
        Ok(()) => Ok(back),
        Err(_) => Err(Stop::Memory(back)),
    }
}

// The row of a disk.
fn survey_disk<S: Shelf>(
    alloc: Global,
    shelf: &mut S,
    disk: u16,
    buf: Pbuf,
    patience: &mut Patience,
) -> Result<(SurveyRow, Pbuf), Stop>
    requires ready { IsReady (S.device shelf.old) }
    requires there { disk < length (S.device shelf.old).sizes }
    ensures only { OnlyReads patience.old.left patience.new.left (S.device shelf.old) (S.device shelf.new) }
    ensures elsewhere { (d : ℕ) → (d ≡ disk → IsSmall (S.device shelf.old) d) → IsUntouched d (S.device shelf.old) (S.device shelf.new) }
    ensures gives { DiskGives disk buf.number patience.old.left (S.device shelf.old) (S.device shelf.new) result }
{
    let sectors = shelf.sectors(disk);
    if sectors < DATA_START {
        return Ok((empty_row(disk, sectors, false), buf));
    }
    match read_area(alloc, shelf, disk, buf, patience) {
        Ok((area, back)) => Ok((row_of(disk, sectors, area), back)),
        Err(Unread::Failed(back)) => Ok((empty_row(disk, sectors, true), back)),
        Err(Unread::Stopped(why)) => Err(why),
    }
}

// The row of a disk on which nothing was found.
fn empty_row(disk: u16, sectors: u64, failed: bool) -> SurveyRow
    ensures is { (result.disk ≡ disk) × (result.sectors ≡ sectors) × (result.failed ≡ failed) }
    ensures empty { IsEmpty result }
    ensures valid { IsRowValid result }
    ensures homes { AreHomes result }
{
    SurveyRow {
        disk,
        failed,
        sectors,
        descriptor: None,
        descriptor_stamp: NO_STAMP,
        status: None,
        status_stamp: NO_STAMP,
        note: None,
        homes: [2, 2],
    }
}

// The row of a disk on which these records stand.
fn row_of(disk: u16, sectors: u64, area: RecordArea) -> SurveyRow
    requires { IsAreaValid area }
    ensures is { (result.disk ≡ disk) × (result.sectors ≡ sectors) × (result.failed ≡ false) }
    ensures found { IsRowOfArea area result }
    ensures valid { IsRowValid result }
    ensures homes { AreHomes result }
{
    let RecordArea {
        descriptor,
        status,
        note,
    } = area;
    SurveyRow {
        disk,
        failed: false,
        sectors,
        descriptor: descriptor.value,
        descriptor_stamp: descriptor.stamp,
        status: status.value,
        status_stamp: status.stamp,
        note: read_note(&note),
        homes: [descriptor.home, status.home],
    }
}
