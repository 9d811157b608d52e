//! What a line is answered.
ghost use Rattle.std.specs.Prelude.{◌≡◌, ◌++◌, IsTrue, IfOk, OnOk};
ghost use Rattle.std.specs.String.{string_bytes};
ghost use Rattle.lvm_show.specs.Refusals.{is_refusal};
ghost use Rattle.lvm_group_lines.specs.Refusals.{shown};
ghost use Rattle.lvm_group_lines.specs.Replies.{is_unheard, reply_text};

use lvm_num::{Memory, Text};
use lvm_show::{Carried, push_refusal, show_refusal};
use std::alloc::{AllocError, Global};

/// Why a line was not carried out, or how it failed. Each has a number and a name of this project's own.
#[derive(Drop)]
pub enum Refusal {
    /// 1: the line is not in the language, or isn't done yet; the column counts bytes from 1.
    BadLine { column: u32 },
    /// 2: no group is on, or another than the one that is named.
    NoGroup,
    /// 3: a group is on.
    GroupOn,
    /// 4: a disk is in a group, or with force in one that has a volume.
    GroupExists,
    /// 5: the shelf has no such disk, or it isn't a member of the group.
    NoDisk { disk: u16 },
    /// 6: no partition fits on the disk.
    TooSmall { disk: u16 },
    /// 7: the members that answer have so many votes of so many, too few for the group to come on.
    NoQuorum { have: u32, total: u32 },
    /// 8: the moment of the command isn't later than this one.
    ClockBack { seen: u64 },
    /// 9: a transfer of records of the disk failed; of several disks this is the lowest.
    DiskFailed { disk: u16 },
    /// 10: two groups have the name.
    Ambiguous,
    /// 11: no disk that answers shows such a group, or none of its members a status of it.
    NoRecord,
    /// 12: the group has no volume of that name.
    NoVolume,
    /// 13: the group has a volume of that name.
    VolumeExists,
    /// 14: more disks are named than a group may have, or the group has as many volumes as it may.
    TooMany { limit: u32 },
    /// 15: the partitions that are free, so many, have no place for the volume.
    NoRoom { free: u32 },
    /// 16: so many copies can't be had; the volume has so many now.
    CopyLimit { now: u8 },
    /// 17: of this logical partition a fresh copy would go, and none that can be used would stay.
    LastFresh { lp: u32 },
    /// 18: the blocks are not all within the data of the disk, which has so many sectors.
    OutOfRange { blocks: u64 },
    /// 19: a write failed, since its disk did. Each of its blocks is old or new.
    Lost,
    /// 20: a read failed, since its disk did.
    ReadFailed,
    /// 21: no copy of this logical partition, counted from 0, can be used.
    NoFresh { lp: u32 },
    /// 22: the members that can be written to have so many votes of so many, too few for the group to
    /// stay on.
    WentOff { have: u32, total: u32 },
    /// 23: the power was cut meanwhile.
    Dark,
    /// 24: the shelf had nothing to tell a million times.
    Stuck,
    /// 25: the history has no room for the command.
    HistoryFull,
    /// 26: the disk is in a group.
    InGroup { disk: u16 },
    /// 27: the shelf takes no orders.
    NoPlan,
    /// 28: a copy stayed stale, since its disk failed, which is this, or each copy that it might be read from.
    SyncFailed { disk: u16 },
    /// 29: memory ran out.
    Memory,
    /// 30: a request of the session hasn't been answered.
    Busy,
    /// 31: a copy stayed stale, since its disk is missing.
    Missing { disk: u16 },
    /// 32: so many requests are open, and there isn't room for those of the line.
    TableFull { held: u32 },
    /// 33: a volume has a partition on the disk.
    DiskInUse { disk: u16 },
    /// 34: all members are named that there are.
    LastDisk,
    /// 35: another copy of this logical partition, counted from 0, stands on the disk to which one would move.
    Strict { lp: u32 },
    /// 36: of this logical partition, counted from 0, a copy that would become one of another volume can't be used.
    StaleCopy { lp: u32 },
}

/// The answer to a line.
#[derive(Drop)]
pub enum Reply {
    /// Nothing: the line has no word, or is a remark.
    Silent,
    /// `ok`.
    Ok,
    /// `posted`.
    Posted,
    /// `stepped`, and how many turns did something.
    Stepped(u32),
    /// `synced`, and how many copies were made fresh.
    Synced(u32),
    /// `migrated`, and how many copies have moved.
    Migrated(u32),
    /// The lines of a listing, or of the blocks that were read.
    Lines(Text),
    /// The lines of a `wait`: of each post how it ended, and `ok`. So many of them are refusals.
    Answers { text: Text, refused: u32 },
    /// `refused`, with the refusal's number, its name and what it carries.
    Refused(Refusal),
}

impl Reply {
    /// Whether nothing was heard of a transfer.
    pub fn is_unheard(&self) -> bool
        ensures { result ≡ is_unheard self.now }
    {
        match self {
            Reply::Refused(Refusal::Stuck) => true,
            _ => false,
        }
    }
}

// A refusal by its number and what it carries.
fn shown(refusal: &Refusal) -> lvm_show::Refusal
    ensures same { result ≡ shown refusal.now }
    ensures refusal { IsTrue (is_refusal result) }
{
    let (number, carried) = match refusal {
        Refusal::BadLine { column } => (1, Carried::Number(u64::from(*column))),
        Refusal::NoGroup => (2, Carried::Nothing),
        Refusal::GroupOn => (3, Carried::Nothing),
        Refusal::GroupExists => (4, Carried::Nothing),
        Refusal::NoDisk { disk } => (5, Carried::Disk(*disk)),
        Refusal::TooSmall { disk } => (6, Carried::Disk(*disk)),
        Refusal::NoQuorum { have, total } => (
            7,
            Carried::Votes {
                have: *have,
                total: *total,
            },
        ),
        Refusal::ClockBack { seen } => (8, Carried::Number(*seen)),
        Refusal::DiskFailed { disk } => (9, Carried::Disk(*disk)),
        Refusal::Ambiguous => (10, Carried::Nothing),
        Refusal::NoRecord => (11, Carried::Nothing),
        Refusal::NoVolume => (12, Carried::Nothing),
        Refusal::VolumeExists => (13, Carried::Nothing),
        Refusal::TooMany { limit } => (14, Carried::Number(u64::from(*limit))),
        Refusal::NoRoom { free } => (15, Carried::Number(u64::from(*free))),
        Refusal::CopyLimit { now } => (16, Carried::Number(u64::from(*now))),
        Refusal::LastFresh { lp } => (17, Carried::Lp(*lp)),
        Refusal::OutOfRange { blocks } => (18, Carried::Number(*blocks)),
        Refusal::Lost => (19, Carried::Nothing),
        Refusal::ReadFailed => (20, Carried::Nothing),
        Refusal::NoFresh { lp } => (21, Carried::Lp(*lp)),
        Refusal::WentOff { have, total } => (
            22,
            Carried::Votes {
                have: *have,
                total: *total,
            },
        ),
        Refusal::Dark => (23, Carried::Nothing),
        Refusal::Stuck => (24, Carried::Nothing),
        Refusal::HistoryFull => (25, Carried::Nothing),
        Refusal::InGroup { disk } => (26, Carried::Disk(*disk)),
        Refusal::NoPlan => (27, Carried::Nothing),
        Refusal::SyncFailed { disk } => (28, Carried::Disk(*disk)),
        Refusal::Memory => (29, Carried::Nothing),
        Refusal::Busy => (30, Carried::Nothing),
        Refusal::Missing { disk } => (31, Carried::Disk(*disk)),
        Refusal::TableFull { held } => (32, Carried::Number(u64::from(*held))),
        Refusal::DiskInUse { disk } => (33, Carried::Disk(*disk)),
        Refusal::LastDisk => (34, Carried::Nothing),
        Refusal::Strict { lp } => (35, Carried::Lp(*lp)),
        Refusal::StaleCopy { lp } => (36, Carried::Lp(*lp)),
    };
    lvm_show::Refusal { number, carried }
}

/// Adds the line of a refusal to a text.
pub fn push_refusal_line(text: &mut String, why: &Refusal) -> Result<(), AllocError>
    ensures { OnOk result (string_bytes text.new ≡ string_bytes text.old ++ reply_text (Reply.Refused why.now)) }
{
    push_refusal(text, &shown(why))
}

/// The line of a refusal.
pub fn refusal_line(alloc: Global, why: &Refusal) -> Result<Text, Memory>
    ensures { IfOk result (λ text. text ≡ reply_text (Reply.Refused why.now)) }
{
    show_refusal(alloc, &shown(why))
}

/// The line that is written where that of a refusal finds no memory.
pub fn memory_text() -> &'static [u8]
    ensures { result.now ≡ reply_text (Reply.Refused Refusal.Memory) }
{
    b"refused 29 Memory\n"
}
