//! The lines of refusals.
ghost use Rattle.std.specs.Prelude.{◌≡◌, ◌++◌, IsTrue, OnOk, IfOk};
ghost use Rattle.std.specs.String.{string_bytes};
ghost use Rattle.lvm_show.specs.Refusals.{is_refusal, name_of, refusal_text};

use lvm_num::{Memory, Text};
use std::alloc::{AllocError, Global};
use std::fmt;

// The bytes of the longest lines of refusals, but for large numbers.
const LINE: usize = 32;

/// What a refusal carries.
#[derive(Clone, Copy, Drop)]
pub enum Carried {
    Nothing,
    /// A column, a moment, a count of blocks, partitions, copies or open requests, or a limit.
    Number(u64),
    /// The votes that are there, and all votes.
    Votes { have: u32, total: u32 },
    /// The number of a disk.
    Disk(u16),
    /// A logical partition, counted from 0; it is printed from 1.
    Lp(u32),
}

/// Why a command was not carried out, or how it failed: a number, which has a name, and what it carries.
#[derive(Clone, Copy, Drop)]
pub struct Refusal {
    /// 1 to 36.
    pub number: u8,
    pub carried: Carried,
}

/// `refused`, the number of a refusal, its name and what it carries, with a blank in front of each.
pub fn show_refusal(alloc: Global, r: &Refusal) -> Result<Text, Memory>
    requires { IsTrue (is_refusal r.now) }
    ensures { IfOk result (λ text. text ≡ refusal_text r.now) }
{
    let mut text = String::with_capacity(alloc, LINE)?;
    push_refusal(&mut text, r)?;
    Ok(Text::new(text))
}

/// Adds such a line to a text.
pub fn push_refusal(text: &mut String, r: &Refusal) -> Result<(), AllocError>
    requires { IsTrue (is_refusal r.now) }
    ensures { OnOk result (string_bytes text.new ≡ string_bytes text.old ++ refusal_text r.now) }
{
    let number = r.number;
    let name = name_of(number);
    let carried = r.carried;
    write!(text, "refused {number} {name}{carried}\n")
}

// The name of a refusal by its number, and no text for a number that none has.
fn name_of(number: u8) -> &'static str
    ensures { result.now ≡ name_of number }
{
    match number {
        0 => "",
        1 => "BadLine",
        2 => "NoGroup",
        3 => "GroupOn",
        4 => "GroupExists",
        5 => "NoDisk",
        6 => "TooSmall",
        7 => "NoQuorum",
        8 => "ClockBack",
        9 => "DiskFailed",
        10 => "Ambiguous",
        11 => "NoRecord",
        12 => "NoVolume",
        13 => "VolumeExists",
        14 => "TooMany",
        15 => "NoRoom",
        16 => "CopyLimit",
        17 => "LastFresh",
        18 => "OutOfRange",
        19 => "Lost",
        20 => "ReadFailed",
        21 => "NoFresh",
        22 => "WentOff",
        23 => "Dark",
        24 => "Stuck",
        25 => "HistoryFull",
        26 => "InGroup",
        27 => "NoPlan",
        28 => "SyncFailed",
        29 => "Memory",
        30 => "Busy",
        31 => "Missing",
        32 => "TableFull",
        33 => "DiskInUse",
        34 => "LastDisk",
        35 => "Strict",
        36 => "StaleCopy",
        37..=u8::MAX => "",
    }
}

impl fmt::Display for Carried {
    ghost use Rattle.std.specs.Prelude.{Some};
    ghost use Rattle.lvm_show.specs.Refusals.{carried_text};

    ghost output = { λ c. Some (carried_text c) };

    fn fmt<W: fmt::Write>(&self, f: &mut fmt::Formatter<W>) -> fmt::Result {
        match self {
            Carried::Nothing => Ok(()),
            Carried::Number(number) => write!(f, " {number}"),
            Carried::Votes { have, total } => write!(f, " {have} {total}"),
            Carried::Disk(disk) => write!(f, " hdisk{disk}"),
            Carried::Lp(lp) => {
                let number = u64::from(*lp) + 1;
                write!(f, " {number}")
            }
        }
    }
}
