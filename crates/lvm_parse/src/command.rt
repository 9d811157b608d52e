//! What a line asks for.

ghost use Rattle.std.specs.Prelude.{◌≡◌};

use crate::rest::Misfit;
use lvm_num::{Mode, Name, Policy, Rows};

/// What a line asks for. Blocks are of 512 bytes and counted from 0; a disk is its number, 0 to 127.
#[derive(Drop, PartialEq, Eq)]
pub enum Command {
    /// `mkvg [-f] -y NAME [-s MIB] DISK ..`: make a volume group of these disks, all different, and
    /// vary it on.
    Mkvg {
        force: bool,
        name: Name,
        /// The size of a partition in MiB, a power of two from 1 to 1,024.
        mib: Option<u16>,
        /// One disk to 128.
        disks: Rows<u16>,
    },
    /// `varyonvg [-n] NAME`: vary a volume group on.
    Varyon {
        name: Name,
    },
    /// `varyoffvg NAME`: vary it off.
    Varyoff {
        name: Name,
    },
    /// `lsvg [-l] NAME`: list the group, or with `-l` its volumes.
    Lsvg {
        volumes: bool,
        name: Name,
    },
    /// `chvg -Q y NAME`, `chvg -Q n NAME`: switch a group's quorum checking on or off.
    ChvgQuorum {
        /// On with `y`, off with `n`.
        on: bool,
        name: Name,
    },
    /// `chvg -B NAME`: make a group a big one.
    ChvgBig {
        name: Name,
    },
    /// `reducevg NAME DISK ..`: take these disks, all different, out of a group.
    Reducevg {
        name: Name,
        /// One disk to 128.
        disks: Rows<u16>,
    },
    /// `mklv -y NAME [-c N] [-w n, y, a or p] [-d p, s, ps or pr] NAME LPS`: make a logical volume in the group.
    Mklv {
        name: Name,
        /// 0 to 9; 1 where it isn't given.
        copies: u8,
        mode: Mode,
        /// Parallel where it isn't given.
        policy: Policy,
        group: Name,
        /// How many logical partitions, 1 to 65,535.
        lps: u32,
    },
    /// `rmlv [-f] NAME`: remove a volume.
    Rmlv {
        name: Name,
    },
    /// `mklvcopy NAME N`: give each logical partition of a volume so many copies, at least those it has.
    Mklvcopy {
        name: Name,
        /// 0 to 9.
        copies: u8,
    },
    /// `rmlvcopy NAME N`: leave each so many of those it has.
    Rmlvcopy {
        name: Name,
        /// 0 to 9.
        copies: u8,
    },
    /// `splitlvcopy -y NEW NAME N`: leave each so many of those it has, and make the others a volume of their own.
    Splitlvcopy {
        /// The name of the volume that is made.
        new: Name,
        /// The volume that is split.
        name: Name,
        /// 0 to 9.
        copies: u8,
    },
    /// `migratepv [-l NAME] DISK DISK`: move the copies of all volumes, or of one, from the first disk to the second.
    Migratepv {
        /// The volume whose copies are moved; None where those of all volumes are.
        volume: Option<Name>,
        /// The disk that is left.
        from: u16,
        /// Another disk.
        to: u16,
    },
    /// `syncvg -l NAME`: bring up the stale copies of a volume.
    SyncVolume {
        name: Name,
    },
    /// `syncvg -v NAME`: bring up those of a group.
    SyncGroup {
        name: Name,
    },
    /// `lslv -m NAME`: list where a volume's copies lie.
    Lslv {
        name: Name,
    },
    /// `lspv DISK`: list a member of the group.
    Lspv {
        disk: u16,
    },
    /// `rd NAME BLOCK COUNT`: read 1 to 4,096 blocks of a volume.
    Rd {
        name: Name,
        at: u64,
        count: u32,
    },
    /// `wr NAME BLOCK COUNT WORD`: write 1 to 4,096 blocks of a volume, the first filled with the word,
    /// each next one with one more.
    Wr {
        name: Name,
        at: u64,
        count: u32,
        word: u64,
    },
    /// `post NAME BLOCK COUNT WORD`: ask for such a write, and don't wait for it.
    Post {
        name: Name,
        at: u64,
        count: u32,
        word: u64,
    },
    /// `wait`: wait for the writes that were posted.
    Wait,
    /// `step TURNS`: make 1 to 1,000,000 turns.
    Step {
        turns: u32,
    },
    /// `rd DISK BLOCK COUNT`: read 1 to 4,096 blocks of a disk.
    RawRd {
        disk: u16,
        at: u64,
        count: u32,
    },
    /// `wr DISK BLOCK COUNT WORD`: write 1 to 4,096 blocks of a disk, the first filled with the word.
    RawWr {
        disk: u16,
        at: u64,
        count: u32,
        word: u64,
    },
    /// `fail DISK`: let a disk fail.
    Fail {
        disk: u16,
    },
    /// `heal DISK`: let it work again.
    Heal {
        disk: u16,
    },
    /// `cut [WORD]`: cut the power; the word, 0 where it isn't given, says which sectors of writes that
    /// were out are kept.
    Cut {
        word: u64,
    },
}

/// Why a line asks for nothing that can be done.
#[derive(Clone, Copy, PartialEq, Eq)]
pub enum ParseFault {
    /// The line isn't in the language. The column is that of its first word that doesn't fit, or the one
    /// behind its last byte where a word is lacking; columns count bytes from 1.
    BadLine { column: u32 },
    /// Want of memory for the disks of a `mkvg`.
    MkvgMemory,
    /// Want of memory for those of a `reducevg`.
    ReducevgMemory,
}

impl From<Misfit> for ParseFault {
    ghost use Rattle.lvm_parse.specs.declared.command.ParseFault.TheVariants.{BadLine};

    ghost from_gives = { λ misfit fault. fault ≡ BadLine misfit.column };

    fn from(misfit: Misfit) -> ParseFault {
        ParseFault::BadLine {
            column: misfit.column,
        }
    }
}
