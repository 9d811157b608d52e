//! The lines of the language: each rule reads what follows the line's first word.
ghost use Rattle.std.specs.Prelude.{◌≡◌};
ghost use Rattle.lvm_parse.specs.Grammar.{rd_disk, rd_volume, rd, wr_disk, wr_volume, wr, post, wait, step, fail, heal, lspv, cut, new_group, mkvg, varyonvg, varyoffvg, lsvg, chvg_quorum, chvg_big, chvg, leaving, reducevg, new_volume, mklv, rmlv, mklvcopy, rmlvcopy, split_of, splitlvcopy, moved_between, moved_of, migratepv, sync_group, syncvg, lslv};
ghost use Rattle.lvm_parse.specs.Rests.{left};
ghost use Rattle.lvm_parse.specs.Answering.{Answers};

use crate::chosen::{MklvOptions, MkvgOptions};
use crate::command::{Command, ParseFault};
use crate::disk_list::disks;
use crate::operands::{
    disk, ends, is_disk_next, last_copies, last_disk, last_name, last_other_disk, last_partitions,
    last_pattern, last_turns, misfit, name, next_column, option, switch,
};
use crate::options::{mklv_options, mkvg_options};
use crate::range::{blocks, last_blocks};
use crate::rest::{Misfit, Rest};
use crate::scan::next_word;
use lvm_num::{Mode, Name, Policy, Rows};
use std::alloc::Global;

// `rd DISK BLOCK COUNT`
fn rd_disk(rest: Rest<'_>) -> Result<Command, Misfit>
    ensures { result ≡ rd_disk (left rest.entry) }
{
    let (disk, rest) = disk(rest)?;
    let range = last_blocks(rest)?;
    Ok(Command::RawRd {
        disk,
        at: range.at,
        count: range.count,
    })
}

// `rd NAME BLOCK COUNT`
fn rd_volume(rest: Rest<'_>) -> Result<Command, Misfit>
    ensures { result ≡ rd_volume (left rest.entry) }
{
    match name(rest) {
        Ok((name, rest)) => {
            let range = last_blocks(rest)?;
            Ok(Command::Rd {
                name,
                at: range.at,
                count: range.count,
            })
        }
        Err(misfit) => Err(misfit),
    }
}

/// `rd DISK BLOCK COUNT` and `rd NAME BLOCK COUNT`
pub fn rd(rest: Rest<'_>) -> Result<Command, Misfit>
    ensures { result ≡ rd (left rest.entry) }
{
    if is_disk_next(rest) {
        rd_disk(rest)
    } else {
        rd_volume(rest)
    }
}

// `wr DISK BLOCK COUNT WORD`
fn wr_disk(rest: Rest<'_>) -> Result<Command, Misfit>
    ensures { result ≡ wr_disk (left rest.entry) }
{
    let (disk, rest) = disk(rest)?;
    let (range, rest) = blocks(rest)?;
    let word = last_pattern(rest)?;
    Ok(Command::RawWr {
        disk,
        at: range.at,
        count: range.count,
        word,
    })
}

// `wr NAME BLOCK COUNT WORD`
fn wr_volume(rest: Rest<'_>) -> Result<Command, Misfit>
    ensures { result ≡ wr_volume (left rest.entry) }
{
    match name(rest) {
        Ok((name, rest)) => {
            let (range, rest) = blocks(rest)?;
            let word = last_pattern(rest)?;
            Ok(Command::Wr {
                name,
                at: range.at,
                count: range.count,
                word,
            })
        }
        Err(misfit) => Err(misfit),
    }
}

/// `wr DISK BLOCK COUNT WORD` and `wr NAME BLOCK COUNT WORD`
pub fn wr(rest: Rest<'_>) -> Result<Command, Misfit>
    ensures { result ≡ wr (left rest.entry) }
{
    if is_disk_next(rest) {
        wr_disk(rest)
    } else {
        wr_volume(rest)
    }
}

/// `post NAME BLOCK COUNT WORD`
pub fn post(rest: Rest<'_>) -> Result<Command, Misfit>
    ensures { result ≡ post (left rest.entry) }
{
    match name(rest) {
        Ok((name, rest)) => {
            let (range, rest) = blocks(rest)?;
            let word = last_pattern(rest)?;
            Ok(Command::Post {
                name,
                at: range.at,
                count: range.count,
                word,
            })
        }
        Err(misfit) => Err(misfit),
    }
}

/// `wait`
pub fn wait(rest: Rest<'_>) -> Result<Command, Misfit>
    ensures { result ≡ wait (left rest.entry) }
{
    ends(rest, Command::Wait)
}

/// `step TURNS`
pub fn step(rest: Rest<'_>) -> Result<Command, Misfit>
    ensures { result ≡ step (left rest.entry) }
{
    let turns = last_turns(rest)?;
    Ok(Command::Step { turns })
}

/// `fail DISK`
pub fn fail(rest: Rest<'_>) -> Result<Command, Misfit>
    ensures { result ≡ fail (left rest.entry) }
{
    let disk = last_disk(rest)?;
    Ok(Command::Fail { disk })
}

/// `heal DISK`
pub fn heal(rest: Rest<'_>) -> Result<Command, Misfit>
    ensures { result ≡ heal (left rest.entry) }
{
    let disk = last_disk(rest)?;
    Ok(Command::Heal { disk })
}

/// `lspv DISK`
pub fn lspv(rest: Rest<'_>) -> Result<Command, Misfit>
    ensures { result ≡ lspv (left rest.entry) }
{
    let disk = last_disk(rest)?;
    Ok(Command::Lspv { disk })
}

/// `cut [WORD]`
pub fn cut(rest: Rest<'_>) -> Result<Command, Misfit>
    ensures { result ≡ cut (left rest.entry) }
{
    if next_word(rest).is_none() {
        return Ok(Command::Cut { word: 0 });
    }
    let word = last_pattern(rest)?;
    Ok(Command::Cut { word })
}

/// `varyonvg [-n] NAME`
pub fn varyonvg(rest: Rest<'_>) -> Result<Command, Misfit>
    ensures { result ≡ varyonvg (left rest.entry) }
{
    let (_, rest) = option(rest, b"-n");
    let name = last_name(rest)?;
    Ok(Command::Varyon { name })
}

/// `varyoffvg NAME`
pub fn varyoffvg(rest: Rest<'_>) -> Result<Command, Misfit>
    ensures { result ≡ varyoffvg (left rest.entry) }
{
    let name = last_name(rest)?;
    Ok(Command::Varyoff { name })
}

/// `lsvg [-l] NAME`
pub fn lsvg(rest: Rest<'_>) -> Result<Command, Misfit>
    ensures { result ≡ lsvg (left rest.entry) }
{
    let (volumes, rest) = option(rest, b"-l");
    let name = last_name(rest)?;
    Ok(Command::Lsvg { volumes, name })
}

/// `rmlv [-f] NAME`
pub fn rmlv(rest: Rest<'_>) -> Result<Command, Misfit>
    ensures { result ≡ rmlv (left rest.entry) }
{
    let (_, rest) = option(rest, b"-f");
    let name = last_name(rest)?;
    Ok(Command::Rmlv { name })
}

/// `mklvcopy NAME N`
pub fn mklvcopy(rest: Rest<'_>) -> Result<Command, Misfit>
    ensures { result ≡ mklvcopy (left rest.entry) }
{
    match name(rest) {
        Ok((name, rest)) => {
            let copies = last_copies(rest)?;
            Ok(Command::Mklvcopy { name, copies })
        }
        Err(misfit) => Err(misfit),
    }
}

/// `rmlvcopy NAME N`
pub fn rmlvcopy(rest: Rest<'_>) -> Result<Command, Misfit>
    ensures { result ≡ rmlvcopy (left rest.entry) }
{
    match name(rest) {
        Ok((name, rest)) => {
            let copies = last_copies(rest)?;
            Ok(Command::Rmlvcopy { name, copies })
        }
        Err(misfit) => Err(misfit),
    }
}

// What follows the option of a `splitlvcopy`, and its value.
fn split_of(rest: Rest<'_>) -> Result<Command, Misfit>
    ensures { result ≡ split_of (left rest.entry) }
{
    match name(rest) {
        Ok((new, rest)) => match name(rest) {
            Ok((name, rest)) => {
                let copies = last_copies(rest)?;
                Ok(Command::Splitlvcopy { new, name, copies })
            }
            Err(misfit) => Err(misfit),
        },
        Err(misfit) => Err(misfit),
    }
}

/// `splitlvcopy -y NEW NAME N`
pub fn splitlvcopy(rest: Rest<'_>) -> Result<Command, Misfit>
    ensures { result ≡ splitlvcopy (left rest.entry) }
{
    let (named, rest) = option(rest, b"-y");
    if !named {
        return Err(misfit(next_column(rest)));
    }
    split_of(rest)
}

// What follows the option of a `migratepv` that moves the copies of this volume, or of all.
fn moved_between(volume: Option<Name>, rest: Rest<'_>) -> Result<Command, Misfit>
    ensures { result ≡ moved_between volume (left rest.entry) }
{
    let (from, rest) = disk(rest)?;
    let to = last_other_disk(rest, from)?;
    Ok(Command::Migratepv { volume, from, to })
}

// What follows the option of a `migratepv -l NAME DISK DISK`.
fn moved_of(rest: Rest<'_>) -> Result<Command, Misfit>
    ensures { result ≡ moved_of (left rest.entry) }
{
    match name(rest) {
        Ok((name, rest)) => moved_between(Some(name), rest),
        Err(misfit) => Err(misfit),
    }
}

/// `migratepv [-l NAME] DISK DISK`
pub fn migratepv(rest: Rest<'_>) -> Result<Command, Misfit>
    ensures { result ≡ migratepv (left rest.entry) }
{
    let (named, rest) = option(rest, b"-l");
    if named {
        moved_of(rest)
    } else {
        moved_between(None, rest)
    }
}

// `syncvg -v NAME`
fn sync_group(rest: Rest<'_>) -> Result<Command, Misfit>
    ensures { result ≡ sync_group (left rest.entry) }
{
    let (group, rest) = option(rest, b"-v");
    if !group {
        return Err(misfit(next_column(rest)));
    }
    let name = last_name(rest)?;
    Ok(Command::SyncGroup { name })
}

/// `syncvg -l NAME` and `syncvg -v NAME`
pub fn syncvg(rest: Rest<'_>) -> Result<Command, Misfit>
    ensures { result ≡ syncvg (left rest.entry) }
{
    let (volume, rest) = option(rest, b"-l");
    if !volume {
        return sync_group(rest);
    }
    let name = last_name(rest)?;
    Ok(Command::SyncVolume { name })
}

/// `lslv -m NAME`
pub fn lslv(rest: Rest<'_>) -> Result<Command, Misfit>
    ensures { result ≡ lslv (left rest.entry) }
{
    let (map, rest) = option(rest, b"-m");
    if !map {
        return Err(misfit(next_column(rest)));
    }
    let name = last_name(rest)?;
    Ok(Command::Lslv { name })
}

// What follows the option of a `chvg -Q V NAME`.
fn chvg_quorum(rest: Rest<'_>) -> Result<Command, Misfit>
    ensures { result ≡ chvg_quorum (left rest.entry) }
{
    let (on, rest) = switch(rest)?;
    let name = last_name(rest)?;
    Ok(Command::ChvgQuorum { on, name })
}

// `chvg -B NAME`
fn chvg_big(rest: Rest<'_>) -> Result<Command, Misfit>
    ensures { result ≡ chvg_big (left rest.entry) }
{
    let (big, rest) = option(rest, b"-B");
    if !big {
        return Err(misfit(next_column(rest)));
    }
    let name = last_name(rest)?;
    Ok(Command::ChvgBig { name })
}

/// `chvg -Q V NAME` and `chvg -B NAME`
pub fn chvg(rest: Rest<'_>) -> Result<Command, Misfit>
    ensures { result ≡ chvg (left rest.entry) }
{
    let (quorum, rest) = option(rest, b"-Q");
    if quorum {
        chvg_quorum(rest)
    } else {
        chvg_big(rest)
    }
}

/// `mklv -y NAME [-c N] [-w n, y or a] [-d p, s, ps or pr] NAME LPS`
pub fn mklv(rest: Rest<'_>) -> Result<Command, Misfit>
    ensures { result ≡ mklv (left rest.entry) }
{
    match mklv_options(rest) {
        Ok((options, rest)) => new_volume(options, rest),
        Err(misfit) => Err(misfit),
    }
}

// What follows the options of a `mklv`.
fn new_volume(options: MklvOptions, rest: Rest<'_>) -> Result<Command, Misfit>
    ensures { result ≡ new_volume options (left rest.entry) }
{
    let Some(volume) = options.name else {
        return Err(misfit(next_column(rest)));
    };
    match name(rest) {
        Ok((group, rest)) => {
            let lps = last_partitions(rest)?;
            Ok(Command::Mklv {
                name: volume,
                copies: options.copies.unwrap_or(1),
                mode: options.mode.unwrap_or(Mode::Active),
                policy: options.policy.unwrap_or(Policy::Parallel),
                group,
                lps,
            })
        }
        Err(misfit) => Err(misfit),
    }
}

/// `mkvg [-f] -y NAME [-s MIB] DISK ..`
pub fn mkvg(alloc: Global, rest: Rest<'_>) -> Result<Command, ParseFault>
    ensures { Answers (mkvg (left rest.entry)) result }
{
    match mkvg_options(rest) {
        Ok((options, rest)) => new_group(alloc, options, rest),
        Err(misfit) => Err(ParseFault::from(misfit)),
    }
}

// What follows the options of a `mkvg`.
fn new_group(alloc: Global, options: MkvgOptions, rest: Rest<'_>) -> Result<Command, ParseFault>
    ensures { Answers (new_group options (left rest.entry)) result }
{
    let Some(name) = options.name else {
        return Err(ParseFault::from(misfit(next_column(rest))));
    };
    let disks = disks(rest)?;
    match Vec::from_slice(alloc, disks.as_slice()) {
        Ok(disks) => Ok(Command::Mkvg {
            force: options.force,
            name,
            mib: options.mib,
            disks: Rows::new(disks),
        }),
        Err(_) => Err(ParseFault::MkvgMemory),
    }
}

/// `reducevg NAME DISK ..`
pub fn reducevg(alloc: Global, rest: Rest<'_>) -> Result<Command, ParseFault>
    ensures { Answers (reducevg (left rest.entry)) result }
{
    match name(rest) {
        Ok((name, rest)) => leaving(alloc, name, rest),
        Err(misfit) => Err(ParseFault::from(misfit)),
    }
}

// What follows the name of a `reducevg`.
fn leaving(alloc: Global, name: Name, rest: Rest<'_>) -> Result<Command, ParseFault>
    ensures { Answers (leaving name (left rest.entry)) result }
{
    let disks = disks(rest)?;
    match Vec::from_slice(alloc, disks.as_slice()) {
        Ok(disks) => Ok(Command::Reducevg {
            name,
            disks: Rows::new(disks),
        }),
        Err(_) => Err(ParseFault::ReducevgMemory),
    }
}
