//! Options in any order, each at most once.
ghost use Rattle.std.specs.Prelude.{◌≡◌, ◌<◌, Ok, Err};
ghost use Rattle.lvm_parse.specs.Reading.{is_new, options};
ghost use Rattle.lvm_parse.specs.Options.{mkvg_choice, no_mkvg_options, mklv_choice, no_mklv_options};
ghost use Rattle.lvm_parse.specs.Rests.{left, ReadsAlike, ReadsOption};

use crate::chosen::{MklvOptions, MkvgOptions};
use crate::operands::{copies, mode, name, policy, size};
use crate::rest::{Misfit, Rest};
use crate::scan::next_word;

// The word is this option, which didn't stand before.
#[tactic(auto, unfolding(crate::specs::Reading::is_new))]
fn is_new(word: &[u8], name: &[u8], stood: bool) -> bool
    ensures { result ≡ is_new word.now name.now stood }
{
    word == name && !stood
}

// Reads the next option of a `mkvg`, if one is next; what follows it.
fn mkvg_option<'a>(options: &mut MkvgOptions, rest: Rest<'a>) -> Result<Option<Rest<'a>>, Misfit>
    ensures { ReadsOption mkvg_choice options.old options.new (left rest.entry) result }
{
    let Some((word, behind)) = next_word(rest) else {
        return Ok(None);
    };
    if is_new(word.bytes, b"-f", options.force) {
        options.force = true;
        return Ok(Some(behind));
    }
    if is_new(word.bytes, b"-y", options.name.is_some()) {
        return match name(behind) {
            Ok((name, behind)) => {
                options.name = Some(name);
                Ok(Some(behind))
            }
            Err(misfit) => Err(misfit),
        };
    }
    if is_new(word.bytes, b"-s", options.mib.is_some()) {
        return match size(behind) {
            Ok((mib, behind)) => {
                options.mib = Some(mib);
                Ok(Some(behind))
            }
            Err(misfit) => Err(misfit),
        };
    }
    Ok(None)
}

/// The options of a `mkvg` that come next, and what follows them.
pub fn mkvg_options(rest: Rest<'_>) -> Result<(MkvgOptions, Rest<'_>), Misfit>
    ensures { ReadsAlike (options mkvg_choice no_mkvg_options (left rest.entry)) result }
{
    let mut options = MkvgOptions {
        force: false,
        name: None,
        mib: None,
    };
    let mut rest = rest;
    'options: while let Some(behind) = mkvg_option(&mut options, rest)? {
        rest = behind;
    }
    Ok((options, rest))
}

// Reads the next option of a `mklv`, if one is next; what follows it.
fn mklv_option<'a>(options: &mut MklvOptions, rest: Rest<'a>) -> Result<Option<Rest<'a>>, Misfit>
    ensures { ReadsOption mklv_choice options.old options.new (left rest.entry) result }
{
    let Some((word, behind)) = next_word(rest) else {
        return Ok(None);
    };
    if is_new(word.bytes, b"-y", options.name.is_some()) {
        return match name(behind) {
            Ok((name, behind)) => {
                options.name = Some(name);
                Ok(Some(behind))
            }
            Err(misfit) => Err(misfit),
        };
    }
    if is_new(word.bytes, b"-c", options.copies.is_some()) {
        return match copies(behind) {
            Ok((copies, behind)) => {
                options.copies = Some(copies);
                Ok(Some(behind))
            }
            Err(misfit) => Err(misfit),
        };
    }
    if is_new(word.bytes, b"-w", options.mode.is_some()) {
        return match mode(behind) {
            Ok((mode, behind)) => {
                options.mode = Some(mode);
                Ok(Some(behind))
            }
            Err(misfit) => Err(misfit),
        };
    }
    if is_new(word.bytes, b"-d", options.policy.is_some()) {
        return match policy(behind) {
            Ok((policy, behind)) => {
                options.policy = Some(policy);
                Ok(Some(behind))
            }
            Err(misfit) => Err(misfit),
        };
    }
    Ok(None)
}

/// The options of a `mklv` that come next, and what follows them.
pub fn mklv_options(rest: Rest<'_>) -> Result<(MklvOptions, Rest<'_>), Misfit>
    ensures { ReadsAlike (options mklv_choice no_mklv_options (left rest.entry)) result }
{
    let mut options = MklvOptions {
        name: None,
        copies: None,
        mode: None,
        policy: None,
    };
    let mut rest = rest;
    'options: while let Some(behind) = mklv_option(&mut options, rest)? {
        rest = behind;
    }
    Ok((options, rest))
}
