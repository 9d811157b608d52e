//! A line as a whole.
ghost use Rattle.std.specs.Prelude.{◌≡◌, ◌↔◌, ℕ, IfOk, Ok, Err};
ghost use Rattle.lvm_parse.specs.Reading.{misfit};
ghost use Rattle.lvm_parse.specs.Grammar.{rows_of_disks, rows_of_requests, rows_of_volumes, rows_of_groups, rows, rule, line_of_words, line_of};
ghost use Rattle.lvm_parse.specs.Rests.{left};
ghost use Rattle.lvm_parse.specs.Answering.{Answers, AnswersLine, IsMkvgLine, IsReducevgLine};

use crate::command::{Command, ParseFault};
use crate::operands::misfit;
use crate::operands_line::{is_remark, unreadable_at};
use crate::rest::{Misfit, Rest, Word};
use crate::rules::{
    chvg, cut, fail, heal, lslv, lspv, lsvg, migratepv, mklv, mklvcopy, mkvg, post, rd, reducevg,
    rmlv, rmlvcopy, splitlvcopy, step, syncvg, varyoffvg, varyonvg, wait, wr,
};
use crate::scan::next_word;
use std::alloc::Global;

// What a line asks for whose first word this is, where it is one of those of disks.
fn disk_command(word: Word<'_>, rest: Rest<'_>) -> Result<Command, Misfit>
    ensures { result ≡ rule rows_of_disks word.entry.bytes.now word.entry.column (left rest.entry) }
{
    let name = word.bytes;
    if name == b"lspv".as_slice() {
        lspv(rest)
    } else if name == b"fail".as_slice() {
        fail(rest)
    } else if name == b"heal".as_slice() {
        heal(rest)
    } else if name == b"cut".as_slice() {
        cut(rest)
    } else {
        Err(misfit(word.column))
    }
}

// So of requests.
fn request_command(word: Word<'_>, rest: Rest<'_>) -> Result<Command, Misfit>
    ensures { result ≡ rule rows_of_requests word.entry.bytes.now word.entry.column (left rest.entry) }
{
    let name = word.bytes;
    if name == b"rd".as_slice() {
        rd(rest)
    } else if name == b"wr".as_slice() {
        wr(rest)
    } else if name == b"post".as_slice() {
        post(rest)
    } else if name == b"wait".as_slice() {
        wait(rest)
    } else if name == b"step".as_slice() {
        step(rest)
    } else {
        disk_command(word, rest)
    }
}

// So of volumes.
fn volume_command(word: Word<'_>, rest: Rest<'_>) -> Result<Command, Misfit>
    ensures { result ≡ rule rows_of_volumes word.entry.bytes.now word.entry.column (left rest.entry) }
{
    let name = word.bytes;
    if name == b"mklv".as_slice() {
        mklv(rest)
    } else if name == b"rmlv".as_slice() {
        rmlv(rest)
    } else if name == b"mklvcopy".as_slice() {
        mklvcopy(rest)
    } else if name == b"rmlvcopy".as_slice() {
        rmlvcopy(rest)
    } else if name == b"splitlvcopy".as_slice() {
        splitlvcopy(rest)
    } else if name == b"migratepv".as_slice() {
        migratepv(rest)
    } else if name == b"syncvg".as_slice() {
        syncvg(rest)
    } else if name == b"lslv".as_slice() {
        lslv(rest)
    } else {
        request_command(word, rest)
    }
}

// So of groups, but for `mkvg` and `reducevg`.
fn group_command(word: Word<'_>, rest: Rest<'_>) -> Result<Command, Misfit>
    ensures { result ≡ rule rows_of_groups word.entry.bytes.now word.entry.column (left rest.entry) }
{
    let name = word.bytes;
    if name == b"varyonvg".as_slice() {
        varyonvg(rest)
    } else if name == b"varyoffvg".as_slice() {
        varyoffvg(rest)
    } else if name == b"lsvg".as_slice() {
        lsvg(rest)
    } else if name == b"chvg".as_slice() {
        chvg(rest)
    } else {
        volume_command(word, rest)
    }
}

// What a line asks for whose first word this is.
fn command(alloc: Global, word: Word<'_>, rest: Rest<'_>) -> Result<Command, ParseFault>
    ensures { Answers (rule rows word.entry.bytes.now word.entry.column (left rest.entry)) result }
{
    if word.bytes == b"mkvg".as_slice() {
        mkvg(alloc, rest)
    } else if word.bytes == b"reducevg".as_slice() {
        reducevg(alloc, rest)
    } else {
        Ok(group_command(word, rest)?)
    }
}

// What a line asks for whose bytes are plain.
fn words(alloc: Global, rest: Rest<'_>) -> Result<Option<Command>, ParseFault>
    ensures { AnswersLine (line_of_words (left rest.entry).words (left rest.entry).end) result }
{
    let Some((word, rest)) = next_word(rest) else {
        return Ok(None);
    };
    if is_remark(word.bytes) {
        return Ok(None);
    }
    match command(alloc, word, rest) {
        Ok(command) => Ok(Some(command)),
        Err(fault) => Err(fault),
    }
}

// What a line asks for, or why it asks for nothing.
fn read_line(alloc: Global, line: &[u8]) -> Result<Option<Command>, ParseFault>
    ensures { AnswersLine (line_of line.now) result }
{
    match unreadable_at(line) {
        Some(column) => Err(ParseFault::BadLine { column }),
        None => words(alloc, Rest::of_line(line)),
    }
}

/// What a line, without its line feed, asks for; None for one without a word and for a remark.
pub fn parse(alloc: Global, line: &[u8]) -> Result<Option<Command>, ParseFault>
    // The line is in the language, and this is the command that it spells.
    ensures read { IfOk result (λ command. line_of line.now ≡ Ok command) }

    // It isn't, from this column on.
    ensures bad_line { (column : ℕ) → (result ≡ Err (ParseFault.BadLine column)) ↔ (line_of line.now ≡ misfit column) }

    // It is a `mkvg` of the language.
    ensures mkvg_memory { result ≡ Err ParseFault.MkvgMemory → IsMkvgLine (line_of line.now) }

    // It is a `reducevg` of the language.
    ensures reducevg_memory { result ≡ Err ParseFault.ReducevgMemory → IsReducevgLine (line_of line.now) }
{
    read_line(alloc, line)
}
