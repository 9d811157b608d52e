//! Runs scripts over disks in memory, as the cases of standard input say, and prints what the scripts are answered.
//!
//! A case is given line by line, its first word saying what the line is:
//!
//! | Line | What it says |
//! |---|---|
//! | `case NAME` | a case begins; it is printed |
//! | `sim DISKS MIB` | it is over so many disks of zeros of so many MiB |
//! | `disks SECTORS ..` | or over disks of zeros of so many sectors |
//! | `> TEXT` | a line of the script |
//! | `* TEXT` | a line of the script, at whose calls of the disks a `sweep` acts |
//! | `unended` | the script's last line lacks its line feed |
//! | `plan CALL ACT` | before that call of the next run `cut WORD`, `pick WORD`, `fail DISK`, `heal DISK` or `delay REAPS` is done |
//! | `source N` | the source of the next run fails at its N-th read |
//! | `sink BYTES` | the sink of the next run has room for so many bytes |
//! | `entries N`, `bytes N` | the history of a run has room for so many entries, and so many bytes of blocks |
//! | `table N`, `pool N` | so many requests may be open, and so many transfers out |
//! | `feeds N` | so many line feeds stand next in the script |
//! | `clock N` | the clock answers N next, and then one more each time |
//! | `block DISK AT` | each run is to leave a block there that its history allows, on the disks that it makes for itself where it makes any |
//! | `alike DISK DISK AT COUNT` | it is judged of each run whether it leaves the same on both disks, in so many sectors from there on |
//! | `shows DISK SECTOR BYTE COUNT` | so many bytes of a sector of that disk are printed as each run leaves them, from that byte of it on |
//! | `put DISK SECTOR BYTE HEX` | bytes are put on a disk, from that byte of the sector on |
//! | `fill DISK SECTOR COUNT HEX` | so many sectors are filled with a byte |
//! | `copy DISK SECTOR COUNT DISK SECTOR` | so many sectors are copied there |
//! | `resize DISK SECTORS` | the disk is cut off, or gets zeros behind |
//! | `probe EDIT, ..` | the script is run over the disks with these edits, each a line as the four above; its answers are printed, and which areas it wrote. The disks stay as they were, and the script stays for the next one |
//! | `weave CLIENTS REQUESTS SEED` | a workload is run over the disks |
//! | `run` | the script is run, and forgotten; the disks stay as it leaves them |
//! | `words [WORD] ..` | the program runs by these words, the script its input, the disks its files, which stay as it leaves them; it is printed too how many entries its history has, whether it made disks for itself, and what image it made. The script stays for the next one. A `sink` is that of images |
//! | `ends [WORD] ..` | the same, of which only the end is printed |
//! | `draw [WORD] ..` | what the program writes by these words is the script |
//! | `sweep ACTS` | the script is run over the disks as they stand once for each call of the marked lines and each of the acts `cut WORD ..` or `fail DISK ..`, which is done before that call; the answers from these lines on are printed, each once. The clock answers 7 first. The disks stay as they were, and the script stays for the next one |
//! | `twice N ACTS` | the same, and the act is done again N calls later |
//!
//! Empty lines and those that begin with `#` say nothing.
#![tactic(auto)]

mod bench;
mod fault;
mod images;
mod outside;
mod parse;
mod print;
mod run;
mod script;
mod shown;
mod sweep;
mod words;
mod wrote;

use bench::Bench;
use fault::Fault;
use lvm_io::{Sink, StdSink, write_all};
use std::alloc::Global;
use std::io;
use std::process::ExitCode;
use std::sync::Wait;
use std::thread::Threads;

fn main(rt: HostRuntime) -> ExitCode {
    let alloc = rt.alloc();
    let Ok(cases) = io::read_to_string(alloc, rt.reader()) else {
        return ExitCode::FAILURE;
    };
    let mut out = StdSink::new(io::writer(&rt));
    let mut bench = Bench::new(alloc);
    let stop = take_lines(&rt, alloc, &mut bench, &cases, &mut out);
    drop(bench);
    match stop {
        None => ExitCode::SUCCESS,
        Some((fault, line)) => {
            let _ = eprintln!(rt; "{fault}: {line}");
            ExitCode::FAILURE
        }
    }
}

// Does what the lines say, up to the first one at which it can't go on: why, and that line.
fn take_lines<'a, O: Sink, R: Threads + Wait + Sync>(
    rt: &R,
    alloc: Global,
    bench: &mut Bench,
    cases: &'a str,
    out: &mut O,
) -> Option<(Fault, &'a str)> {
    let mut said = Vec::new(alloc);
    for line in cases.lines() {
        if let Err(fault) = take_line(rt, alloc, bench, line, &mut said, out) {
            return Some((fault, line));
        }
    }
    None
}

// Does what a line says, and prints what is said of it.
fn take_line<O: Sink, R: Threads + Wait + Sync>(
    rt: &R,
    alloc: Global,
    bench: &mut Bench,
    line: &str,
    said: &mut Vec<u8>,
    out: &mut O,
) -> Result<(), Fault> {
    said.clear();
    let done = do_line(rt, alloc, bench, line, said);
    write_all(out, said)?;
    done
}

fn do_line<R: Threads + Wait + Sync>(
    rt: &R,
    alloc: Global,
    bench: &mut Bench,
    line: &str,
    said: &mut Vec<u8>,
) -> Result<(), Fault> {
    let (verb, rest) = parse::split(line);
    match verb {
        "words" | "ends" | "draw" => bench.by_words(rt, alloc, verb, rest, said),
        _ => bench.take_line(alloc, line, said),
    }
}
