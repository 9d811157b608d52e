//! A script of requests that are drawn.
ghost use Rattle.std.specs.Prelude.{◌≡◌, ◌<◌, ◌≤◌, ◌++◌, [], length, OnOk, OnErr, Err};
ghost use Rattle.std.specs.String.{string_bytes};
ghost use Rattle.lvm_io.specs.Count.{Rose};
ghost use Rattle.lvm_io.specs.Stream.{WhereTold, WritesFront};
ghost use Rattle.lvm_workers.specs.Draws.{after_draw, draw_at};
ghost use Rattle.lvm_load.specs.Script.{IsWrittenUpTo, hex_word, line_text, script_text};

use lvm_io::{Sink, SinkFault, write_all};
use lvm_workers::{Draw, draw_request, generator};
use rand_pcg::Lcg64Xsh32;
use std::alloc::{AllocError, Global};

// The blocks of the volume: six partitions of 2,048.
const BLOCKS: u32 = 12_288;

// As many bytes are gathered before they are written.
const CHUNK: usize = 65_536;

const HEAD: &str = "mkvg -y genvg -s 1 hdisk0 hdisk1 hdisk2\nmklv -y genlv -c 2 -w a genvg 6\n";

/// Why a script isn't written whole.
#[derive(Clone, Copy)]
pub enum ScriptFault {
    /// The sink failed.
    Sink,
    /// No memory was found for its lines.
    Memory,
}

// Adds a word in 16 hexadecimal digits.
fn push_word(text: &mut String, word: u32) -> Result<(), AllocError>
    ensures { OnOk result (string_bytes text.new ≡ string_bytes text.old ++ hex_word word) }
{
    write!(text, "{word:016x}")
}

// Adds the line of a request, which has a number.
fn push_line(text: &mut String, number: u32, drawn: &Draw) -> Result<(), AllocError>
    ensures { OnOk result (string_bytes text.new ≡ string_bytes text.old ++ line_text number drawn.now) }
{
    let at = drawn.at % BLOCKS;
    let count = drawn.blocks().min(BLOCKS - at);
    if drawn.is_write() {
        write!(text, "wr genlv {at} {count} ")?;
        push_word(text, number)?;
        text.push('\n')
    } else {
        write!(text, "rd genlv {at} {count}\n")
    }
}

// Draws a request, which has a number, and adds its line.
fn push_request(text: &mut String, number: u32, rng: &mut Lcg64Xsh32) -> Result<(), AllocError>
    ensures line { OnOk result (string_bytes text.new ≡ string_bytes text.old ++ line_text number (draw_at rng.old)) }
    ensures after { rng.new ≡ after_draw rng.old }
{
    let drawn = draw_request(rng);
    push_line(text, number, &drawn)
}

// Writes what was gathered.
fn flush<O: Sink>(text: &mut String, out: &mut O) -> Result<(), SinkFault>
    ensures whole { OnOk result (IsWrittenUpTo (string_bytes text.old) (string_bytes text.new) (O.held out.old) (O.held out.new)) }
    ensures empty { OnOk result (string_bytes text.new ≡ []) }
    ensures front { OnErr result (WhereTold (O.held out.old) (O.held out.new) (λ a b. WritesFront (string_bytes text.old) a b)) }
    ensures image { (O.chosen out.new ≡ O.chosen out.old) × (O.choices out.new ≡ O.choices out.old) }
    ensures later { O.faults out.old ≤ O.faults out.new }
    ensures cause { OnErr result (Rose (O.faults out.old) (O.faults out.new)) }
    ensures well { OnOk result (O.faults out.new ≡ O.faults out.old) }
{
    write_all(out, text.as_bytes())?;
    text.clear();
    Ok(())
}

// Writes what was gathered once that is long. Less than 64 KiB stay.
fn flush_long<O: Sink>(text: &mut String, out: &mut O) -> Result<(), SinkFault>
    ensures whole { OnOk result (IsWrittenUpTo (string_bytes text.old) (string_bytes text.new) (O.held out.old) (O.held out.new)) }
    ensures few { OnOk result (length (string_bytes text.new) < 65536) }
    ensures front { OnErr result (WhereTold (O.held out.old) (O.held out.new) (λ a b. WritesFront (string_bytes text.old) a b)) }
    ensures image { (O.chosen out.new ≡ O.chosen out.old) × (O.choices out.new ≡ O.choices out.old) }
    ensures later { O.faults out.old ≤ O.faults out.new }
    ensures cause { OnErr result (Rose (O.faults out.old) (O.faults out.new)) }
    ensures well { OnOk result (O.faults out.new ≡ O.faults out.old) }
{
    if text.len() < CHUNK {
        Ok(())
    } else {
        flush(text, out)
    }
}

/// Writes a script that makes a group of three disks and a mirrored volume, and asks for so many reads and writes of
/// it, which are drawn from the seed.
///
/// # Errors
///
/// Where the sink failed, or no memory was found; a front of the script was written then.
pub fn write_script<O: Sink>(
    alloc: Global,
    seed: u64,
    count: u32,
    out: &mut O,
) -> Result<(), ScriptFault>
    ensures whole { OnOk result (WhereTold (O.held out.old) (O.held out.new) (λ a b. b ≡ a ++ script_text seed count)) }
    ensures front { OnErr result (WhereTold (O.held out.old) (O.held out.new) (λ a b. WritesFront (script_text seed count) a b)) }
    ensures image { (O.chosen out.new ≡ O.chosen out.old) × (O.choices out.new ≡ O.choices out.old) }
    ensures later { O.faults out.old ≤ O.faults out.new }
    ensures cause { result ≡ Err ScriptFault.Sink → Rose (O.faults out.old) (O.faults out.new) }
    ensures well { OnOk result (O.faults out.new ≡ O.faults out.old) }
    ensures memory { result ≡ Err ScriptFault.Memory → O.faults out.new ≡ O.faults out.old }
{
    let Ok(mut text) = String::from_str(alloc, HEAD) else {
        return Err(ScriptFault::Memory);
    };
    let mut rng = generator(seed);
    for k in 0..count {
        if push_request(&mut text, k + 1, &mut rng).is_err() {
            return Err(ScriptFault::Memory);
        }
        if flush_long(&mut text, out).is_err() {
            return Err(ScriptFault::Sink);
        }
    }
    match flush(&mut text, out) {
        Ok(()) => Ok(()),
        Err(SinkFault) => Err(ScriptFault::Sink),
    }
}
