//! `lvm`: a logical volume manager over image files, or over disks in memory.
#![tactic(auto)]

ghost use Rattle.std.specs.Prelude.{◌≡◌, ◌≤◌, length, IfOk};
ghost use Rattle.lvm_lane.specs.Files.{device_of, idle_device};

use lvm_io::{Sink, StdSink, StdSource, SystemClock, write_all};
use lvm_lane::{FileShelf, ImageSink};
use lvm_num::{Memory, Text};
use lvm_program::{ExitStatus, Job, WordsFault, read_words, run_words};
use std::alloc::{AllocError, Global};
use std::fs::{File, OpenOptions};
use std::io::ErrorKind;
use std::os::fd::{AsRawFd, IntoRawFd};
use std::process::ExitCode;
use std::rt::{Env, Files};
use std::{env, fs, io};

const NULL_DEVICE: &str = "/dev/null";

// More bytes than a command gives back.
const LARGE: usize = 16_777_216;

// Takes a large block and gives it back untouched. The system's allocator keeps up to twice the largest block
// that was given back: so what a command gives back is there for the next one, and isn't taken from the system
// page by page again.
fn keep_memory(alloc: Global) {
    let _block: Result<Vec<u8>, AllocError> = Vec::with_capacity(alloc, LARGE);
}

// Sees that the descriptors 0, 1 and 2 are taken, so that no file that is opened later gets one of them and
// is read or written as a standard stream. A closed stream becomes the null device, for writing alone where
// it is the input and for reading alone else: so each use of it fails, as of a closed one.
fn take_standard_descriptors(rt: &impl Files<File = File>) -> io::Result<()> {
    let input = OpenOptions::new().write(true).open(rt, NULL_DEVICE)?;
    if input.as_raw_fd() == 0 {
        let _ = input.into_raw_fd();
    }
    for _ in 0..3 {
        let output = fs::open(rt, NULL_DEVICE)?;
        if output.as_raw_fd() > 2 {
            break;
        }
        let _ = output.into_raw_fd();
    }
    Ok(())
}

// The words of the command line, without the program's name. Words that are no text are as bad as none, and
// answered alike. An error is want of memory.
fn words_of(rt: &(impl Env + Alloc<A = Global>), alloc: Global) -> Result<Vec<Text>, Memory> {
    let mut words = Vec::new(alloc);
    match env::args(rt) {
        Ok(args) => {
            for word in args.skip(1) {
                let Ok(()) = words.push(Text::new(word)) else {
                    return Err(Memory);
                };
            }
        }
        Err(fault) if fault.kind() == ErrorKind::InvalidData => {}
        Err(_) => return Err(Memory),
    }
    Ok(words)
}

// The files of this folder where the words ask for a script or a load over them. Else none is opened.
fn files_for<R: Files<File = File>, E: Sink>(
    rt: &R,
    alloc: Global,
    words: &[Text],
    err: &mut E,
) -> Result<FileShelf<File>, Memory>
    ensures idle { IfOk result (λ shelf. device_of shelf ≡ idle_device (device_of shelf).sizes) }
    ensures some { IfOk result (λ shelf. (1 ≤ length (device_of shelf).sizes) × (length (device_of shelf).sizes ≤ 128)) }
{
    match read_words(alloc, words) {
        Ok(Job::Script | Job::Load { .. }) => FileShelf::open(rt, alloc, err),
        Err(WordsFault::Memory) => Err(Memory),
        Ok(_) | Err(WordsFault::Usage) => FileShelf::without_files(alloc),
    }
}

// Says why the program ends so, where nothing else says it, as far as the sink takes it.
fn say_why<E: Sink>(err: &mut E, status: ExitStatus, image: Option<&str>) {
    let why = match status {
        ExitStatus::Well | ExitStatus::Refusals | ExitStatus::Usage => return,
        ExitStatus::SourceFault => "standard input can't be read",
        ExitStatus::SinkFault => image.unwrap_or("standard output can't be written"),
        ExitStatus::Memory => "no memory is left",
        ExitStatus::Stuck => "the disks don't answer",
        ExitStatus::TooLong => "the script has more than 16,777,216 bytes",
    };
    for text in ["lvm: ", why, "\n"] {
        if write_all(err, text.as_bytes()).is_err() {
            return;
        }
    }
}

// Why an image isn't made, where one was asked for.
fn image_fault<R: Files>(images: &ImageSink<'_, R>) -> Option<&'static str> {
    if images.is_taken() {
        Some("there is an image of this disk already")
    } else if images.is_chosen() {
        Some("the image can't be written")
    } else {
        None
    }
}

fn main(rt: HostRuntime) -> ExitCode {
    if take_standard_descriptors(&rt).is_err() {
        return ExitCode::from(ExitStatus::SinkFault.code());
    }
    let alloc = rt.alloc();
    keep_memory(alloc);
    let mut err = StdSink::new(rt.stderr());
    let Ok(words) = words_of(&rt, alloc) else {
        say_why(&mut err, ExitStatus::Memory, None);
        return ExitCode::from(ExitStatus::Memory.code());
    };
    let Ok(files) = files_for(&rt, alloc, words.as_slice(), &mut err) else {
        say_why(&mut err, ExitStatus::Memory, None);
        return ExitCode::from(ExitStatus::Memory.code());
    };
    let mut images = ImageSink::new(&rt);
    let mut input = StdSource::new(rt.reader());
    let mut out = StdSink::new(io::writer(&rt));
    let mut clock = SystemClock::new(rt);
    let ended = run_words(
        &rt,
        alloc,
        words.as_slice(),
        &mut input,
        &mut out,
        &mut err,
        &mut clock,
        files,
        &mut images,
    );
    let settled = images.settle();
    let status = if ended.status == ExitStatus::Well && settled.is_err() {
        ExitStatus::SinkFault
    } else {
        ended.status
    };
    say_why(&mut err, status, image_fault(&images));
    ExitCode::from(status.code())
}
