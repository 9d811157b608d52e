//! The program by the words of its command line.
ghost use Rattle.std.specs.Prelude.{◌≡◌, ◌≤◌, None, IfOk, IfErr, IfSome, IfNone};
ghost use Rattle.lvm_disk.specs.Device.{IsReady};
ghost use Rattle.lvm_memory.specs.Memory.{bench_of, device_of};
ghost use Rattle.lvm_program.specs.Program.{OnScript, OnSim, OnDrawn, OnLoad, OnImage, OnText, help_text, version_line, usage_line, IsTold, IsSaid, IsUnrun, IsUsage, IsGenerated, IsImaged, LeavesAlone, PromisesBlank, PromisesWovenBlank};
ghost use Rattle.lvm_top.specs.Clock.{clocked};
ghost use Rattle.lvm_top.specs.Run.{Promises, ran};
ghost use Rattle.lvm_top.specs.Script.{passage};
ghost use Rattle.lvm_program.specs.Sim.{full_room, sim_bench, sim_device};
ghost use Rattle.lvm_program.specs.Loaded.{PromisesLoaded};
ghost use Rattle.lvm_program.specs.Woven.{asked_woven, untold};
ghost use Rattle.lvm_words.specs.Words.{job_of};

use crate::generate::run_gen;
use crate::image::run_image;
use crate::load::{LoadWords, run_load};
use crate::workload::run_weave;
use lvm_core::Room;
use lvm_disk::Shelf;
use lvm_io::{Clock, Images, Sink, SinkFault, Source, write_all};
use lvm_load::{Load, Workload};
use lvm_memory::MemShelf;
use lvm_num::{Memory, Rows, Text};
use lvm_top::{Ended, ExitStatus, run_script};
use lvm_words::{Job, WordsFault, read_words};
use std::alloc::Global;
use std::sync::Wait;
use std::thread::Threads;

// What is written where the words are not in the language.
const USAGE: &[u8] =
    b"usage: lvm script | lvm sim DISKS MIB | lvm weave DISKS MIB CLIENTS REQUESTS SEED | lvm load [--own] [--sync] GROUP VOLUME THREADS REQUESTS SEED | lvm gen SEED COUNT | lvm image N MIB\n";

// What `--help` tells.
const HELP: &[u8] =
    b"usage: lvm script | lvm sim DISKS MIB | lvm weave DISKS MIB CLIENTS REQUESTS SEED | lvm load [--own] [--sync] GROUP VOLUME THREADS REQUESTS SEED | lvm gen SEED COUNT | lvm image N MIB\n  script          does the lines of standard input over hdisk0.img to hdisk127.img of this folder\n  sim DISKS MIB   does them over 1 to 32 disks of zeros in memory, each of 1 to 64 MiB\n  weave DISKS MIB CLIENTS REQUESTS SEED\n                  tells how up to 50,000 reads and writes of 1 to 64 clients end, drawn from the seed, over 1 to 8 such disks of 8 to 64 MiB\n  load [--own] [--sync] GROUP VOLUME THREADS REQUESTS SEED\n                  tells how up to 50,000 reads and writes of 1 to 128 threads end, drawn from the seed, over a volume of a group on the images; with --own each only writes, to blocks of its own; with --sync one thread more brings up the volume's stale copies\n  gen SEED COUNT  writes a script of up to 100,000 reads and writes that are drawn from the seed\n  image N MIB     makes hdiskN.img, N from 0 to 127, of 1 to 4,096 MiB of zeros\n";

// What `--version` tells.
const VERSION: &[u8] = b"lvm 0.1.0\n";

// The room of a run.
fn full_room() -> Room
    ensures { result ≡ full_room }
{
    Room {
        table: 1_024,
        pool: 64,
        entries: 1_048_576,
        bytes: 268_435_456,
    }
}

// Disks of zeros, each of so many MiB.
fn blank_shelf(alloc: Global, disks: u16, mib: u32) -> Result<MemShelf, Memory>
    requires { (1 ≤ disks) × (disks ≤ 32) × (mib ≤ 64) }
    ensures device { IfOk result (λ shelf. device_of shelf ≡ sim_device disks mib) }
    ensures bench { IfOk result (λ shelf. bench_of shelf ≡ sim_bench disks mib) }
{
    let Ok(sizes) = vec![in alloc; 2_048 * mib as u64; disks as usize] else {
        return Err(Memory);
    };
    MemShelf::new(alloc, sizes.as_slice(), Rows::empty(alloc), 65_536)
}

// Says how the words go, as far as the sink takes it.
fn say_usage<E: Sink>(err: &mut E)
    ensures { IsSaid usage_line (passage E.held E.faults err.old err.new) }
{
    let _ = write_all(err, USAGE);
}

// Writes a text: all of it, or where the sink failed a front.
fn tell<O: Sink>(text: &[u8], out: &mut O) -> ExitStatus
    ensures { IsTold text.now result (passage O.held O.faults out.old out.new) }
{
    match write_all(out, text) {
        Ok(()) => ExitStatus::Well,
        Err(SinkFault) => ExitStatus::SinkFault,
    }
}

// Tells how the words go.
fn tell_help<O: Sink>(out: &mut O) -> ExitStatus
    ensures { IsTold help_text result (passage O.held O.faults out.old out.new) }
{
    tell(HELP, out)
}

// Tells which program this is.
fn tell_version<O: Sink>(out: &mut O) -> ExitStatus
    ensures { IsTold version_line result (passage O.held O.faults out.old out.new) }
{
    tell(VERSION, out)
}

// Makes a new image of a disk.
fn make_image<P: Images>(disk: u16, mib: u32, images: &mut P) -> ExitStatus
    ensures { IsImaged disk mib result (P.chosen images.new) (P.choices images.old) (P.choices images.new) (passage P.held P.faults images.old images.new) }
{
    images.choose(disk);
    run_image(mib, images)
}

// The end where no script was run.
fn unrun<S>(status: ExitStatus, files: S) -> Ended<S>
    ensures files { result.shelf ≡ files }
    ensures unrun { IsUnrun result status }
{
    Ended {
        status,
        refused: 0,
        history: None,
        shelf: files,
        sim: None,
    }
}

/// Does what the words of the command line, without the program's name, ask for. `script` runs a script
/// over the files. `sim DISKS MIB` runs one over so many disks of zeros in memory, which are given back
/// as the run left them. `weave DISKS MIB CLIENTS REQUESTS SEED` runs a workload over such disks. `load [--own]
/// GROUP VOLUME THREADS REQUESTS SEED` runs a load over the files, and may wait for its threads: what is promised
/// of it holds if the call returns. `gen SEED COUNT` writes a script of so many requests to `out`. `image N MIB`
/// writes so many MiB of zeros to a new image of disk N. Words that are not in the language are answered by a
/// line of usage to `err`. `--help` and `--version` write a text to `out`. Where no memory is found for the words
/// nothing is done.
pub fn run_words<
    I: Source,
    O: Sink,
    E: Sink,
    C: Clock,
    S: Shelf + Send,
    P: Images,
    R: Threads + Wait + Sync,
>(
    rt: &R,
    alloc: Global,
    words: &[Text],
    input: &mut I,
    out: &mut O,
    err: &mut E,
    clock: &mut C,
    files: S,
    images: &mut P,
) -> Ended<S>
    requires ready { IsReady (S.device files) }

    ensures usage { IfErr (job_of words.now) (λ _. IsUsage result (passage E.held E.faults err.old err.new) × (result.status ≡ ExitStatus.Memory → err.new ≡ err.old)) }
    ensures script { let read = passage I.left I.faults input.old input.new in let written = passage O.held O.faults out.old out.new in
        OnScript (job_of words.now) ((result.sim ≡ None) × Promises (clocked C.last C.asked clock.old clock.new) (ran full_room (S.device files) (S.device result.shelf) read written (C.last clock.new) result.history result.status result.refused)) }
    ensures sim { let read = passage I.left I.faults input.old input.new in let written = passage O.held O.faults out.old out.new in
        OnSim (job_of words.now) (λ disks mib.
        IfSome result.sim (λ shelf. PromisesBlank (clocked C.last C.asked clock.old clock.new) (ran full_room (sim_device disks mib) (device_of shelf) read written (C.last clock.new) result.history result.status result.refused))
        × IfNone result.sim (IsUnrun result ExitStatus.Memory × (input.new ≡ input.old) × (out.new ≡ out.old) × (clock.new ≡ clock.old))) }
    ensures drawn { let written = passage O.held O.faults out.old out.new in
        OnDrawn (job_of words.now) (λ seed count. IsUnrun result result.status × IsGenerated seed count result.status written)
        (λ disks mib load. IfSome result.sim (λ shelf. PromisesWovenBlank disks mib load (C.last clock.old) (ran full_room (sim_device disks mib) (device_of shelf) untold written (C.last clock.new) result.history result.status result.refused)
        × (C.asked clock.new ≡ asked_woven result.history (C.asked clock.old)))
        × IfNone result.sim (IsUnrun result ExitStatus.Memory × (out.new ≡ out.old) × (clock.new ≡ clock.old))) }
    ensures load { let written = passage O.held O.faults out.old out.new in
        OnLoad (job_of words.now) (λ load. (result.sim ≡ None) × PromisesLoaded load (C.last clock.old) (ran full_room (S.device files) (S.device result.shelf) untold written (C.last clock.new) result.history result.status result.refused)
        × (C.asked clock.new ≡ asked_woven result.history (C.asked clock.old))) }
    ensures text { OnText (job_of words.now) (λ text. IsUnrun result result.status × IsTold text result.status (passage O.held O.faults out.old out.new)) }
    ensures image { let zeros = passage P.held P.faults images.old images.new in
        OnImage (job_of words.now) (λ disk mib. IsUnrun result result.status × (result.status ≡ ExitStatus.Memory → images.new ≡ images.old)
        × ((result.status ≡ ExitStatus.Memory → ⊥) → IsImaged disk mib result.status (P.chosen images.new) (P.choices images.old) (P.choices images.new) zeros)) }
    ensures alone { LeavesAlone (job_of words.now) (result.shelf ≡ files) (input.new ≡ input.old) (out.new ≡ out.old) (err.new ≡ err.old) (clock.new ≡ clock.old) (images.new ≡ images.old) }
{
    let job = match read_words(alloc, words) {
        Ok(job) => job,
        Err(WordsFault::Usage) => {
            say_usage(err);
            return unrun(ExitStatus::Usage, files);
        }
        Err(WordsFault::Memory) => return unrun(ExitStatus::Memory, files),
    };
    match job {
        Job::Script => run_script(alloc, input, out, files, clock, full_room()),
        Job::Sim { disks, mib } => match blank_shelf(alloc, disks, mib) {
            Ok(shelf) => {
                let ended = run_script(alloc, input, out, shelf, clock, full_room());
                Ended {
                    status: ended.status,
                    refused: ended.refused,
                    history: ended.history,
                    shelf: files,
                    sim: Some(ended.shelf),
                }
            }
            Err(Memory) => unrun(ExitStatus::Memory, files),
        },
        Job::Gen { seed, count } => unrun(run_gen(alloc, seed, count, out), files),
        Job::Weave {
            disks,
            mib,
            clients,
            requests,
            seed,
        } => match blank_shelf(alloc, disks, mib) {
            Ok(shelf) => {
                let load = Workload {
                    clients,
                    requests,
                    seed,
                };
                let ended = run_weave(alloc, disks, mib, &load, out, shelf, clock, full_room());
                Ended {
                    status: ended.status,
                    refused: ended.refused,
                    history: ended.history,
                    shelf: files,
                    sim: Some(ended.shelf),
                }
            }
            Err(Memory) => unrun(ExitStatus::Memory, files),
        },
        Job::Load {
            own,
            sync,
            group,
            volume,
            threads,
            requests,
            seed,
        } => {
            let load = Load {
                threads,
                requests,
                seed,
                apart: own,
                sync,
            };
            let words = LoadWords {
                group,
                volume,
                load,
            };
            run_load(rt, alloc, &words, out, files, clock, full_room())
        }
        Job::Image { disk, mib } => unrun(make_image(disk, mib, images), files),
        Job::Help => unrun(tell_help(out), files),
        Job::Version => unrun(tell_version(out), files),
    }
}
