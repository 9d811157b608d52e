// Loads, and how they end.
ghost use Rattle.lvm_disk.specs.Device.{IsReady};
ghost use Rattle.lvm_memory.specs.Memory.{device_of};

use crate::tests::disks::{restarted, scripted};
use crate::tests::outside::{Answer, check, run};
use lvm_disk::Shelf;
use lvm_memory::{Act, GateShelf, MemShelf, Planned};
use std::process::Abort;
use std::sync::Wait;
use std::thread::Threads;

// Of 8 MiB and of 64.
const SMALL: u64 = 16_384;

const LARGE: u64 = 131_072;

const SINGLE: &[u8] = b"mkvg -y datavg -s 1 hdisk0\nmklv -y lv00 datavg 1\nvaryoffvg datavg\n";

const MIRROR: &[u8] =
    b"mkvg -y datavg -s 1 hdisk0 hdisk1 hdisk2\nmklv -y lv00 -c 2 -w a datavg 32\nvaryoffvg datavg\n";

// The copy of the second partition is stale on the third disk.
const STALE: &[u8] =
    b"mkvg -y datavg -s 1 hdisk0 hdisk1 hdisk2\nmklv -y fill -w n datavg 5\nmklv -y lv00 -c 2 -w n -d s datavg 2\nvaryoffvg datavg\nfail hdisk2\nvaryonvg datavg\nvaryoffvg datavg\nheal hdisk2\n";

const SYNC: &[u8] = b"varyonvg datavg\nsyncvg -v datavg\nlsvg -l datavg\nvaryoffvg datavg\n";

// Expects the words of a load to end with this status and to write this.
fn says<S: Shelf + Send + Drop>(
    rt: &(impl Abort + AllocGlobal + Threads + Wait + Sync),
    words: &[&str],
    files: S,
    status: u8,
    wanted: &[u8],
)
    requires { IsReady (S.device files) }
{
    let said = run(rt, words, b"", 1_000, files);
    check(rt, said.out.bytes() == wanted, "what is written");
    check(rt, said.status == status, "the status");
}

// The numbers of the six lines: begun, done, got, lost, refused and unbegun.
fn numbers(text: &[u8]) -> [u32; 6] {
    let mut numbers = [0u32; 6];
    let mut line = 0usize;
    for &byte in text {
        if byte == b'\n' {
            line = line.saturating_add(1);
        } else if byte.is_ascii_digit() && line < 6 {
            let digit = u32::from(byte - b'0');
            numbers[line] = numbers[line].saturating_mul(10).saturating_add(digit);
        }
    }
    numbers
}

// Expects all of so many requests to end well.
fn ends_well<S: Drop>(rt: &impl Abort, said: &Answer<S>, requests: u32) {
    let [begun, done, got, lost, refused, unbegun] = numbers(said.out.bytes());
    check(
        rt,
        begun == requests && done.saturating_add(got) == requests,
        "all end well",
    );
    check(
        rt,
        lost == 0 && refused == 0 && unbegun == 0,
        "none ends otherwise",
    );
    check(rt, said.status == 0, "the status");
}

#[test]
fn two_workers_write_at_once(rt: HostRuntime) {
    let gate = GateShelf::new(scripted(&rt, &[SMALL], SINGLE, &[]), 500_000);
    let words = ["load", "--own", "datavg", "lv00", "2", "2", "1"];
    says(
        &rt,
        &words,
        gate,
        0,
        b"begun 2\ndone 2\ngot 0\nlost 0\nrefused 0\nunbegun 0\n",
    );
}

#[test]
fn one_write_after_the_other_meets_the_limit(rt: HostRuntime) {
    let gate = GateShelf::new(scripted(&rt, &[SMALL], SINGLE, &[]), 1_000);
    let words = ["load", "datavg", "lv00", "1", "2", "1", "--own"];
    says(
        &rt,
        &words,
        gate,
        1,
        b"begun 2\ndone 1\ngot 0\nlost 1\nrefused 0\nunbegun 0\n",
    );
}

#[test]
fn a_worker_that_hears_nothing_gives_up(rt: HostRuntime) {
    let gate = GateShelf::new(scripted(&rt, &[SMALL], SINGLE, &[]), u32::MAX);
    let words = ["load", "--own", "datavg", "lv00", "1", "2", "1"];
    says(
        &rt,
        &words,
        gate,
        6,
        b"refused 24 Stuck\nbegun 1\ndone 0\ngot 0\nlost 0\nrefused 0\nunbegun 1\n",
    );
}

#[test]
fn a_load_of_nothing_and_ones_that_are_refused(rt: HostRuntime) {
    let files = scripted(&rt, &[SMALL], SINGLE, &[]);
    let none = ["load", "datavg", "lv00", "4", "0", "1"];
    says(
        &rt,
        &none,
        restarted(&rt, &files, &[]),
        0,
        b"begun 0\ndone 0\ngot 0\nlost 0\nrefused 0\nunbegun 0\n",
    );
    let group = ["load", "other", "lv00", "1", "1", "1"];
    says(
        &rt,
        &group,
        restarted(&rt, &files, &[]),
        1,
        b"refused 11 NoRecord\n",
    );
    let volume = ["load", "datavg", "lv01", "1", "1", "1"];
    says(&rt, &volume, files, 1, b"refused 12 NoVolume\n");
}

#[test]
fn as_many_threads_as_there_may_be(rt: HostRuntime) {
    let files = scripted(&rt, &[SMALL], SINGLE, &[]);
    let said = run(
        &rt,
        &["load", "datavg", "lv00", "128", "300", "3"],
        b"",
        1_000,
        files,
    );
    ends_well(&rt, &said, 300);
}

// How often transfers failed on each of three disks.
fn faults<S: Shelf>(rt: &impl Abort, shelf: &S) -> [u64; 3] {
    let disks = shelf.disks();
    check(rt, disks == 3, "three disks");
    [shelf.faults(0), shelf.faults(1), shelf.faults(2)]
}

#[test]
fn a_copy_is_brought_up_beside_a_worker(rt: HostRuntime) {
    let files = scripted(&rt, &[SMALL, SMALL, SMALL], STALE, &[]);
    let before = faults(&rt, &files);
    let gate = GateShelf::new(files, 500_000);
    let words = ["load", "--own", "--sync", "datavg", "lv00", "1", "1", "1"];
    let said = run(&rt, &words, b"", 1_000, gate);
    let wanted: &[u8] = b"begun 1\ndone 1\ngot 0\nlost 0\nrefused 0\nunbegun 0\n";
    check(&rt, said.out.bytes() == wanted, "what is written");
    check(&rt, said.status == 0, "the status");
    check(&rt, faults(&rt, &said.files) == before, "no transfer fails");
}

// Disks of a mirrored volume behind a day of 4,000 requests on which the second disk fails.
fn behind_a_day(rt: &(impl Abort + AllocGlobal + Threads + Wait + Sync)) -> MemShelf {
    let failing = Planned {
        call: 2_000,
        act: Act::Fail(1),
    };
    let files = scripted(rt, &[LARGE, LARGE, LARGE], MIRROR, &[failing]);
    let words = ["load", "datavg", "lv00", "8", "4000", "7"];
    let said = run(rt, &words, b"", 1_000, files);
    ends_well(rt, &said, 4_000);
    said.files
}

// Expects a script over these disks to end well and to write this.
fn answers(
    rt: &(impl Abort + AllocGlobal + Threads + Wait + Sync),
    script: &[u8],
    moment: u64,
    files: MemShelf,
    wanted: &[u8],
)
    requires { IsReady (device_of files) }
{
    let said = run(rt, &["script"], script, moment, files);
    check(rt, said.out.bytes() == wanted, "what is written");
    check(rt, said.status == 0, "the status");
}

#[test]
fn a_day_on_which_a_disk_fails(rt: HostRuntime) {
    let left = behind_a_day(&rt);
    answers(
        &rt,
        SYNC,
        20_000,
        restarted(&rt, &left, &[]),
        b"ok\nsynced 32\nlv00 LPs 32 PPs 64 PVs 2 stale 0\nok\n",
    );
    let words = ["load", "--sync", "datavg", "lv00", "8", "100", "9"];
    let said = run(&rt, &words, b"", 20_000, restarted(&rt, &left, &[]));
    ends_well(&rt, &said, 100);
    answers(
        &rt,
        b"varyonvg datavg\nlsvg -l datavg\n",
        40_000,
        restarted(&rt, &said.files, &[]),
        b"ok\nlv00 LPs 32 PPs 64 PVs 2 stale 0\n",
    );
}
