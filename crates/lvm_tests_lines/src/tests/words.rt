// Words as they come from a shell.

use crate::tests::fixtures::check;
use lvm_num::Text;
use lvm_words::{Job, WordsFault, read_words};
use std::process::Abort;

fn text(rt: &(impl Abort + AllocGlobal), word: &str) -> Text {
    Text::new(String::from_str(rt.alloc(), word).expect(rt, "memory"))
}

fn read(rt: &(impl Abort + AllocGlobal), words: &[&str]) -> Result<Job, WordsFault> {
    let mut texts = Vec::new(rt.alloc());
    for word in words {
        texts.push(text(rt, word)).expect(rt, "memory");
    }
    read_words(rt.alloc(), texts.as_slice())
}

fn job(rt: &(impl Abort + AllocGlobal), words: &[&str]) -> Option<Job> {
    read(rt, words).ok()
}

#[test]
fn each_job_is_read(rt: HostRuntime) {
    check(&rt, job(&rt, &["script"]) == Some(Job::Script), "a script");
    let sim = Job::Sim { disks: 32, mib: 64 };
    check(
        &rt,
        job(&rt, &["sim", "32", "064"]) == Some(sim),
        "a simulation",
    );
    let image = Job::Image {
        disk: 127,
        mib: 4_096,
    };
    check(
        &rt,
        job(&rt, &["image", "00000000000000000127", "4096"]) == Some(image),
        "an image",
    );
}

#[test]
fn the_largest_script_is_drawn(rt: HostRuntime) {
    let drawn = Job::Gen {
        seed: u64::MAX,
        count: 100_000,
    };
    check(
        &rt,
        job(&rt, &["gen", "18446744073709551615", "100000"]) == Some(drawn),
        "a script",
    );
}

// The threads of a load whose requests are all writes, and whether copies are brought up beside them.
fn writers(rt: &(impl Abort + AllocGlobal), words: &[&str]) -> Option<(u32, bool)> {
    match read(rt, words) {
        Ok(
            Job::Load {
                own: true,
                sync,
                threads,
                ..
            },
        ) => Some((threads, sync)),
        _ => None,
    }
}

#[test]
fn a_load_has_its_option_first(rt: HostRuntime) {
    let words = ["load", "--own", "datavg", "lv00", "128", "50000", "7"];
    check(&rt, writers(&rt, &words) == Some((128, false)), "a load");
}

#[test]
fn a_load_has_its_options_apart(rt: HostRuntime) {
    let words = [
        "load", "datavg", "--sync", "lv00", "128", "50000", "7", "--own",
    ];
    check(&rt, writers(&rt, &words) == Some((128, true)), "a load");
}

// What clap takes beyond the language.
static REFUSED: [&[&str]; 10] = [
    &["--", "script"],
    &["script", "--"],
    &["sim", "--", "3", "8"],
    &["sim", "+3", "8"],
    &["sim", "3", "000000000000000000008"],
    &["gen", "18446744073709551616", "1"],
    &["image", "18446744073709551743", "8"],
    &["help", "sim"],
    &["sim", "--help"],
    &["-h"],
];

#[test]
fn what_clap_takes_beyond_the_language_is_refused(rt: HostRuntime) {
    for words in &REFUSED {
        check(&rt, read(&rt, words) == Err(WordsFault::Usage), "usage");
    }
}
