//! The words of a load, which may have options.
ghost use Rattle.std.specs.Prelude.{◌≡◌, ◌≤◌, ◌^◌, ◌<◌, IfSome};
ghost use Rattle.std.specs.Str.{bytes_eq};
ghost use Rattle.lvm_parse.specs.Words.{number_in};
ghost use Rattle.lvm_words.specs.Words.{IsJobWithinLimits, bounded, load_among, load_by, load_of, load_with_both};

use crate::job::Job;
use lvm_num::Text;
use lvm_parse::{name_of, number_of};

const OWN: &str = "--own";

const SYNC: &str = "--sync";

// Whether a word is the option.
fn is_option(word: &Text, option: &str) -> bool
    ensures { result ≡ bytes_eq word.now option.now }
{
    word.as_str() == option
}

// The number of a word, where it lies within these bounds.
fn bounded(word: &Text, low: u64, high: u64) -> Option<u32>
    requires { high < 2 ^ 32 }
    ensures number { result ≡ bounded low high (number_in word.now) }
    ensures within { IfSome result (λ n. (low ≤ n) × (n ≤ high)) }
{
    let number = number_of(word.as_bytes())?;
    if low <= number && number <= high {
        Some(number as u32)
    } else {
        None
    }
}

// A load by its five operands.
fn load_by(
    own: bool,
    sync: bool,
    group: &Text,
    volume: &Text,
    threads: &Text,
    requests: &Text,
    seed: &Text,
) -> Option<Job>
    ensures load { result ≡ load_by own sync group.now volume.now threads.now requests.now seed.now }
    ensures within { IfSome result IsJobWithinLimits }
{
    Some(Job::Load {
        own,
        sync,
        group: name_of(group.as_bytes())?,
        volume: name_of(volume.as_bytes())?,
        threads: bounded(threads, 1, 128)?,
        requests: bounded(requests, 0, 50_000)?,
        seed: number_of(seed.as_bytes())?,
    })
}

// A load by six words, of which one is this option.
fn load_among(
    option: &str,
    own: bool,
    sync: bool,
    a: &Text,
    b: &Text,
    c: &Text,
    d: &Text,
    e: &Text,
    f: &Text,
) -> Option<Job>
    ensures load { result ≡ load_among option.now own sync a.now b.now c.now d.now e.now f.now }
    ensures within { IfSome result IsJobWithinLimits }
{
    if is_option(a, option) {
        load_by(own, sync, b, c, d, e, f)
    } else if is_option(b, option) {
        load_by(own, sync, a, c, d, e, f)
    } else if is_option(c, option) {
        load_by(own, sync, a, b, d, e, f)
    } else if is_option(d, option) {
        load_by(own, sync, a, b, c, e, f)
    } else if is_option(e, option) {
        load_by(own, sync, a, b, c, d, f)
    } else if is_option(f, option) {
        load_by(own, sync, a, b, c, d, e)
    } else {
        None
    }
}

// A load by seven words, of which two are the options.
fn load_with_both(
    a: &Text,
    b: &Text,
    c: &Text,
    d: &Text,
    e: &Text,
    f: &Text,
    g: &Text,
) -> Option<Job>
    ensures load { result ≡ load_with_both a.now b.now c.now d.now e.now f.now g.now }
    ensures within { IfSome result IsJobWithinLimits }
{
    if is_option(a, SYNC) {
        load_among(OWN, true, true, b, c, d, e, f, g)
    } else if is_option(b, SYNC) {
        load_among(OWN, true, true, a, c, d, e, f, g)
    } else if is_option(c, SYNC) {
        load_among(OWN, true, true, a, b, d, e, f, g)
    } else if is_option(d, SYNC) {
        load_among(OWN, true, true, a, b, c, e, f, g)
    } else if is_option(e, SYNC) {
        load_among(OWN, true, true, a, b, c, d, f, g)
    } else if is_option(f, SYNC) {
        load_among(OWN, true, true, a, b, c, d, e, g)
    } else if is_option(g, SYNC) {
        load_among(OWN, true, true, a, b, c, d, e, f)
    } else {
        None
    }
}

/// The load that is asked for behind the word `load`, if one is.
pub(crate) fn load_of(words: &[Text]) -> Option<Job>
    ensures load { result ≡ load_of words.now }
    ensures within { IfSome result IsJobWithinLimits }
{
    match words {
        [a, b, c, d, e] => load_by(false, false, a, b, c, d, e),
        [a, b, c, d, e, f] => match load_among(OWN, true, false, a, b, c, d, e, f) {
            Some(job) => Some(job),
            None => load_among(SYNC, false, true, a, b, c, d, e, f),
        },
        [a, b, c, d, e, f, g] => load_with_both(a, b, c, d, e, f, g),
        _ => None,
    }
}
