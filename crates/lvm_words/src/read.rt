//! What the words of the command line ask for.
ghost use Rattle.std.specs.Prelude.{◌≡◌, Ok, Err, IfOk, IfSome, true};
ghost use Rattle.lvm_words.specs.Words.{told_by, told_of, work_of, asked_of, is_load, job_of, IsJobWithinLimits};

use crate::fault::WordsFault;
use crate::job::Job;
use crate::language::parse;
use crate::load::load_of;
use crate::matched::job_in;
use crate::plain::plain_words;
use lvm_num::Text;
use std::alloc::Global;

// What one word asks to be told.
fn told_by(word: &str) -> Option<Job>
    ensures { result ≡ told_by word.now }
{
    if word == "--help" {
        Some(Job::Help)
    } else if word == "--version" {
        Some(Job::Version)
    } else {
        None
    }
}

// What the words ask to be told.
fn told_of(words: &[Text]) -> Option<Job>
    ensures { result ≡ told_of words.now }
{
    match words {
        [word] => told_by(word.as_str()),
        _ => None,
    }
}

// What the words ask to be done, where that isn't a load.
fn read_work(alloc: Global, words: &[Text]) -> Result<Job, WordsFault>
    ensures job { IfOk result (λ job. work_of words.now ≡ Ok job) }
    ensures usage { result ≡ Err WordsFault.Usage → work_of words.now ≡ Err WordsFault.Usage }
    ensures within { IfOk result IsJobWithinLimits }
{
    let plain = plain_words(alloc, words)?;
    let matches = parse(alloc, plain.as_slice())?;
    job_in(&matches).ok_or(WordsFault::Usage)
}

// What the words ask to be done.
fn read_asked(alloc: Global, words: &[Text]) -> Result<Job, WordsFault>
    ensures job { IfOk result (λ job. asked_of words.now ≡ Ok job) }
    ensures usage { result ≡ Err WordsFault.Usage → asked_of words.now ≡ Err WordsFault.Usage }
    ensures within { IfOk result IsJobWithinLimits }
    ensures loads { is_load words.now ≡ true → result ≡ asked_of words.now }
{
    match words {
        [name, operands @ ..] if name.as_str() == "load" => {
            load_of(operands).ok_or(WordsFault::Usage)
        }
        _ => read_work(alloc, words),
    }
}

/// Reads the words behind the program's name. A number is 1 to 20 decimal digits; no word of the language
/// begins with a sign, but for `--help` and `--version`, which stand alone, and the options of a load. Usage comes exactly where the
/// words are not in the language; Memory where none was found to tell, which `--help`, `--version` and a load
/// need none for.
pub fn read_words(alloc: Global, words: &[Text]) -> Result<Job, WordsFault>
    ensures job { IfOk result (λ job. job_of words.now ≡ Ok job) }
    ensures usage { result ≡ Err WordsFault.Usage → job_of words.now ≡ Err WordsFault.Usage }
    ensures within { IfOk result IsJobWithinLimits }
    ensures told { IfSome (told_of words.now) (λ job. result ≡ Ok job) }
    ensures loads { is_load words.now ≡ true → result ≡ asked_of words.now }
{
    match told_of(words) {
        Some(job) => Ok(job),
        None => read_asked(alloc, words),
    }
}
