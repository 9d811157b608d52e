//! The command line as `clap` is told it.
ghost use Rattle.std.specs.Prelude.{◌≡◌, IfOk, Err, true, false, [], codes, map};
ghost use Rattle.clap.specs.Simple.{on_top};
ghost use Rattle.clap.specs.Words.{App, app_of, rule_of, new_app, with_rule, with_subcommand, fault_of, subcommand_of, subcommand_rows_of};
ghost use Rattle.clap.specs.declared.builder.Command.TheViews.{out-Command};
ghost use Rattle.lvm_words.specs.CommandLine.{number_rule, with_fault, with_numbers, script_app, weave_app, lvm_settings, lvm_app};

use crate::fault::WordsFault;
use clap::builder::ValueParser;
use clap::error::ErrorKind;
use clap::{Arg, ArgMatches, Command, Error};
use std::alloc::{AllocError, Global};

// A number that has to be given, within these bounds.
fn number<'a>(alloc: Global, id: &'a str, low: u64, high: u64) -> Arg<'a>
    ensures rule { rule_of result ≡ number_rule id.entry.now low high }
    ensures local { result.global ≡ false }
{
    Arg::new(alloc, id)
        .required(true)
        .value_parser(ValueParser::unsigned(low, high))
}

// A job with one number more behind those that it has, within these bounds.
fn with_number<'a>(
    job: Command<'a>,
    alloc: Global,
    id: &'a str,
    low: u64,
    high: u64,
) -> Result<Command<'a>, AllocError>
    requires local { (out-Command job).has_globals ≡ false }
    ensures app { IfOk result (λ more. app_of more ≡ with_rule (app_of job.entry) (number_rule id.entry.now low high)) }
    ensures local { IfOk result (λ more. (out-Command more).has_globals ≡ false) }
{
    job.arg(number(alloc, id, low, high))
}

// A job that has two numbers behind its name, each with its bounds.
fn with_numbers<'a>(
    alloc: Global,
    name: &'a str,
    first: (&'a str, u64, u64),
    second: (&'a str, u64, u64),
) -> Result<Command<'a>, AllocError>
    ensures app { IfOk result (λ job. app_of job ≡ with_numbers name.entry.now (number_rule first.entry.0.now first.entry.1 first.entry.2) (number_rule second.entry.0.now second.entry.1 second.entry.2)) }
    ensures local { IfOk result (λ job. (out-Command job).has_globals ≡ false) }
{
    let job = with_number(Command::new(alloc, name), alloc, first.0, first.1, first.2)?;
    with_number(job, alloc, second.0, second.1, second.2)
}

// `weave DISKS MIB CLIENTS REQUESTS SEED`
fn weave<'a>(alloc: Global) -> Result<Command<'a>, AllocError>
    ensures app { IfOk result (λ job. app_of job ≡ weave_app) }
    ensures local { IfOk result (λ job. (out-Command job).has_globals ≡ false) }
{
    let job = with_numbers(alloc, "weave", ("DISKS", 1, 8), ("MIB", 8, 64))?;
    let job = with_number(job, alloc, "CLIENTS", 1, 64)?;
    let job = with_number(job, alloc, "REQUESTS", 0, 50_000)?;
    with_number(job, alloc, "SEED", 0, u64::MAX)
}

// The program without its jobs: the words begin with the name of one, and nothing is answered by help.
fn without_jobs<'a>(alloc: Global) -> Command<'a>
    ensures { app_of result ≡ on_top lvm_settings (new_app (codes "lvm")) }
{
    Command::new(alloc, "lvm")
        .no_binary_name(true)
        .disable_help_flag(true)
        .disable_help_subcommand(true)
        .subcommand_required(true)
}

// The program, with the job of a script besides.
fn with_script<'a>(program: Command<'a>, alloc: Global) -> Result<Command<'a>, AllocError>
    ensures { IfOk result (λ more. app_of more ≡ with_subcommand (app_of program.entry) script_app.top) }
{
    program.subcommand(Command::new(alloc, "script"))
}

// The program, with one job more besides, if there was memory for both.
fn with_job<'a>(
    program: Result<Command<'a>, AllocError>,
    job: Result<Command<'a>, AllocError>,
) -> Result<Command<'a>, AllocError>
    requires local { IfOk job (λ job. (out-Command job).has_globals ≡ false) }
    ensures { (base app : App) → IfOk program.entry (λ program. app_of program ≡ base) → IfOk job.entry (λ job. app_of job ≡ app) → IfOk result (λ more. app_of more ≡ with_subcommand base app.top) }
{
    program?.subcommand(job?)
}

// The program, which is asked for one of its jobs.
fn command_line<'a>(alloc: Global) -> Result<Command<'a>, AllocError>
    ensures { IfOk result (λ line. app_of line ≡ lvm_app) }
{
    let program = with_script(without_jobs(alloc), alloc);
    // `sim DISKS MIB`
    let sim = with_numbers(alloc, "sim", ("DISKS", 1, 32), ("MIB", 1, 64));
    let program = with_job(program, sim);
    // `gen SEED COUNT`
    let generate = with_numbers(alloc, "gen", ("SEED", 0, u64::MAX), ("COUNT", 0, 100_000));
    let program = with_job(program, generate);
    let program = with_job(program, weave(alloc));
    // `image N MIB`
    let image = with_numbers(alloc, "image", ("N", 0, 127), ("MIB", 1, 4_096));
    with_job(program, image)
}

// What `clap` answers, with the fault in the words in place of its error. Want of memory is none.
fn found_in<'a>(answer: Result<ArgMatches<'a>, Error>) -> Result<ArgMatches<'a>, WordsFault>
    ensures { result ≡ with_fault answer.entry }
{
    match answer {
        Ok(matches) => Ok(matches),
        Err(error) if error.kind() == ErrorKind::OutOfMemory => Err(WordsFault::Memory),
        Err(_) => Err(WordsFault::Usage),
    }
}

/// What `clap` finds in the words. Usage comes exactly where there is a fault in them, by the language that
/// it was told.
pub fn parse<'a>(alloc: Global, words: &'a [&'a str]) -> Result<ArgMatches<'a>, WordsFault>
    ensures faultless { IfOk result (λ _. fault_of lvm_app (map (λ word. word.now) words.now) ≡ []) }
    ensures found { IfOk result (λ matches. subcommand_rows_of matches ≡ subcommand_of lvm_app (map (λ word. word.now) words.now)) }
    ensures usage { result ≡ Err WordsFault.Usage → fault_of lvm_app (map (λ word. word.now) words.now) ≡ [] → ⊥ }
{
    let Ok(line) = command_line(alloc) else {
        return Err(WordsFault::Memory);
    };
    found_in(line.try_get_matches_from(words))
}
