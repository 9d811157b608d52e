//! The job that `clap` found.
ghost use Rattle.std.specs.Prelude.{◌≡◌, codes};
ghost use Rattle.clap.specs.Words.{found_of, rows_of, subcommand_rows_of};
ghost use Rattle.lvm_words.specs.Matched.{number_at, weave_in, job_named, job_matched};

use crate::job::Job;
use clap::ArgMatches;

// The number that was given under this name, of a disk or of disks.
fn count(found: &ArgMatches<'_>, id: &str) -> Option<u16>
    ensures { result ≡ number_at 16 id.now (rows_of (found_of found.now)) }
{
    found.get_one::<u16>(id)
}

// The size that was given.
fn size(found: &ArgMatches<'_>) -> Option<u32>
    ensures { result ≡ number_at 32 (codes "MIB") (rows_of (found_of found.now)) }
{
    found.get_one::<u32>("MIB")
}

// The seed that was given.
fn seed(found: &ArgMatches<'_>) -> Option<u64>
    ensures { result ≡ number_at 64 (codes "SEED") (rows_of (found_of found.now)) }
{
    found.get_one::<u64>("SEED")
}

// How many requests or clients are asked for.
fn many(found: &ArgMatches<'_>, id: &str) -> Option<u32>
    ensures { result ≡ number_at 32 id.now (rows_of (found_of found.now)) }
{
    found.get_one::<u32>(id)
}

// The workload, with the numbers that were given.
fn weave(found: &ArgMatches<'_>) -> Option<Job>
    ensures { result ≡ weave_in (rows_of (found_of found.now)) }
{
    Some(Job::Weave {
        disks: count(found, "DISKS")?,
        mib: size(found)?,
        clients: many(found, "CLIENTS")?,
        requests: many(found, "REQUESTS")?,
        seed: seed(found)?,
    })
}

// The job of this name, with the numbers that were given.
fn job_named(name: &str, found: &ArgMatches<'_>) -> Option<Job>
    ensures { result ≡ job_named name.now (rows_of (found_of found.now)) }
{
    if name == "script" {
        Some(Job::Script)
    } else if name == "sim" {
        Some(Job::Sim {
            disks: count(found, "DISKS")?,
            mib: size(found)?,
        })
    } else if name == "gen" {
        Some(Job::Gen {
            seed: seed(found)?,
            count: many(found, "COUNT")?,
        })
    } else if name == "weave" {
        weave(found)
    } else if name == "image" {
        Some(Job::Image {
            disk: count(found, "N")?,
            mib: size(found)?,
        })
    } else {
        None
    }
}

/// The job that was found, if its numbers are.
pub(crate) fn job_in(matches: &ArgMatches<'_>) -> Option<Job>
    ensures { result ≡ job_matched (subcommand_rows_of matches.now) }
{
    let (name, found) = matches.subcommand()?;
    job_named(name, found)
}
