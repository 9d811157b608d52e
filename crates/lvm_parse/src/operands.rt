//! The next word of a line: an operand, an option that stands alone, or none.
ghost use Rattle.std.specs.Prelude.{◌≡◌, [], MatchResult};
ghost use Rattle.lvm_parse.specs.Words.{disk_in, other_disk_in, number_in, count_in, word_in, name_in, partition_count_in, turns_in, size_in, copy_count_in, mode_in, switch_in, policy_in};
ghost use Rattle.lvm_parse.specs.Reading.{next_column, is_next, operand, option, ends, last};
ghost use Rattle.lvm_parse.specs.Rests.{left, word_at, with_word, fitted, ReadsAlike};

use crate::rest::{Misfit, Rest, Word};
use crate::scan::next_word;
use crate::words::{
    copy_count_of, count_of, disk_of, hex_word, mode_of, name_of, number_of, other_disk_of,
    partition_count_of, policy_of, size_of, switch_of, turns_of,
};
use lvm_num::{Mode, Name, Policy};

/// The words from a column on don't fit.
pub fn misfit(column: u32) -> Misfit
    ensures { result ≡ record { column = column } }
{
    Misfit { column }
}

/// The next word and what follows it.
pub fn word(rest: Rest<'_>) -> Result<(Word<'_>, Rest<'_>), Misfit>
    ensures { MatchResult result (λ r. left rest.entry ≡ with_word (word_at r.0) (left r.1)) (λ misfit. ((left rest.entry).words ≡ []) × (misfit ≡ record { column = (left rest.entry).end })) }
{
    match next_word(rest) {
        Some(split) => Ok(split),
        None => Err(misfit(rest.end())),
    }
}

// What a word at a column means, and what follows it.
fn fit<T>(meaning: Option<T>, column: u32, rest: Rest<'_>) -> Result<(T, Rest<'_>), Misfit>
    ensures { result ≡ fitted meaning column rest.entry }
{
    match meaning {
        Some(value) => Ok((value, rest)),
        None => Err(misfit(column)),
    }
}

/// DISK: the number of a disk.
#[tactic(auto, using(crate::proofs::ReadingLemmas::NextWord::operand_lacks))]
pub fn disk(rest: Rest<'_>) -> Result<(u16, Rest<'_>), Misfit>
    ensures { ReadsAlike (operand disk_in (left rest.entry)) result }
{
    let (word, rest) = word(rest)?;
    fit(disk_of(word.bytes), word.column, rest)
}

/// DISK: the number of a disk other than this one.
#[tactic(auto, using(crate::proofs::ReadingLemmas::NextWord::operand_lacks))]
pub fn other_disk(rest: Rest<'_>, disk: u16) -> Result<(u16, Rest<'_>), Misfit>
    ensures { ReadsAlike (operand (other_disk_in disk) (left rest.entry)) result }
{
    let (word, rest) = word(rest)?;
    fit(other_disk_of(word.bytes, disk), word.column, rest)
}

/// BLOCK: a number.
#[tactic(auto, using(crate::proofs::ReadingLemmas::NextWord::operand_lacks))]
pub fn number(rest: Rest<'_>) -> Result<(u64, Rest<'_>), Misfit>
    ensures { ReadsAlike (operand number_in (left rest.entry)) result }
{
    let (word, rest) = word(rest)?;
    fit(number_of(word.bytes), word.column, rest)
}

/// COUNT: how many blocks.
#[tactic(auto, using(crate::proofs::ReadingLemmas::NextWord::operand_lacks))]
pub fn count(rest: Rest<'_>) -> Result<(u32, Rest<'_>), Misfit>
    ensures { ReadsAlike (operand count_in (left rest.entry)) result }
{
    let (word, rest) = word(rest)?;
    fit(count_of(word.bytes), word.column, rest)
}

/// WORD: what blocks are filled with, or which sectors a cut keeps.
#[tactic(auto, using(crate::proofs::ReadingLemmas::NextWord::operand_lacks))]
pub fn pattern(rest: Rest<'_>) -> Result<(u64, Rest<'_>), Misfit>
    ensures { ReadsAlike (operand word_in (left rest.entry)) result }
{
    let (word, rest) = word(rest)?;
    fit(hex_word(word.bytes), word.column, rest)
}

/// NAME: the name of a group or of a volume.
#[tactic(auto, using(crate::proofs::ReadingLemmas::NextWord::operand_lacks))]
pub fn name(rest: Rest<'_>) -> Result<(Name, Rest<'_>), Misfit>
    ensures { ReadsAlike (operand name_in (left rest.entry)) result }
{
    let (word, rest) = word(rest)?;
    fit(name_of(word.bytes), word.column, rest)
}

/// LPS: how many logical partitions.
#[tactic(auto, using(crate::proofs::ReadingLemmas::NextWord::operand_lacks))]
pub fn partitions(rest: Rest<'_>) -> Result<(u32, Rest<'_>), Misfit>
    ensures { ReadsAlike (operand partition_count_in (left rest.entry)) result }
{
    let (word, rest) = word(rest)?;
    fit(partition_count_of(word.bytes), word.column, rest)
}

/// TURNS: how many turns.
#[tactic(auto, using(crate::proofs::ReadingLemmas::NextWord::operand_lacks))]
pub fn turns(rest: Rest<'_>) -> Result<(u32, Rest<'_>), Misfit>
    ensures { ReadsAlike (operand turns_in (left rest.entry)) result }
{
    let (word, rest) = word(rest)?;
    fit(turns_of(word.bytes), word.column, rest)
}

/// MIB: the size of a partition.
#[tactic(auto, using(crate::proofs::ReadingLemmas::NextWord::operand_lacks))]
pub fn size(rest: Rest<'_>) -> Result<(u16, Rest<'_>), Misfit>
    ensures { ReadsAlike (operand size_in (left rest.entry)) result }
{
    let (word, rest) = word(rest)?;
    fit(size_of(word.bytes), word.column, rest)
}

/// N: how many copies.
#[tactic(auto, using(crate::proofs::ReadingLemmas::NextWord::operand_lacks))]
pub fn copies(rest: Rest<'_>) -> Result<(u8, Rest<'_>), Misfit>
    ensures { ReadsAlike (operand copy_count_in (left rest.entry)) result }
{
    let (word, rest) = word(rest)?;
    fit(copy_count_of(word.bytes), word.column, rest)
}

/// The mode of a volume.
#[tactic(auto, using(crate::proofs::ReadingLemmas::NextWord::operand_lacks))]
pub fn mode(rest: Rest<'_>) -> Result<(Mode, Rest<'_>), Misfit>
    ensures { ReadsAlike (operand mode_in (left rest.entry)) result }
{
    let (word, rest) = word(rest)?;
    fit(mode_of(word.bytes), word.column, rest)
}

/// V: whether a switch is on.
#[tactic(auto, using(crate::proofs::ReadingLemmas::NextWord::operand_lacks))]
pub fn switch(rest: Rest<'_>) -> Result<(bool, Rest<'_>), Misfit>
    ensures { ReadsAlike (operand switch_in (left rest.entry)) result }
{
    let (word, rest) = word(rest)?;
    fit(switch_of(word.bytes), word.column, rest)
}

/// The policy of a volume.
#[tactic(auto, using(crate::proofs::ReadingLemmas::NextWord::operand_lacks))]
pub fn policy(rest: Rest<'_>) -> Result<(Policy, Rest<'_>), Misfit>
    ensures { ReadsAlike (operand policy_in (left rest.entry)) result }
{
    let (word, rest) = word(rest)?;
    fit(policy_of(word.bytes), word.column, rest)
}

/// Whether this option is the next word, and what follows it.
#[tactic(auto, using(crate::proofs::ReadingLemmas::NextWord::option_lacks))]
pub fn option<'a>(rest: Rest<'a>, name: &[u8]) -> (bool, Rest<'a>)
    ensures { (result.0, left result.1) ≡ option name.now (left rest.entry) }
{
    match next_word(rest) {
        Some((word, behind)) => {
            if word.bytes == name {
                (true, behind)
            } else {
                (false, rest)
            }
        }
        None => (false, rest),
    }
}

/// The line ends here, so that it is this.
#[tactic(auto, using(crate::proofs::ReadingLemmas::NextWord::ends_here))]
pub fn ends<T: Drop>(rest: Rest<'_>, value: T) -> Result<T, Misfit>
    ensures { result ≡ ends (left rest.entry) value }
{
    match next_word(rest) {
        None => Ok(value),
        Some((word, _)) => Err(misfit(word.column)),
    }
}

/// DISK, and the line ends.
pub fn last_disk(rest: Rest<'_>) -> Result<u16, Misfit>
    ensures { result ≡ last disk_in (left rest.entry) }
{
    let (disk, rest) = disk(rest)?;
    ends(rest, disk)
}

/// DISK other than this one, and the line ends.
pub fn last_other_disk(rest: Rest<'_>, disk: u16) -> Result<u16, Misfit>
    ensures { result ≡ last (other_disk_in disk) (left rest.entry) }
{
    let (other, rest) = other_disk(rest, disk)?;
    ends(rest, other)
}

/// NAME, and the line ends.
pub fn last_name(rest: Rest<'_>) -> Result<Name, Misfit>
    ensures { result ≡ last name_in (left rest.entry) }
{
    match name(rest) {
        Ok((name, rest)) => ends(rest, name),
        Err(misfit) => Err(misfit),
    }
}

/// LPS, and the line ends.
pub fn last_partitions(rest: Rest<'_>) -> Result<u32, Misfit>
    ensures { result ≡ last partition_count_in (left rest.entry) }
{
    let (partitions, rest) = partitions(rest)?;
    ends(rest, partitions)
}

/// TURNS, and the line ends.
pub fn last_turns(rest: Rest<'_>) -> Result<u32, Misfit>
    ensures { result ≡ last turns_in (left rest.entry) }
{
    let (turns, rest) = turns(rest)?;
    ends(rest, turns)
}

/// N, and the line ends.
pub fn last_copies(rest: Rest<'_>) -> Result<u8, Misfit>
    ensures { result ≡ last copy_count_in (left rest.entry) }
{
    let (copies, rest) = copies(rest)?;
    ends(rest, copies)
}

/// WORD, and the line ends.
pub fn last_pattern(rest: Rest<'_>) -> Result<u64, Misfit>
    ensures { result ≡ last word_in (left rest.entry) }
{
    let (pattern, rest) = pattern(rest)?;
    ends(rest, pattern)
}

/// Whether a DISK is the next word.
#[tactic(auto, unfolding(crate::specs::Reading::is_next))]
pub fn is_disk_next(rest: Rest<'_>) -> bool
    ensures { result ≡ is_next disk_in (left rest.entry) }
{
    match next_word(rest) {
        Some((word, _)) => disk_of(word.bytes).is_some(),
        None => false,
    }
}

/// The column of the next word, or behind the line where none is left.
pub fn next_column(rest: Rest<'_>) -> u32
    ensures { result ≡ next_column (left rest.entry) }
{
    match next_word(rest) {
        Some((word, _)) => word.column,
        None => rest.end(),
    }
}
