//! The words of a line, from the left.
ghost use Rattle.std.specs.Prelude.{◌≡◌, ◌≢◌, ◌+◌, ◌<◌, ◌≤◌, [], length, slice_index, take, drop, MatchOption, IfSome};
ghost use Rattle.lvm_parse.specs.Rests.{left, word_at, with_word};

use crate::rest::{Rest, Word};

const BLANK: u8 = b' ';

// A line without the blanks in front.
fn skip_blanks(rest: Rest<'_>) -> Rest<'_>
    ensures words { left result ≡ left rest.entry }
    ensures first { 0 < length result.bytes.now → slice_index result.bytes.now 0 ≢ 32 }
    ensures shorter { length result.bytes.now ≤ length rest.entry.bytes.now }
{
    for i in 0..rest.bytes.len() {
        if rest.bytes[i] != BLANK {
            return rest.skip(i);
        }
    }
    rest.skip(rest.bytes.len())
}

// The word at the front of a line, and what follows it.
fn split_word(rest: Rest<'_>) -> (Word<'_>, Rest<'_>)
    requires some { 0 < length rest.bytes.now }
    requires first { slice_index rest.bytes.now 0 ≢ 32 }
    ensures words { left rest.entry ≡ with_word (word_at result.0) (left result.1) }
    ensures shorter { length result.1.bytes.now < length rest.entry.bytes.now }
{
    for i in 0..rest.bytes.len() {
        if rest.bytes[i] == BLANK {
            return split_at(rest, i);
        }
    }
    split_at(rest, rest.bytes.len())
}

fn split_at(rest: Rest<'_>, size: usize) -> (Word<'_>, Rest<'_>)
    requires { size ≤ length rest.bytes.now }
    ensures column { result.0.column ≡ rest.entry.column }
    ensures word { result.0.bytes.now ≡ take size rest.entry.bytes.now }
    ensures column_behind { result.1.column ≡ rest.entry.column + size }
    ensures behind { result.1.bytes.now ≡ drop size rest.entry.bytes.now }
{
    let word = Word {
        column: rest.column,
        bytes: rest.bytes.split_at(size).0,
    };
    (word, rest.skip(size))
}

/// The next word, if there is one, and what follows it.
pub fn next_word(rest: Rest<'_>) -> Option<(Word<'_>, Rest<'_>)>
    ensures word { MatchOption result ((left rest.entry).words ≡ []) (λ split. left rest.entry ≡ with_word (word_at split.0) (left split.1)) }
    ensures shorter { IfSome result (λ split. length split.1.bytes.now < length rest.entry.bytes.now) }
{
    let rest = skip_blanks(rest);
    if rest.bytes.is_empty() {
        None
    } else {
        Some(split_word(rest))
    }
}
