//! Words that may be of the language, whatever they say.
ghost use Rattle.std.specs.Prelude.{◌≡◌, IfOk, Err, true, false, map};
ghost use Rattle.std.specs.List.{list_all};
ghost use Rattle.lvm_words.specs.CommandLine.{is_signed, is_plain};

use crate::fault::WordsFault;
use lvm_num::Text;
use std::alloc::Global;

// No word of the language is longer.
const LONGEST_WORD: usize = 20;

// Whether a sign stands in front.
fn is_signed(word: &[u8]) -> bool
    ensures { result ≡ is_signed word.now }
{
    matches!(word.first(), Some(b'+' | b'-'))
}

// Whether a word may be of the language. `clap` would take more: a word with a hyphen in front is an option
// to it, some of which it answers by help, and a number may have a plus or any count of zeros in front.
fn is_plain(word: &[u8]) -> bool
    ensures { result ≡ is_plain word.now }
{
    !is_signed(word) && word.len() <= LONGEST_WORD
}

/// The words, where each may be of the language.
pub(crate) fn plain_words<'a>(alloc: Global, words: &'a [Text]) -> Result<Vec<&'a str>, WordsFault>
    ensures same { IfOk result (λ plain. map (λ word. word.now) plain.items ≡ words.now) }
    ensures plain { IfOk result (λ _. list_all is_plain words.now ≡ true) }
    ensures usage { result ≡ Err WordsFault.Usage → list_all is_plain words.now ≡ false }
{
    let mut plain = Vec::new(alloc);
    for word in words {
        if !is_plain(word.as_bytes()) {
            return Err(WordsFault::Usage);
        }
        if plain.push(word.as_str()).is_err() {
            return Err(WordsFault::Memory);
        }
    }
    Ok(plain)
}
