//! Blocks that one word fills.
ghost use Rattle.std.specs.Prelude.{◌≡◌, ◌≢◌, ℕ, ◌<◌, ◌^◌, IfSome, IfNone};
ghost use Rattle.std.specs.List.{list_all};
ghost use Rattle.lvm_num.specs.Word.{fill_of, is_word};

const WORD: usize = 8;

const WORDS: usize = 64;

/// The block of 512 bytes that has the word's eight big-endian bytes 64 times.
pub fn fill(word: u64) -> [u8; 512]
    ensures { result ≡ fill_of word }
{
    let bytes = word.to_be_bytes();
    let mut block = [0; 512];
    for k in 0..WORDS {
        block[WORD * k..WORD * k + WORD].copy_from_slice(&bytes);
    }
    block
}

// Whether each of the pieces is the word.
fn are_all(pieces: &[[u8; WORD]], word: u64) -> bool
    ensures { result ≡ list_all (is_word word) pieces.now }
{
    pieces
        .iter()
        .all(|piece| u64::from_be_bytes(*piece) == word)
}

/// The word that fills the block, if one does.
pub fn word_of(block: &[u8; 512]) -> Option<u64>
    ensures filled { IfSome result (λ word. block.now ≡ fill_of word) }
    ensures other { IfNone result ((word : ℕ) → word < 2 ^ 64 → block.now ≢ fill_of word) }
{
    let (pieces, _) = block.as_chunks::<WORD>();
    let word = u64::from_be_bytes(pieces[0]);
    if are_all(pieces, word) {
        Some(word)
    } else {
        None
    }
}
