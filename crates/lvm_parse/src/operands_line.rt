//! The bytes of a line.
ghost use Rattle.std.specs.Prelude.{◌≡◌, ◌<◌, ◌≤◌, length, take, not, position, IfSome, IfNone};
ghost use Rattle.lvm_parse.specs.Bytes.{unreadable_at, is_plain, is_remark};

const BLANK: u8 = b' ';

const LONGEST_LINE: usize = 4096;

/// Whether a remark begins with this word.
pub fn is_remark(word: &[u8]) -> bool
    ensures { result ≡ is_remark word.now }
{
    match word {
        [first, ..] => *first == b'#',
        [] => false,
    }
}

fn is_plain(byte: u8) -> bool
    ensures { result ≡ is_plain byte }
{
    BLANK <= byte && byte <= b'~'
}

// The bytes that a line may have.
fn front(line: &[u8]) -> &[u8]
    ensures front { result.now ≡ take 4096 line.now }
    ensures short { length result.now ≤ 4096 }
{
    if line.len() > LONGEST_LINE {
        &line[..LONGEST_LINE]
    } else {
        line
    }
}

fn first_bad(line: &[u8]) -> Option<usize>
    ensures at { result ≡ position (λ b. not (is_plain b)) line.now }
    ensures within { IfSome result (λ place. place < length line.now) }
{
    line.iter().position(|byte| !is_plain(*byte))
}

/// The column at which a line can't be read, if there is one: that of a byte that isn't plain, or the
/// one behind the longest line.
pub fn unreadable_at(line: &[u8]) -> Option<u32>
    ensures at { result ≡ unreadable_at line.now }
    ensures short { IfNone result (length line.now ≤ 4096) }
{
    match first_bad(front(line)) {
        Some(place) => Some(place as u32 + 1),
        None if line.len() > LONGEST_LINE => Some(4097),
        None => None,
    }
}
