//! What a single word means.
ghost use Rattle.std.specs.Prelude.{◌≡◌, ◌≤◌, IfSome, if◌then◌else◌};
ghost use Rattle.lvm_parse.specs.Words.{number_in, number_within, count_in, partition_count_in, turns_in, copy_count_in, size_in, is_hex_digit, hex_value, word_in, name_in, is_padded, disk_in, other_disk_in, mode_in, switch_in, policy_in};

use lvm_num::{Mode, Name, Policy};

const LONGEST_NUMBER: usize = 20;

/// The number that a word is, if it is one.
pub fn number_of(word: &[u8]) -> Option<u64>
    ensures { result ≡ number_in word.now }
{
    if word.is_empty() || word.len() > LONGEST_NUMBER {
        return None;
    }
    let mut number = 0u64;
    for &byte in word {
        if !byte.is_ascii_digit() {
            return None;
        }
        let Some(tens) = number.checked_mul(10) else {
            return None;
        };
        let Some(next) = tens.checked_add(u64::from(byte - b'0')) else {
            return None;
        };
        number = next;
    }
    Some(number)
}

// The number that a word is, if it is one within these bounds.
fn number_within(word: &[u8], low: u64, high: u64) -> Option<u64>
    ensures number { result ≡ number_within low high word.now }
    ensures most { IfSome result (λ number. number ≤ high) }
{
    let number = number_of(word)?;
    if low <= number && number <= high {
        Some(number)
    } else {
        None
    }
}

/// How many blocks.
pub fn count_of(word: &[u8]) -> Option<u32>
    ensures { result ≡ count_in word.now }
{
    let count = number_within(word, 1, 4096)?;
    Some(count as u32)
}

/// How many logical partitions.
pub fn partition_count_of(word: &[u8]) -> Option<u32>
    ensures { result ≡ partition_count_in word.now }
{
    let partitions = number_within(word, 1, 65535)?;
    Some(partitions as u32)
}

/// How many turns.
pub fn turns_of(word: &[u8]) -> Option<u32>
    ensures { result ≡ turns_in word.now }
{
    let turns = number_within(word, 1, 1_000_000)?;
    Some(turns as u32)
}

/// How many copies.
pub fn copy_count_of(word: &[u8]) -> Option<u8>
    ensures { result ≡ copy_count_in word.now }
{
    let copies = number_within(word, 0, 9)?;
    Some(copies as u8)
}

/// The size of a partition in MiB.
pub fn size_of(word: &[u8]) -> Option<u16>
    ensures { result ≡ size_in word.now }
{
    let mib = number_within(word, 1, 1024)?;
    if matches!(mib, 1 | 2 | 4 | 8 | 16 | 32 | 64 | 128 | 256 | 512 | 1024) {
        Some(mib as u16)
    } else {
        None
    }
}

// The value of a hexadecimal digit of either case.
fn hex_digit(byte: u8) -> Option<u8>
    ensures { result ≡ (if is_hex_digit byte then Some (hex_value byte) else None) }
{
    match byte {
        b'0'..=b'9' => Some(byte - b'0'),
        b'A'..=b'F' => Some(byte - b'A' + 10),
        b'a'..=b'f' => Some(byte - b'a' + 10),
        _ => None,
    }
}

/// The word that 16 hexadecimal digits spell.
pub fn hex_word(word: &[u8]) -> Option<u64>
    ensures { result ≡ word_in word.now }
{
    if word.len() != 16 {
        return None;
    }
    let mut value = 0u64;
    for &byte in word {
        let Some(digit) = hex_digit(byte) else {
            return None;
        };
        let Some(sixteens) = value.checked_mul(16) else {
            return None;
        };
        let Some(next) = sixteens.checked_add(u64::from(digit)) else {
            return None;
        };
        value = next;
    }
    Some(value)
}

/// The name of a group or of a volume.
pub fn name_of(word: &[u8]) -> Option<Name>
    ensures { result ≡ name_in word.now }
{
    Name::read(word)
}

fn is_padded(digits: &[u8]) -> bool
    ensures { result ≡ is_padded digits.now }
{
    match digits {
        [b'0', _, ..] => true,
        _ => false,
    }
}

/// The number of a disk.
pub fn disk_of(word: &[u8]) -> Option<u16>
    ensures { result ≡ disk_in word.now }
{
    let digits = word.strip_prefix(b"hdisk".as_slice())?;
    if is_padded(digits) {
        return None;
    }
    let disk = number_within(digits, 0, 127)?;
    Some(disk as u16)
}

/// The mode that `-w` gives a volume.
pub fn mode_of(word: &[u8]) -> Option<Mode>
    ensures { result ≡ mode_in word.now }
{
    if word == b"n".as_slice() {
        Some(Mode::Off)
    } else if word == b"y".as_slice() {
        Some(Mode::Active)
    } else if word == b"a".as_slice() {
        Some(Mode::Active)
    } else if word == b"p".as_slice() {
        Some(Mode::Passive)
    } else {
        None
    }
}

/// The disk that the word is, where it isn't this one.
pub fn other_disk_of(word: &[u8], disk: u16) -> Option<u16>
    ensures { result ≡ other_disk_in disk word.now }
{
    let other = disk_of(word)?;
    if other == disk { None } else { Some(other) }
}

/// Whether a switch is on, by `y`, or off, by `n`.
pub fn switch_of(word: &[u8]) -> Option<bool>
    ensures { result ≡ switch_in word.now }
{
    if word == b"y".as_slice() {
        Some(true)
    } else if word == b"n".as_slice() {
        Some(false)
    } else {
        None
    }
}

/// The policy that `-d` gives a volume.
pub fn policy_of(word: &[u8]) -> Option<Policy>
    ensures { result ≡ policy_in word.now }
{
    if word == b"p".as_slice() {
        Some(Policy::Parallel)
    } else if word == b"s".as_slice() {
        Some(Policy::Sequential)
    } else if word == b"ps".as_slice() {
        Some(Policy::ParallelWrite)
    } else if word == b"pr".as_slice() {
        Some(Policy::RoundRobin)
    } else {
        None
    }
}
