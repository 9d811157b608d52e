//! The line of a block.
ghost use Rattle.std.specs.Prelude.{◌≡◌, ◌++◌, ◌<◌, OnOk, IfOk, if◌then◌else◌, take};
ghost use Rattle.std.specs.String.{string_bytes};
ghost use Rattle.lvm_show.specs.Blocks.{hex_digit, hex_text, is_filled, block_text};

use lvm_num::{Memory, Text, word_of};
use std::alloc::{AllocError, Global};

// The bytes of the line of a block that a word fills, but for a large number.
const LINE: usize = 32;

/// `rd`: the number of a block, and the word that fills it in 16 lower-case hexadecimal digits, or else
/// its 512 bytes in 1,024.
pub fn show_block(alloc: Global, at: u64, block: &[u8; 512]) -> Result<Text, Memory>
    ensures { IfOk result (λ text. text ≡ block_text at block.now) }
{
    Ok(Text::new(block_line(alloc, at, block)?))
}

fn block_line(alloc: Global, at: u64, block: &[u8; 512]) -> Result<String, AllocError>
    ensures { IfOk result (λ text. string_bytes text ≡ block_text at block.now) }
{
    let mut text = String::with_capacity(alloc, LINE)?;
    write!(text, "{at} ")?;
    push_hex(&mut text, shown(block))?;
    text.push('\n')?;
    Ok(text)
}

// What of a block is shown: the eight bytes that fill it, or else all.
fn shown(block: &[u8; 512]) -> &[u8]
    ensures { result.now ≡ (if is_filled block.now then take 8 block.now else block.now) }
{
    match word_of(block) {
        Some(_) => block.split_at(8).0,
        None => block,
    }
}

// Adds two hexadecimal digits for each byte.
fn push_hex(text: &mut String, bytes: &[u8]) -> Result<(), AllocError>
    ensures { OnOk result (string_bytes text.new ≡ string_bytes text.old ++ hex_text bytes.now) }
{
    for &byte in bytes {
        text.push(char::from(hex_digit(byte / 16)))?;
        text.push(char::from(hex_digit(byte % 16)))?;
    }
    Ok(())
}

// The lower-case hexadecimal digit of a number below 16.
fn hex_digit(n: u8) -> u8
    requires { n < 16 }
    ensures { result ≡ hex_digit n }
{
    if n < 10 { b'0' + n } else { b'a' + (n - 10) }
}
