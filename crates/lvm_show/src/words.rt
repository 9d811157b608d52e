//! The pieces that texts are made of.
ghost use Rattle.std.specs.Prelude.{◌≡◌, ◌++◌, ◌<◌, OnOk, Some, replicate, length, ◌-◌};
ghost use Rattle.std.specs.Fmt.{decimal};
ghost use Rattle.std.specs.String.{string_bytes};
ghost use Rattle.lvm_show.specs.Texts.{counted};

use lvm_num::Name;
use std::alloc::AllocError;
use std::fmt;
use std::str::from_utf8;

/// The bytes of a name as text.
pub fn text_of(name: &Name) -> &str
    ensures { result.now ≡ name.now }
{
    match from_utf8(name.as_bytes()) {
        Ok(text) => text,
        Err(_) => unreachable!(),
    }
}

/// Adds a line that says how many there are of something.
#[tactic(auto, unfolding(crate::specs::Texts::counted))]
pub fn push_counted(text: &mut String, label: &str, count: u64) -> Result<(), AllocError>
    ensures { OnOk result (string_bytes text.new ≡ string_bytes text.old ++ counted label.now count) }
{
    write!(text, "{label} {count}\n")
}

/// A number in at least four digits.
#[derive(Clone, Copy)]
pub struct FourDigits(pub u64);

impl fmt::Display for FourDigits {
    ghost use Rattle.std.specs.Prelude.{Some};
    ghost use Rattle.lvm_show.specs.Texts.{four_digits};

    ghost output = { λ n. Some (four_digits n.0) };

    fn fmt<W: fmt::Write>(&self, f: &mut fmt::Formatter<W>) -> fmt::Result {
        let number = self.0;
        let zeros = zeros_before(number);
        write!(f, "{zeros}{number}")
    }
}

// The zeros in front of a number of fewer than four digits.
fn zeros_before(number: u64) -> &'static str
    ensures { result.now ≡ replicate (4 - length (decimal number)) 48 }
{
    match number {
        0..=9 => "000",
        10..=99 => "00",
        100..=999 => "0",
        _ => "",
    }
}
