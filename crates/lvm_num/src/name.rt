//! The name of a volume group or of a logical volume.
ghost use Rattle.std.specs.Prelude.{◌≡◌, ◌<◌, ◌==◌, IsTrue};
ghost use Rattle.std.specs.Prelude.{position};
ghost use Rattle.std.specs.List.{list_all};
ghost use Rattle.std.specs.Option.{SomeIff};
ghost use Rattle.std.specs.Cmp.Lexicographic.{pointwise};
ghost use Rattle.std.specs.Cmp.Rules.{comparing};
ghost use Rattle.std.proofs.Common.{rules};
ghost use Rattle.lvm_num.specs.Name.{is_letter, is_name_byte, is_name, padded};

use std::marker::Model;

const FIELD: usize = 16;

const LONGEST: usize = 15;

/// A name: 1 to 15 bytes, a letter and then letters, digits and underscores, that don't begin
/// with `hdisk`, as the name of a disk does. Contracts see these bytes.
#[derive(Clone, Copy)]
pub struct Name {
    bytes: [u8; 16],
}

impl Model for Name {
    ghost use Rattle.std.specs.Prelude.{List, ℕ};
    ghost use Rattle.lvm_num.specs.Name.{unpadded, padded, IsPadded};

    ghost Value = { List ℕ };

    ghost view = { λ n. unpadded n.bytes };

    ghost invariant = { λ n. IsPadded n.bytes };

    ghost inverse = { λ text. record { bytes = padded text } };

    ghost inverse_ok = { λ n is t. record { bytes = is.same t } };
}

impl PartialEq for Name {
    ghost eq = { pointwise ◌==◌ };

    ghost laws = { Prim.search (comparing, rules) };

    fn eq(&self, other: &Name) -> bool {
        self.bytes == other.bytes
    }
}

impl Eq for Name {
    ghost laws = { Prim.search (comparing, rules) };
}

impl Name {
    /// The name that the bytes are, if they are one.
    pub fn read(bytes: &[u8]) -> Option<Name>
        ensures { SomeIff result (IsTrue (is_name bytes.now)) bytes.now }
    {
        if !is_name(bytes) {
            return None;
        }
        let mut field = [0; FIELD];
        field[..bytes.len()].copy_from_slice(bytes);
        Some(Name { bytes: field })
    }

    /// Its bytes, without padding.
    pub fn as_bytes(&self) -> &[u8]
        ensures bytes { result.now ≡ self.now }
        ensures name { IsTrue (is_name self.now) }
    {
        &self.bytes[..first_zero(&self.bytes).unwrap_or(FIELD)]
    }

    /// Its bytes and zeros up to sixteen, as a record has them.
    pub fn as_field(&self) -> &[u8; 16]
        ensures field { result.now ≡ padded self.now }
        ensures name { IsTrue (is_name self.now) }
    {
        &self.bytes
    }
}

fn first_zero(field: &[u8; 16]) -> Option<usize>
    ensures { result ≡ position (λ b. b == 0) field.now }
{
    field.iter().position(|b| *b == 0)
}

fn is_letter(b: u8) -> bool
    ensures { result ≡ is_letter b }
{
    matches!(b, b'a'..=b'z' | b'A'..=b'Z')
}

fn is_name_byte(b: u8) -> bool
    ensures { result ≡ is_name_byte b }
{
    is_letter(b) || matches!(b, b'0'..=b'9' | b'_')
}

fn are_name_bytes(bytes: &[u8]) -> bool
    ensures { result ≡ list_all is_name_byte bytes.now }
{
    bytes.iter().all(|b| is_name_byte(*b))
}

fn is_name(bytes: &[u8]) -> bool
    ensures { result ≡ is_name bytes.now }
{
    let Some((first, others)) = bytes.split_first() else {
        return false;
    };
    if bytes.len() > LONGEST || bytes.starts_with(b"hdisk") || !is_letter(*first) {
        return false;
    }
    are_name_bytes(others)
}
