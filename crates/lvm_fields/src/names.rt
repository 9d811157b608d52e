//! Names in fields of sixteen bytes.
ghost use Rattle.std.specs.Prelude.{◌≡◌, ◌==◌, length, position, IsTrue};
ghost use Rattle.std.specs.Option.{SomeIff};
ghost use Rattle.lvm_num.specs.Name.{unpadded};
ghost use Rattle.lvm_num.specs.DescriptorBytes.{is_name_field};

use lvm_num::Name;

/// The name that sixteen bytes are, with its zeros.
pub fn name_in(field: &[u8]) -> Option<Name>
    requires { length field.now ≡ 16 }
    ensures { SomeIff result (IsTrue (is_name_field field.now)) (unpadded field.now) }
{
    let name = Name::read(text_in(field))?;
    if name.as_field().as_slice() == field {
        Some(name)
    } else {
        None
    }
}

// What stands before the first zero.
fn text_in(field: &[u8]) -> &[u8]
    ensures { result.now ≡ unpadded field.now }
{
    &field[..first_zero(field).unwrap_or(field.len())]
}

fn first_zero(field: &[u8]) -> Option<usize>
    ensures { result ≡ position (λ b. b == 0) field.now }
{
    field.iter().position(|b| *b == 0)
}
