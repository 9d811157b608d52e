//! What the tests share.
ghost use Rattle.std.specs.Prelude.{IsTrue};

use lvm_num::Name;
use std::process::Abort;

/// Ends the test where this isn't so, and says of what.
pub fn check(rt: &impl Abort, is: bool, what: &str)
    ensures { IsTrue is }
{
    assert!(rt; is, "{what}");
}

pub fn name_of(rt: &impl Abort, name: &[u8]) -> Name {
    Name::read(name).expect(rt, "a name")
}
