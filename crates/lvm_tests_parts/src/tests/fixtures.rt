//! What ends a test.
ghost use Rattle.std.specs.Prelude.{IsTrue};

use std::process::Abort;

/// Ends the test where this isn't so, and says of what.
pub fn check(rt: &impl Abort, is: bool, what: &str)
    ensures { IsTrue is }
{
    assert!(rt; is, "{what}");
}

/// The same, with the place of a step.
pub fn check_at(rt: &impl Abort, is: bool, what: &str, at: usize)
    ensures { IsTrue is }
{
    assert!(rt; is, "{what} {at}");
}
