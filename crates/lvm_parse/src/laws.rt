//! What holds of every line.
ghost use Rattle.lvm_parse.specs.Forced.{SpellsForce};
ghost use Rattle.lvm_parse.specs.Within.{SpellsWithin, IsRefusedWithin};

/// A line that isn't in the language is refused at a column from 1 to the one behind its last byte.
pub fn columns_are_within(line: &[u8])
    ensures { IsRefusedWithin line.now }
{
    let _line = line;
}

/// A command that a line spells has its numbers and its disks within the bounds of the language.
pub fn fields_are_within(line: &[u8])
    ensures { SpellsWithin line.now }
{
    let _line = line;
}

/// A `mkvg -f` has the bytes `-f`.
pub fn force_is_spelled(line: &[u8])
    ensures { SpellsForce line.now }
{
    let _line = line;
}
