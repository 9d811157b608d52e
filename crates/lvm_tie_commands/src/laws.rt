//! Laws of sessions over commands on their groups. Each call does nothing: its contract is the law.
ghost use Rattle.lvm_tie_commands.specs.Beginning.{MadeStands, VariedOnStands};
ghost use Rattle.lvm_tie_commands.specs.Commands.{MklvGoesOn, RmlvGoesOn, TidyGoesOn};

/// What stands on the disks of a session that a varyon has begun, after each earlier history: of a group with volumes,
/// where on each crash image whatever any disks find is of one group. By the contract of that call the copies of those
/// that are dirty still are equal.
pub fn varied_on_stands()
    ensures { VariedOnStands }
{}

/// So it is where a mkvg has begun it, whatever other groups there are.
pub fn made_stands()
    ensures { MadeStands }
{}

/// A span goes on over `mklv`, whatever it answers; and what stands on the disks of the session goes on to stand, where
/// this does, whatever the mode of the volume.
pub fn mklv_goes_on()
    ensures { MklvGoesOn }
{}

/// So they do over `rmlv`, whatever the mode of the volume.
pub fn rmlv_goes_on()
    ensures { RmlvGoesOn }
{}

/// So a span does over `tidy`, by the contract of that call: the copies of a volume whose mark goes are equal.
pub fn tidy_goes_on()
    ensures { TidyGoesOn }
{}
