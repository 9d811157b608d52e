//! Laws: what the definitions say of sessions that are written out.
ghost use Rattle.lvm_due.specs.Worked.{DuesAreNarrow};

/// In a session with each of its parts in use only the read that has got its blocks is due, to land; and one with a
/// write under way is quiet, and only the write's second transfer is due.
pub fn dues_are_narrow()
    ensures { DuesAreNarrow }
{}
