//! Laws: what the end of a transfer of a request leaves is sound.
ghost use Rattle.lvm_keeps_events.specs.DataEnds.{DataEndKeeps};

/// The end of a transfer of a request leaves a session sound, well or badly, with the staleness and the end of the
/// copy that is open that it entails.
pub fn data_end_keeps()
    ensures { DataEndKeeps }
{}
