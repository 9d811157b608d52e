//! Laws: what marks of staleness and the end of the copy leave of a request.
ghost use Rattle.lvm_keeps_events.specs.Marks.{CopyEndsKeepRequests, MarksKeepRequests};

/// Whatever comes to be wanted stale, what holds of a request goes on to hold.
pub fn marks_keep_requests()
    ensures { MarksKeepRequests }
{}

/// So it does however the copy ends that is open.
pub fn copy_ends_keep_requests()
    ensures { CopyEndsKeepRequests }
{}
