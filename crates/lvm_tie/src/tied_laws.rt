//! Laws of sessions that are worked by hand. Each call does nothing: its contract is the law.
ghost use Rattle.lvm_tie.specs.Worked.{AdmittedAreTied, BeginningsAreTied, UpdatingIsTied, WaitingAreTied, WritingIsTied};

/// A session that has just begun, over two disks that mirror a volume and hold its records, is tied, in each mode, with a stale
/// copy or without.
pub fn beginnings_are_tied()
    ensures { BeginningsAreTied }
{}

/// So is the session that follows once a client has submitted a write, which waits.
pub fn waiting_are_tied()
    ensures { WaitingAreTied }
{}

/// So it is once the write is admitted, also where its volume is wanted dirty with it.
pub fn admitted_are_tied()
    ensures { AdmittedAreTied }
{}

/// So it is once the transfer to the first copy is out, of a volume that keeps no record.
pub fn writing_is_tied()
    ensures { WritingIsTied }
{}

/// So it is once the first write of the status is out by which a passive volume is dirty.
pub fn updating_is_tied()
    ensures { UpdatingIsTied }
{}
