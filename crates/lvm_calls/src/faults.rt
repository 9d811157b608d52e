//! How many transfers have failed on the disks of the copies of a logical partition.
ghost use Rattle.std.specs.Prelude.{◌≡◌, slice_get};
ghost use Rattle.std.specs.Option.{option_map_or};
ghost use Rattle.lvm_num.specs.declared.place.Pp.{Pp};
ghost use Rattle.lvm_session.specs.Fields.{core_of};
ghost use Rattle.lvm_session.specs.Calls.{faults_of};
ghost use Rattle.lvm_session.specs.Causes.{faults_at_first};
ghost use Rattle.lvm_calls.specs.Opening.{counts_seen, faults_seen};

use lvm_disk::Shelf;
use lvm_num::Pp;
use lvm_session::Session;

fn faults_at_first(session: &Session, disk: u16) -> u64
    ensures { result ≡ faults_at_first (core_of session.now) disk }
{
    match session.origin.faults.get(usize::from(disk)) {
        None => 0,
        Some(faults) => *faults,
    }
}

// Of a disk that isn't on the shelf as many as when the session began.
fn faults_seen<S: Shelf>(session: &Session, shelf: &S, disk: u16) -> u64
    ensures { result ≡ faults_seen (S.device shelf.now) (core_of session.now) disk }
{
    if disk < shelf.disks() {
        shelf.faults(disk)
    } else {
        faults_at_first(session, disk)
    }
}

fn faults_at<S: Shelf>(session: &Session, shelf: &S, copies: &[Pp], k: usize) -> u64
    ensures { result ≡ option_map_or (λ (p : Pp). faults_seen (S.device shelf.now) (core_of session.now) p.disk) (slice_get copies.now k) 0 }
{
    match copies.get(k) {
        None => 0,
        Some(pp) => faults_seen(session, shelf, pp.disk),
    }
}

/// On the disks of three copies, 0 where there are fewer, and on that of the copy itself.
pub fn faults_of<S: Shelf>(session: &Session, shelf: &S, copies: &[Pp], own: Pp) -> [u64; 4]
    ensures { result ≡ faults_of (counts_seen (S.device shelf.now) (core_of session.now)) copies.now own }
{
    [
        faults_at(session, shelf, copies, 0),
        faults_at(session, shelf, copies, 1),
        faults_at(session, shelf, copies, 2),
        faults_seen(session, shelf, own.disk),
    ]
}
