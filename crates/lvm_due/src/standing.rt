//! How a copy stands, and to which copies a request goes.
ghost use Rattle.std.specs.Prelude.{◌≡◌, ◌||◌, ◌<◌, ◌^◌, ◌++◌, [], ◌∷◌, IsTrue, filter};
ghost use Rattle.std.specs.Option.{option_map_or};
ghost use Rattle.lvm_num.specs.declared.place.Pp.{Pp};
ghost use Rattle.lvm_num.specs.Descriptor.{IsValid, is_size};
ghost use Rattle.lvm_session.specs.passed.Path.{at_of};
ghost use Rattle.lvm_session.specs.Bringing.{is_whole};
ghost use Rattle.lvm_session.specs.Fields.{core_of};
ghost use Rattle.lvm_session.specs.Judging.{IsWithinVolume, copies_for, group_in, group_of, is_beside_copy, is_caught, is_missing, is_running, is_settled, is_stale, is_sure, is_usable, is_wanted_stale, lp_of, mode_of, destination_aims, destinations_for, policy_of, pps_of, same_pps};

use crate::facts_places::{is_pp, partition_blocks};
use lvm_num::{Mode, Policy, Pp, copies_of, volume_of};
use lvm_session::below::{Ask, Target};
use lvm_session::{OpenCopy, Session};

/// Whether the disk didn't answer when the session began, or a write of a record on it has failed since.
pub fn is_missing(session: &Session, disk: u16) -> bool
    ensures { result ≡ is_missing (core_of session.now) disk }
{
    session.updater.wanted().is_missing(disk)
}

/// Whether the committed status calls the partition stale.
pub fn is_stale(session: &Session, pp: Pp) -> bool
    ensures { result ≡ is_stale (core_of session.now) pp }
{
    session.updater.committed().is_stale(pp)
}

/// Whether it is wanted stale.
pub fn is_wanted_stale(session: &Session, pp: Pp) -> bool
    ensures { result ≡ is_wanted_stale (core_of session.now) pp }
{
    session.updater.wanted().is_stale(pp)
}

/// Whether the committed status and the one in flight both call it stale.
pub fn is_settled(session: &Session, pp: Pp) -> bool
    ensures { result ≡ is_settled (core_of session.now) pp }
{
    session.updater.is_settled_stale(pp)
}

/// Whether it is fresh by the committed status, on a disk that isn't missing.
pub fn is_usable(session: &Session, pp: Pp) -> bool
    ensures { result ≡ is_usable (core_of session.now) pp }
{
    !is_stale(session, pp) && !is_missing(session, pp.disk)
}

/// Whether it is fresh by the committed status, and not wanted stale.
pub fn is_sure(session: &Session, pp: Pp) -> bool
    ensures { result ≡ is_sure (core_of session.now) pp }
{
    !is_stale(session, pp) && !is_wanted_stale(session, pp)
}

/// Whether all track groups of the copy that is open are copied.
pub fn is_whole(session: &Session, copy: &OpenCopy) -> bool
    ensures { result ≡ is_whole (core_of session.now) copy.now }
{
    u64::from(copy.cursor) >= partition_blocks(session.descriptor.mib) / 256
}

/// Whether the copy that is open hasn't ended.
pub fn is_running(copy: &OpenCopy) -> bool
    ensures { result ≡ is_running copy.now }
{
    copy.end.is_none()
}

/// Whether it is the copy that is being brought up, which has passed this track group of its logical partition.
pub fn is_caught(session: &Session, group: u64, pp: Pp) -> bool
    ensures { result ≡ is_caught (core_of session.now) group pp }
{
    match &session.copy {
        None => false,
        Some(copy) => is_running(copy) && is_pp(pp, copy.pp) && group < u64::from(copy.cursor),
    }
}

/// The logical partition, from 0, in which a request lies.
pub fn lp_of(session: &Session, ask: &Ask) -> u64
    ensures { result ≡ lp_of (core_of session.now) ask.now }
{
    let blocks = partition_blocks(session.descriptor.mib);
    if blocks == 0 { 0 } else { ask.at() / blocks }
}

/// Its track group, from 0, in its logical partition.
pub fn group_in(session: &Session, ask: &Ask) -> u64
    requires { IsTrue (is_size session.now.descriptor.mib) }
    ensures { result ≡ group_in (core_of session.now) ask.now }
{
    ask.at() % partition_blocks(session.descriptor.mib) / 256
}

/// Its track group, from 0, in its volume.
pub fn group_of(ask: &Ask) -> u32
    requires { at_of ask.now < 2 ^ 40 }
    ensures { result ≡ group_of ask.now }
{
    (ask.at() / 256) as u32
}

/// How its volume sees to copies that may differ after a crash.
pub fn mode_of(session: &Session, ask: &Ask) -> Mode
    ensures { result ≡ mode_of (core_of session.now) ask.now }
{
    match volume_of(&session.descriptor, ask.lv()) {
        None => Mode::Off,
        Some(row) => row.mode,
    }
}

/// In which order its volume takes the copies.
pub fn policy_of(session: &Session, ask: &Ask) -> Policy
    ensures { result ≡ policy_of (core_of session.now) ask.now }
{
    match volume_of(&session.descriptor, ask.lv()) {
        None => Policy::Parallel,
        Some(row) => row.policy,
    }
}

/// The copies of the logical partition of a request.
pub fn copies_for<'a>(session: &'a Session, ask: &Ask) -> &'a [Pp]
    requires valid { IsValid session.now.descriptor }
    requires within { IsWithinVolume session.now.descriptor ask.now }
    ensures { result.now ≡ copies_for (core_of session.now) ask.now }
{
    match volume_of(&session.descriptor, ask.lv()) {
        None => &[],
        Some(row) => copies_of(row, lp_of(session, ask) as u32),
    }
}

/// Whether a write in this track group goes to a copy: it is usable, or being brought up and past it.
pub fn is_aim(session: &Session, group: u64, pp: Pp) -> bool
    ensures { result ≡ (is_usable (core_of session.now) pp || is_caught (core_of session.now) group pp) }
{
    is_usable(session, pp) || is_caught(session, group, pp)
}

/// Whether a request goes over the logical partition of a copy that is open.
pub fn is_beside_copy(session: &Session, ask: &Ask, copy: &OpenCopy) -> bool
    ensures { result ≡ is_beside_copy (core_of session.now) ask.now copy.now }
{
    ask.lv() == copy.lv && lp_of(session, ask) == u64::from(copy.lp)
}

/// The destination of a move of its logical partition, also once the move has ended.
pub fn destination_for(session: &Session, ask: &Ask) -> Option<Pp>
    ensures { destinations_for (core_of session.now) ask.now ≡ option_map_or (λ (p : Pp). p ∷ []) result [] }
{
    match &session.copy {
        None => None,
        Some(copy) => {
            if copy.moves && is_beside_copy(session, ask, copy) {
                Some(copy.pp)
            } else {
                None
            }
        }
    }
}

/// That destination, where the move runs and has passed its track group: a write goes there too.
pub fn destination_aim(session: &Session, ask: &Ask) -> Option<Pp>
    requires { IsTrue (is_size session.now.descriptor.mib) }
    ensures { destination_aims (core_of session.now) ask.now ≡ option_map_or (λ (p : Pp). p ∷ []) result [] }
{
    match &session.copy {
        None => None,
        Some(copy) => {
            if copy.moves
                && is_beside_copy(session, ask, copy)
                && is_caught(session, group_in(session, ask), copy.pp)
            {
                Some(copy.pp)
            } else {
                None
            }
        }
    }
}

// Whether these targets are the destination alone, or none where there is none.
#[tactic(auto, using(crate::proofs::FactsJudgingLemmas::same_as_none))]
fn are_last(targets: &[Target], place: Option<Pp>) -> bool
    ensures { result ≡ same_pps (pps_of targets.now) (option_map_or (λ (p : Pp). p ∷ []) place []) }
{
    match targets.split_first() {
        None => place.is_none(),
        Some((target, others)) => match place {
            None => false,
            Some(pp) => is_pp(target.pp, pp) && others.is_empty(),
        },
    }
}

/// Whether the targets are, one by one, those of these copies to which a write in this track group goes, and then
/// the place.
pub fn are_targets(
    session: &Session,
    group: u64,
    pps: &[Pp],
    place: Option<Pp>,
    targets: &[Target],
) -> bool
    ensures { result ≡ same_pps (pps_of targets.now) (filter (λ (p : Pp). is_usable (core_of session.now) p || is_caught (core_of session.now) group p) pps.now ++ option_map_or (λ (p : Pp). p ∷ []) place []) }
{
    let mut rest = targets;
    for pp in pps {
        if is_aim(session, group, *pp) {
            match rest.split_first() {
                Some((target, others)) if is_pp(target.pp, *pp) => rest = others,
                _ => return false,
            }
        }
    }
    are_last(rest, place)
}
