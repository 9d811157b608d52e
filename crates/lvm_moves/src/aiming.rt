//! The copies to which a write goes.
ghost use Rattle.std.specs.Prelude.{◌≡◌, ◌≤◌, ◌||◌, ◌<◌, ◌++◌, ◌∷◌, [], IsTrue, true, filter, length, map};
ghost use Rattle.lvm_num.specs.declared.place.Pp.{Pp};
ghost use Rattle.lvm_num.specs.Descriptor.{is_size};
ghost use Rattle.lvm_num.specs.Geometry.{sector_of};
ghost use Rattle.lvm_session.specs.Fields.{core_of};
ghost use Rattle.lvm_session.specs.Judging.{IsWithinVolume, aims, is_caught, is_usable, destination_aims};
ghost use Rattle.lvm_session.specs.State.{state};
ghost use Rattle.lvm_session.specs.Events.{destination_target, target_at};
ghost use Rattle.lvm_moves.specs.Choosing.{IsThere, MayChoose};

use arrayvec::ArrayVec;
use lvm_disk::Shelf;
use lvm_due::below::{copies_for, group_in, is_aim, is_usable, partition_blocks};
use lvm_due::destination_aim;
use lvm_num::Pp;
use lvm_path::{Ask, Target};
use lvm_sched::TargetState;
use lvm_session::Session;

// The sector of a disk at which a block of a volume stands on the copy at this partition.
fn sector_of(mib: u16, pp: u16, block: u64) -> u64
    requires { IsTrue (is_size mib) }
    ensures { result ≡ sector_of mib pp block }
{
    let blocks = partition_blocks(mib);
    4096 + blocks * u64::from(pp) + block % blocks
}

/// The copy at this partition as a target of a request.
pub fn target_at<S: Shelf>(session: &Session, shelf: &S, ask: &Ask, pp: Pp) -> Target
    requires size { IsTrue (is_size session.now.descriptor.mib) }
    requires there { IsThere (S.device shelf.now) pp }
    ensures { result ≡ target_at (state (S.device shelf.now) (core_of session.now)) ask.now pp }
{
    Target {
        pp,
        sector: sector_of(session.descriptor.mib, pp.pp, ask.at()),
        usable: is_usable(session, pp),
        moves: false,
        faults: shelf.faults(pp.disk),
        state: TargetState::Waiting,
    }
}

// The destination of a move as a target of a request.
fn destination_target<S: Shelf>(session: &Session, shelf: &S, ask: &Ask, pp: Pp) -> Target
    requires size { IsTrue (is_size session.now.descriptor.mib) }
    requires there { IsThere (S.device shelf.now) pp }
    ensures { result ≡ destination_target (state (S.device shelf.now) (core_of session.now)) ask.now pp }
{
    Target {
        pp,
        sector: sector_of(session.descriptor.mib, pp.pp, ask.at()),
        usable: false,
        moves: true,
        faults: shelf.faults(pp.disk),
        state: TargetState::Waiting,
    }
}

// A copy becomes a target where a write in this track group goes to it.
fn aim_if<S: Shelf>(
    session: &Session,
    shelf: &S,
    ask: &Ask,
    group: u64,
    pp: Pp,
    targets: &mut ArrayVec<Target, 4>,
)
    requires size { IsTrue (is_size session.now.descriptor.mib) }
    requires there { (is_usable (core_of session.now) pp || is_caught (core_of session.now) group pp) ≡ true → IsThere (S.device shelf.now) pp }
    requires room { length targets.old.items < 4 }
    ensures { targets.new.items ≡ targets.old.items ++ map (target_at (state (S.device shelf.now) (core_of session.now)) ask.now) (filter (λ (p : Pp). is_usable (core_of session.now) p || is_caught (core_of session.now) group p) (pp ∷ [])) }
{
    if is_aim(session, group, pp) {
        targets.push(target_at(session, shelf, ask, pp));
    }
}

// The copies to which a write goes, as its targets.
fn copy_aims<S: Shelf>(session: &Session, shelf: &S, ask: &Ask) -> ArrayVec<Target, 4>
    requires may { MayChoose (S.device shelf.now) (core_of session.now) }
    requires within { IsWithinVolume session.now.descriptor ask.now }
    ensures targets { result.items ≡ map (target_at (state (S.device shelf.now) (core_of session.now)) ask.now) (aims (core_of session.now) ask.now) }
    ensures few { length result.items ≤ 3 }
{
    let group = group_in(session, ask);
    let copies = copies_for(session, ask);
    let mut targets = ArrayVec::new();
    for pp in copies {
        aim_if(session, shelf, ask, group, *pp, &mut targets);
    }
    targets
}

// The destination of a move of its logical partition becomes a target, where the move has passed the track group.
fn aim_destination<S: Shelf>(
    session: &Session,
    shelf: &S,
    ask: &Ask,
    targets: &mut ArrayVec<Target, 4>,
)
    requires may { MayChoose (S.device shelf.now) (core_of session.now) }
    requires room { length targets.old.items ≤ 3 }
    ensures targets { targets.new.items ≡ targets.old.items ++ map (destination_target (state (S.device shelf.now) (core_of session.now)) ask.now) (destination_aims (core_of session.now) ask.now) }
    ensures few { length targets.new.items ≤ 4 }
{
    if let Some(pp) = destination_aim(session, ask) {
        targets.push(destination_target(session, shelf, ask, pp));
    }
}

/// The copies to which a write goes, as its targets, and then the destination of a move of its logical
/// partition, where the move has passed the track group.
pub fn aims<S: Shelf>(session: &Session, shelf: &S, ask: &Ask) -> ArrayVec<Target, 4>
    requires may { MayChoose (S.device shelf.now) (core_of session.now) }
    requires within { IsWithinVolume session.now.descriptor ask.now }
    ensures targets { result.items ≡ map (target_at (state (S.device shelf.now) (core_of session.now)) ask.now) (aims (core_of session.now) ask.now) ++ map (destination_target (state (S.device shelf.now) (core_of session.now)) ask.now) (destination_aims (core_of session.now) ask.now) }
    ensures few { length result.items ≤ 4 }
{
    let mut targets = copy_aims(session, shelf, ask);
    aim_destination(session, shelf, ask, &mut targets);
    targets
}
