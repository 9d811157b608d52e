//! The changes by which one member leaves its group.
ghost use Rattle.std.specs.Prelude.{◌≡◌, [], ◌∷◌, IfOk, IfSome};
ghost use Rattle.lvm_num.specs.Descriptor.{IsValid};
ghost use Rattle.lvm_status.specs.Rerowed.{IsRerowed};
ghost use Rattle.lvm_member_plan.specs.Descriptors.{reduced};
ghost use Rattle.lvm_member_plan.specs.Steps.{MayDepart};
ghost use Rattle.lvm_reduce.specs.Departures.{IsDeparture, IsChangeOf};

use lvm_member_plan::{StepsOut, steps_out, without_members};
use lvm_num::{Descriptor, Memory};
use lvm_session::Session;
use lvm_turnover::{Change, Leaving};
use std::alloc::Global;

/// The changes by which a member leaves. All memory is taken with it.
#[derive(Drop)]
pub struct Departure {
    pub disk: u16,
    /// Before it leaves, the two members become even.
    pub before: Option<Change>,
    pub out: Change,
    /// The two that stay are even no more.
    pub after: Option<Change>,
}

/// What there was of a member before it leaves.
#[derive(Clone, Copy)]
pub struct Mark {
    /// How many transfers of its disk had failed.
    pub faults: u64,
    /// Whether its older descriptor will stand in its second slot.
    pub second_is_older: bool,
}

/// The changes by which this member leaves the group.
pub(crate) fn plan_departure(
    alloc: Global,
    session: &Session,
    d: &Descriptor,
    disk: u16,
) -> Result<Departure, Memory>
    requires valid { IsValid d.now }
    requires may { MayDepart d.now disk }
    ensures planned { IfOk result (IsDeparture session.now.origin.table d.now) }
    ensures disk { IfOk result (λ p. p.disk ≡ disk) }
{
    let StepsOut { before, out, after } = steps_out(alloc, d, disk)?;
    let leaving = leaving_of(alloc, session, d, disk)?;
    let before = change_if(alloc, session, before)?;
    let out = Change::among(alloc, &session.updater, out, Some(leaving))?;
    let after = change_if(alloc, session, after)?;
    Ok(Departure {
        disk,
        before,
        out,
        after,
    })
}

// The change by which no member leaves, if there is one.
fn change_if(
    alloc: Global,
    session: &Session,
    next: Option<Descriptor>,
) -> Result<Option<Change>, Memory>
    requires valid { IfSome next IsValid }
    ensures { IfOk result (IsChangeOf next) }
{
    match next {
        Some(next) => {
            let change = Change::among(alloc, &session.updater, next, None)?;
            Ok(Some(change))
        }
        None => Ok(None),
    }
}

// What the session goes on with once it has left.
fn leaving_of(
    alloc: Global,
    session: &Session,
    d: &Descriptor,
    disk: u16,
) -> Result<Leaving, Memory>
    requires valid { IsValid (reduced (disk ∷ []) d.now) }
    ensures disk { IfOk result (λ l. l.disk ≡ disk) }
    ensures origin { IfOk result (λ l. IsRerowed (reduced (disk ∷ []) d.now) session.now.origin.table l.origin) }
{
    let gone = without_members(alloc, d, &[disk], false)?;
    let origin = session.origin.table.with_rows(alloc, &gone)?;
    Ok(Leaving { disk, origin })
}
