//! A group that is on turns to a next descriptor, by which it has the same members, or one less.
ghost use Rattle.std.specs.Prelude.{◌≡◌, [], IfOk};
ghost use Rattle.lvm_num.specs.Descriptor.{IsValid};
ghost use Rattle.lvm_commit.specs.Settling.{MarksLeft};
ghost use Rattle.lvm_session.specs.State.{is_there};
ghost use Rattle.lvm_core.specs.State.{state_of};
ghost use Rattle.lvm_core.specs.Committing.{is_in};
ghost use Rattle.lvm_core.specs.Sound.{IsSoundAtRest};
ghost use Rattle.lvm_core.specs.Settled.{IsSettled, HasSpareNumbers};
ghost use Rattle.lvm_change_laws.specs.Rule.{MayChange, no_member};
ghost use Rattle.lvm_turnover.specs.Turning.{IsPrepared, IsMadeFor, IsReady, ShowsGone, disks_leaving, state_after};
ghost use Rattle.lvm_turnover.specs.Changing.{IsNext, EndsFrom, ChangeEnds, LeavesWithin, ChangeLeaves};

use crate::turning::turn_session;
use lvm_core::below::Patience;
use lvm_core::{CommandDriver, CommitFault};
use lvm_disk::Shelf;
use lvm_num::{Descriptor, Memory, Rows};
use lvm_status::{StaleTable, Tables, Updater};
use std::alloc::Global;

/// A change that is ready to be made: what a group needs to turn to its next descriptor.
#[derive(Drop)]
pub struct Change {
    /// The next descriptor.
    pub next: Descriptor,
    /// Its bytes.
    pub content: Rows<u8>,
    /// The status in its rows, and what a session needs to go on with it.
    pub tables: Tables,
    /// The member that leaves with it, where one does.
    pub leaving: Option<Leaving>,
}

/// A member that leaves its group.
#[derive(Drop)]
pub struct Leaving {
    pub disk: u16,
    /// The status with which the session began, in the rows of the members that stay.
    pub origin: StaleTable,
}

impl Change {
    /// Takes all the memory of the change of a group with this status to its next descriptor, by which no member leaves.
    pub fn new(alloc: Global, table: &StaleTable, next: Descriptor) -> Result<Change, Memory>
        requires { IsValid next }
        ensures next { IfOk result (λ c. c.next ≡ next) }
        ensures ready { IfOk result IsReady }
    {
        let told = table.with_rows(alloc, &next)?;
        let updater = Updater::new(alloc, told, &next)?;
        Change::among(alloc, &updater, next, None)
    }

    /// Takes all the memory of the change of a group whose session has this status, by which this member leaves, if one does.
    pub fn among(
        alloc: Global,
        updater: &Updater,
        next: Descriptor,
        leaving: Option<Leaving>,
    ) -> Result<Change, Memory>
        requires { IsValid next }
        ensures next { IfOk result (λ c. c.next ≡ next) }
        ensures prepared { IfOk result IsPrepared }
        ensures leaving { IfOk result (λ c. c.leaving ≡ leaving) }
    {
        let tables = updater.tables(alloc, &next)?;
        let content = lvm_vgda::encode(alloc, &next)?;
        Ok(Change {
            next,
            content,
            tables,
            leaving,
        })
    }

    // Says in the rows of the next descriptor what is wanted of the status by now, without memory.
    fn renew(&mut self, updater: &Updater)
        requires { IsPrepared self.old }
        ensures made { IsMadeFor updater.now.wanted self.new }
        ensures same { self.new ≡ record self.old { tables = self.new.tables } }
    {
        updater.fill(&mut self.tables);
    }
}

/// Turns a group to its next descriptor, by which it has the same members: first a status is written to all members that aren't missing, in the rows of
/// that descriptor, and then the descriptor itself, each by the votes of both descriptors. A member whose write fails becomes missing, and a status says so
/// before the call answers, and calls the copies stale that it leaves behind. It takes no memory.
///
/// # Errors
///
/// `WentOff` where the members that were reached have too few votes to write by the first of the two descriptors that isn't met, or, once both records
/// stood, by the next one; the session is off then. `Dark`, and the session has ended; a cut is entered. `Stuck`, and the transfer is out with the buffer:
/// nothing can be committed any more, only looked at, and the session closed. After each of them the next descriptor may be found when the group is
/// varied on again.
pub fn make_change<S: Shelf>(
    driver: CommandDriver<S>,
    change: Change,
    patience: &mut Patience,
) -> (CommandDriver<S>, Result<(), CommitFault>)
    requires settled { IsSettled driver.1 }
    requires numbers { HasSpareNumbers driver.1 }
    requires ready { IsReady change }
    requires may { MayChange no_member driver.1.descriptor change.next (is_there driver.1) }
    ensures ends { ChangeEnds change.next patience.old.left (state_of S.device driver) (state_of S.device result.0) result.1 }
    // whatever the answer
    ensures left { MarksLeft change.next driver.1.status result.0.1.status }
    ensures leaves { ChangeLeaves (IsNext change.next) [] [] patience.old.left patience.new.left (state_of S.device driver) (state_of S.device result.0) }
{
    turn_group(driver, change, patience)
}

/// Turns a group to its next descriptor as `make_change` does. The member that leaves, where one does, is written like the others; the session goes on
/// without it.
///
/// # Errors
///
/// As of `make_change`.
pub fn turn_group<S: Shelf>(
    driver: CommandDriver<S>,
    change: Change,
    patience: &mut Patience,
) -> (CommandDriver<S>, Result<(), CommitFault>)
    requires settled { IsSettled driver.1 }
    requires numbers { HasSpareNumbers driver.1 }
    requires prepared { IsPrepared change }
    requires may { MayChange (is_in (disks_leaving change.leaving)) driver.1.descriptor change.next (is_there driver.1) }
    ensures ends { EndsFrom change.next patience.old.left (state_of S.device driver) (state_after change.leaving (state_of S.device driver)) (state_of S.device result.0) result.1 }
    // a disk that left and to which no transfer failed shows the next descriptor
    ensures shown { ShowsGone change.next (state_of S.device driver) (state_of S.device result.0) result.1 }
    // whatever the answer
    ensures sound { IsSoundAtRest (state_of S.device result.0) }
    ensures left { MarksLeft change.next driver.1.status result.0.1.status }
    ensures leaves { LeavesWithin 3 (IsNext change.next) [] (disks_leaving change.leaving) patience.old.left patience.new.left (state_of S.device driver) (state_of S.device result.0) }
{
    let (mut shelf, mut session) = driver.into_parts();
    let mut change = change;
    change.renew(&session.updater);
    let answer = turn_session(&mut session, &mut shelf, change, patience);
    (CommandDriver::from_parts(shelf, session), answer)
}
