//! The steps by which a group is made, up to its being on.
ghost use Rattle.std.specs.Prelude.{◌≡◌, ◌≢◌, ◌≤◌, length, IfOk, IfErr, []};
ghost use Rattle.lvm_disk.specs.Device.{IsReady};
ghost use Rattle.lvm_vol.specs.Log.{spare_entries};
ghost use Rattle.lvm_steps.specs.Behind.{ClockIsAhead};
ghost use Rattle.lvm_group.specs.passed.Core.{BringsOn, StartsHeld, HaveAllLanded, IsRoom};
ghost use Rattle.lvm_group.specs.passed.SessionStart.{first_core};
ghost use Rattle.lvm_group.specs.NewGroup.{IsWellFormed, given_up};
ghost use Rattle.lvm_group.specs.Planned.{IsPlannedFor, RefusesPlan};
ghost use Rattle.lvm_group.specs.Made.{MkvgRefuses};
ghost use Rattle.lvm_group.specs.Steps.{asked_group, cut_at, standing_of, RecordsStand};

use crate::below::{Cause, Parts, Room};
use crate::checks::size_to_begin;
use crate::look::look;
use crate::plan::Plan;
use crate::write::write;
use lvm_disk::Shelf;
use lvm_history::History;
use lvm_num::{Memory, Name};
use lvm_rec::Homes;
use lvm_transfer::Patience;
use lvm_vol::{Entry, Vol};
use std::alloc::Global;

/// What is asked of a new group beside its disks and its moment.
#[derive(Drop)]
pub struct Asked {
    pub name: Name,
    pub mib: Option<u16>,
    pub force: bool,
    pub room: Room,
}

/// What the session of a group that was made starts with: its parts, and the slots that come next.
#[derive(Drop)]
pub struct Standing<P> {
    pub parts: P,
    pub homes: Homes,
}

/// Makes a group up to its being on. A power cut is entered.
pub fn make<S: Shelf>(
    alloc: Global,
    shelf: &mut S,
    history: &mut History,
    asked: &Asked,
    disks: &[u16],
    moment: u64,
    patience: &mut Patience,
) -> Result<Standing<Parts>, Cause>
    requires ready { IsReady (S.device shelf.old) }
    requires landed { HaveAllLanded history.old.facts }
    requires asked { IsWellFormed (asked_group asked.now disks.now moment) }
    requires room { IsRoom asked.now.room }
    ensures made { IfOk result (RecordsStand (asked_group asked.now disks.now moment) asked.now.room history.old history.new (S.device shelf.old) (S.device shelf.new)) }
    ensures refused { IfErr result (MkvgRefuses (asked_group asked.now disks.now moment) patience.old.left history.old history.new (S.device shelf.old) (S.device shelf.new)) }
    ensures held { ClockIsAhead history.old.run moment (S.device shelf.old) history.old.facts → IfOk result (λ standing. StartsHeld (S.device shelf.new) (first_core standing.parts history.new (record { epoch = moment; seq = 2 }) standing.homes [])) }
    // whatever the answer
    ensures leaves { BringsOn history.old.run moment patience.old.left patience.new.left (S.device shelf.old) (S.device shelf.new) history.old history.new }
{
    let plan = plan_for(alloc, shelf, history.spare_entries(), asked, disks, moment)?;
    let brought = bring(alloc, shelf, history, asked, disks, moment, &plan, patience);
    enter_cut(history, &brought);
    start_with(plan, brought)
}

// What the session of a plan starts with, where its records were written.
fn start_with(plan: Plan, brought: Result<Homes, Cause>) -> Result<Standing<Parts>, Cause>
    ensures { result ≡ standing_of plan.parts brought }
{
    with_homes(parts_of(plan), brought)
}

// The parts of its session alone.
fn parts_of(plan: Plan) -> Parts
    ensures { result ≡ plan.parts }
{
    plan.parts
}

// What starts with these parts and these homes, where there are some.
fn with_homes<P: Drop>(parts: P, homes: Result<Homes, Cause>) -> Result<Standing<P>, Cause>
    ensures { result ≡ standing_of parts homes }
{
    match homes {
        Ok(homes) => Ok(Standing { parts, homes }),
        Err(why) => Err(why),
    }
}

// Plans a group, with so many entries to spare, unless something stands against it before any disk is read.
fn plan_for<S: Shelf>(
    alloc: Global,
    shelf: &S,
    spare: u32,
    asked: &Asked,
    disks: &[u16],
    moment: u64,
) -> Result<Plan, Cause>
    requires asked { IsWellFormed (asked_group asked.now disks.now moment) }
    requires room { IsRoom asked.now.room }
    ensures planned { IfOk result (IsPlannedFor (asked_group asked.now disks.now moment) asked.now.room spare (S.device shelf.now).sizes) }
    ensures refused { IfErr result (RefusesPlan (asked_group asked.now disks.now moment) spare (S.device shelf.now).sizes) }
{
    let size = size_to_begin(shelf, spare, disks, asked.mib)?;
    match Plan::new(alloc, shelf, asked.name, size, disks, moment, asked.room) {
        Ok(plan) => Ok(plan),
        Err(Memory) => Err(Cause::Memory),
    }
}

// Reads the disks, and writes the records of a planned group to its own where they let one be made.
fn bring<S: Shelf>(
    alloc: Global,
    shelf: &mut S,
    history: &mut History,
    asked: &Asked,
    disks: &[u16],
    moment: u64,
    plan: &Plan,
    patience: &mut Patience,
) -> Result<Homes, Cause>
    requires ready { IsReady (S.device shelf.old) }
    requires moment { moment ≢ 0 }
    requires planned { IsPlannedFor (asked_group asked.now disks.now moment) asked.now.room (spare_entries history.old) (S.device shelf.old).sizes plan.now }
    ensures made { IfOk result (λ homes. RecordsStand (asked_group asked.now disks.now moment) asked.now.room history.old history.new (S.device shelf.old) (S.device shelf.new) (record { parts = plan.now.parts; homes = homes })) }
    ensures refused { IfErr result (MkvgRefuses (asked_group asked.now disks.now moment) patience.old.left history.old (cut_at result history.new) (S.device shelf.old) (S.device shelf.new)) }
    ensures held { ClockIsAhead history.old.run moment (S.device shelf.old) history.old.facts → IfOk result (λ homes. StartsHeld (S.device shelf.new) (first_core plan.now.parts history.new (record { epoch = moment; seq = 2 }) homes [])) }
    // whatever the answer
    ensures leaves { BringsOn history.old.run moment patience.old.left patience.new.left (S.device shelf.old) (S.device shelf.new) history.old history.new }
{
    let free = look(alloc, shelf, asked.force, moment, patience)?;
    give_up(history, disks);
    write(shelf, plan, moment, free, patience)
}

// Enters a cut where the power is off.
fn enter_cut<T>(history: &mut History, answer: &Result<T, Cause>)
    ensures { history.new ≡ cut_at answer.now history.old }
{
    if let Err(Cause::Dark) = answer {
        history.cut();
    }
}

// Enters that the contents of the disks are given up.
fn give_up(history: &mut History, disks: &[u16])
    requires { length disks.now ≤ spare_entries history.old }
    ensures { history.new ≡ given_up history.old disks.now }
{
    for disk in disks {
        history.push(Entry::Removed {
            vol: Vol::Disk(*disk),
        });
    }
}
