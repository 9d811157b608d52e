//! The lines that make or remove a volume.
ghost use Rattle.std.specs.Prelude.{◌≡◌, ◌≤◌, [], All, IfOk, IfErr, IfSome, IsSome, IsTrue, IsFalse, Err, true};
ghost use Rattle.lvm_transfer.specs.Transfer.{Relights};
ghost use Rattle.lvm_status.specs.Calls.{IsMarkable};
ghost use Rattle.lvm_status.specs.Members.{HasItsRows};
ghost use Rattle.lvm_session.specs.Sound.{IsSound};
ghost use Rattle.lvm_core.specs.Settled.{IsSettled};
ghost use Rattle.lvm_core.specs.State.{state_of};
ghost use Rattle.lvm_range_lines.specs.passed.Handover.{MayServe, StaysSound};
ghost use Rattle.lvm_range_lines.specs.passed.TieCommands.{MayServeWith};
ghost use Rattle.lvm_range_lines.specs.passed.Volumes.{MklvGives, RmlvGives, to_make, to_remove};
ghost use Rattle.lvm_range_lines.specs.passed.GroupLines.{EndsUnasked, OfGroup, IsBetweenStage, IsFittingStage, IsOfKind, open_in, session_of, shelf_of, IsOnBetween};
ghost use Rattle.lvm_volume_lines.specs.Commands.{HasBrokenOff, HasRested, IsCarriedOut, IsHeldAgain, IsLeftAs, IsLeftOff, IsLeftOn, none_added};
ghost use Rattle.lvm_volume_lines.specs.Volumes.{MklvDoes, RmlvDoes, drain_refusal, refusal_for, volume_reply, wanted};
ghost use Rattle.lvm_range_lines.specs.passed.VolumePlan.{ends_session, is_over};

use lvm_core::{Closed, CommandDriver, CommitFault};
use lvm_disk::Shelf;
use lvm_num::{Mode, Name, Policy, Pp};
use lvm_range_lines::below::handover::{serve, settle};
use lvm_range_lines::below::stage::{Answered, Holder, Refusal, Reply, Stage};
use lvm_range_lines::below::volumes::{GroupFault, mklv, rmlv};
use lvm_range_lines::below::{Post, driver};
use lvm_transfer::{Patience, relight};
use std::alloc::Global;

// A fault of a command on a group, as the refusal of its line.
fn refusal_for(why: GroupFault) -> Refusal
    ensures { result ≡ refusal_for why }
{
    match why {
        GroupFault::Dark => Refusal::Dark,
        GroupFault::WentOff { have, total } => Refusal::WentOff { have, total },
        GroupFault::Busy => Refusal::Busy,
        GroupFault::NoVolume => Refusal::NoVolume,
        GroupFault::VolumeExists => Refusal::VolumeExists,
        GroupFault::CopyLimit { now } => Refusal::CopyLimit { now },
        GroupFault::StaleCopy { lp } => Refusal::StaleCopy { lp },
        GroupFault::LastFresh { lp } => Refusal::LastFresh { lp },
        GroupFault::TooMany { limit } => Refusal::TooMany { limit },
        GroupFault::NoRoom { free } => Refusal::NoRoom { free },
        GroupFault::HistoryFull => Refusal::HistoryFull,
        GroupFault::DiskFailed { disk } => Refusal::DiskFailed { disk },
        GroupFault::Stuck => Refusal::Stuck,
        GroupFault::Memory => Refusal::Memory,
    }
}

/// Why the turns before a command have ended, as the refusal of its line.
pub fn drain_refusal(why: CommitFault) -> Refusal
    ensures { result ≡ drain_refusal why }
{
    refusal_for(GroupFault::from(why))
}

// Whether a session is over after a fault.
fn ends_session(why: GroupFault) -> bool
    ensures { result ≡ ends_session why }
{
    match why {
        GroupFault::Dark => true,
        GroupFault::WentOff { have: _, total: _ } => true,
        GroupFault::Stuck => true,
        GroupFault::Busy => false,
        GroupFault::NoVolume => false,
        GroupFault::VolumeExists => false,
        GroupFault::CopyLimit { now: _ } => false,
        GroupFault::StaleCopy { lp: _ } => false,
        GroupFault::LastFresh { lp: _ } => false,
        GroupFault::TooMany { limit: _ } => false,
        GroupFault::NoRoom { free: _ } => false,
        GroupFault::HistoryFull => false,
        GroupFault::DiskFailed { disk: _ } => false,
        GroupFault::Memory => false,
    }
}

// Puts the power on again where it was cut.
fn relight_after_fault<S: Shelf>(shelf: &mut S, why: GroupFault)
    requires { why ≡ GroupFault.Dark → (S.device shelf.old).flights ≡ [] }
    ensures dark { why ≡ GroupFault.Dark → Relights (S.device shelf.old) (S.device shelf.new) }
    ensures other { (why ≡ GroupFault.Dark → ⊥) → S.device shelf.new ≡ S.device shelf.old }
{
    match why {
        GroupFault::Dark => relight(shelf),
        _ => {}
    }
}

/// Closes a session that is over by a fault. Its posts have ended with its votes.
pub fn close_after<S: Shelf>(
    driver: CommandDriver<S>,
    posts: Vec<Post>,
    bytes: Vec<u8>,
    why: GroupFault,
) -> Stage<S>
    requires dark { why ≡ GroupFault.Dark → (S.device driver.0).flights ≡ [] }
    requires lit { (why ≡ GroupFault.Dark → ⊥) → ((S.device driver.0).power ≡ true) × ((S.device driver.0).freed ≡ []) }
    ensures { IsLeftOff S.device driver posts bytes result }
{
    let holder = Holder::Empty { driver };
    let (closed, posts, bytes) = Stage {
        holder,
        posts,
        bytes,
    }
    .close();
    let Closed { mut shelf, history } = closed;
    relight_after_fault(&mut shelf, why);
    Stage {
        holder: Holder::Off { shelf, history },
        posts,
        bytes,
    }
}

// Who holds the session of a group on which a command has been carried out: it takes requests where it has a volume, and
// the copies that the command added count as stale since it began.
fn hold<S: Shelf>(driver: CommandDriver<S>, added: &[Pp]) -> Holder<S>
    requires rows { HasItsRows driver.1.descriptor driver.1.origin.table }
    requires markable { All (IsMarkable driver.1.origin.table) added.now }
    requires may { MayServeWith added.now (state_of S.device driver) }
    requires none { driver.1.descriptor.lvs ≡ [] → added.now ≡ [] }
    ensures { IsHeldAgain S.device added.now driver result }
{
    let _ = driver.open();
    if driver.descriptor().lvs.is_empty() {
        Holder::Empty { driver }
    } else {
        let driver = serve(driver, added);
        Holder::Serving { driver }
    }
}

/// The stage of a session that goes on behind a command which has added these copies.
pub fn go_on<S: Shelf>(
    driver: CommandDriver<S>,
    posts: Vec<Post>,
    bytes: Vec<u8>,
    added: &[Pp],
) -> Stage<S>
    requires rows { HasItsRows driver.1.descriptor driver.1.origin.table }
    requires markable { All (IsMarkable driver.1.origin.table) added.now }
    requires may { MayServeWith added.now (state_of S.device driver) }
    requires none { driver.1.descriptor.lvs ≡ [] → added.now ≡ [] }
    ensures { IsLeftOn S.device added.now driver posts bytes result }
{
    let holder = hold(driver, added);
    Stage {
        holder,
        posts,
        bytes,
    }
}

/// What a command leaves of a session that has failed so.
pub fn after_fault<S: Shelf>(
    driver: CommandDriver<S>,
    posts: Vec<Post>,
    bytes: Vec<u8>,
    why: GroupFault,
) -> Answered<S>
    requires dark { why ≡ GroupFault.Dark → (S.device driver.0).flights ≡ [] }
    requires lit { IsTrue (ends_session why) → (why ≡ GroupFault.Dark → ⊥) → ((S.device driver.0).power ≡ true) × ((S.device driver.0).freed ≡ []) }
    requires rows { IsFalse (ends_session why) → HasItsRows driver.1.descriptor driver.1.origin.table }
    requires may { IsFalse (ends_session why) → MayServeWith [] (state_of S.device driver) }
    ensures stage { IsLeftAs S.device (ends_session why) [] driver posts bytes result.stage }
    ensures reply { result.reply ≡ Reply.Refused (refusal_for why) }
{
    if ends_session(why) {
        close_after(driver, posts, bytes, why).refused(refusal_for(why))
    } else {
        go_on(driver, posts, bytes, &[]).refused(refusal_for(why))
    }
}

/// What a command that adds no copies leaves of a session that was answered so.
pub fn after<S: Shelf, T: Copy>(
    driver: CommandDriver<S>,
    posts: Vec<Post>,
    bytes: Vec<u8>,
    done: Result<T, GroupFault>,
) -> Answered<S>
    requires dark { done ≡ Err GroupFault.Dark → (S.device driver.0).flights ≡ [] }
    requires lit { IsTrue (is_over done) → (done ≡ Err GroupFault.Dark → ⊥) → ((S.device driver.0).power ≡ true) × ((S.device driver.0).freed ≡ []) }
    requires rows { IsFalse (is_over done) → HasItsRows driver.1.descriptor driver.1.origin.table }
    requires may { IsFalse (is_over done) → MayServe [] (state_of S.device driver) × StaysSound (state_of S.device driver) }
    ensures stage { IsLeftAs S.device (is_over done) [] driver posts bytes result.stage }
    ensures reply { result.reply ≡ volume_reply done }
{
    match done {
        Ok(_) => go_on(driver, posts, bytes, &[]).answered(Reply::Ok),
        Err(why) => after_fault(driver, posts, bytes, why),
    }
}

/// The session of a group that is on, with nothing under way: turns are made until nothing is left.
pub fn come_to_rest<S: Shelf>(
    holder: Holder<S>,
    patience: &mut Patience,
) -> Result<CommandDriver<S>, (driver::Driver<S>, CommitFault)>
    requires kind { IsOfKind holder }
    requires on { IsSome (session_of holder) }
    requires between { IfSome (session_of holder) (IsOnBetween (S.device (shelf_of holder))) }
    requires none { open_in (session_of holder) ≡ 0 }
    ensures rests { IfOk result (HasRested S.device holder patience.old.left patience.new.left) }
    ensures breaks_off { IfErr result (λ broken. HasBrokenOff S.device holder patience.old.left patience.new.left broken.0 broken.1) }
{
    match holder {
        Holder::Off {
            shelf: _,
            history: _,
        } => unreachable!(),
        Holder::Empty { driver } => {
            let _ = driver.open();
            Ok(driver)
        }
        Holder::Serving { mut driver } => match driver.drain(patience) {
            Ok(()) => Ok(settle(driver)),
            Err(why) => {
                let _ = driver.power();
                Err((driver, why))
            }
        },
    }
}

// Makes a volume of the group of a session.
fn make_volume<S: Shelf>(
    alloc: Global,
    driver: CommandDriver<S>,
    posts: Vec<Post>,
    bytes: Vec<u8>,
    name: Name,
    copies: u8,
    mode: Mode,
    policy: Policy,
    lps: u32,
    patience: &mut Patience,
) -> Answered<S>
    requires settled { IsSettled driver.1 }
    requires sound { IsSound (state_of S.device driver) }
    requires rows { HasItsRows driver.1.descriptor driver.1.origin.table }
    requires some { 1 ≤ lps }
    ensures { let w = wanted name copies mode policy lps in
        IsCarriedOut S.device (λ was is given. MklvGives w patience.old.left was is given) none_added (to_make w driver.1) patience.old.left driver posts bytes result.stage result.reply }
{
    let mut driver = driver;
    let made = mklv(
        alloc,
        &mut driver,
        name,
        copies,
        mode,
        policy,
        lps,
        patience,
    );
    after(driver, posts, bytes, made)
}

// Removes a volume of the group of a session.
fn remove_volume<S: Shelf>(
    alloc: Global,
    driver: CommandDriver<S>,
    posts: Vec<Post>,
    bytes: Vec<u8>,
    lv: u16,
    patience: &mut Patience,
) -> Answered<S>
    requires settled { IsSettled driver.1 }
    requires sound { IsSound (state_of S.device driver) }
    requires rows { HasItsRows driver.1.descriptor driver.1.origin.table }
    ensures { IsCarriedOut S.device (λ was is given. RmlvGives lv patience.old.left was is given) none_added (to_remove lv driver.1) patience.old.left driver posts bytes result.stage result.reply }
{
    let mut driver = driver;
    let removed = rmlv(alloc, &mut driver, lv, patience);
    after(driver, posts, bytes, removed)
}

/// Makes a volume in a group, if that is on and none of its requests is open. Turns are made first until nothing is
/// under way.
///
/// Refused by `NoGroup` where no group is on, `Busy` while a request of it isn't answered, `VolumeExists` for the name,
/// `CopyLimit` for no copy or more than three, `TooMany` where the group has as many volumes as it may, `NoRoom` where first
/// fit finds no place, `HistoryFull` where the history or the numbers have no room, `DiskFailed` where zeros can't be written,
/// and `Memory` where memory runs out.
/// The turns and the writes of records may end it by `Dark` (the power was cut), `Stuck` (nothing was heard a million times)
/// or `WentOff` (too few votes are left).
pub fn do_mklv<S: Shelf>(
    alloc: Global,
    stage: Stage<S>,
    name: Name,
    copies: u8,
    mode: Mode,
    policy: Policy,
    group: Name,
    lps: u32,
) -> Answered<S>
    requires fits { IsFittingStage stage }
    requires between { IsBetweenStage S.device stage }
    requires some { 1 ≤ lps }
    ensures { EndsUnasked S.device (λ _. MklvDoes (wanted name copies mode policy lps) group) ⊥ OfGroup stage result.stage result.reply }
{
    if !stage.is_on(group) {
        return stage.refused(Refusal::NoGroup);
    }
    if stage.holder.open() > 0 {
        return stage.refused(Refusal::Busy);
    }
    let Stage {
        holder,
        posts,
        bytes,
    } = stage;
    let mut patience = Patience::whole();
    match come_to_rest(holder, &mut patience) {
        Ok(driver) => make_volume(
            alloc,
            driver,
            posts,
            bytes,
            name,
            copies,
            mode,
            policy,
            lps,
            &mut patience,
        ),
        Err((driver, why)) => Stage::ended(driver, posts, bytes).refused(drain_refusal(why)),
    }
}

/// Removes the volume of the name from the group that is on, if none of its requests is open. Turns are made first until
/// nothing is under way, and the name is looked up then.
///
/// Refused by `NoGroup` where no group is on, `Busy` while a request of it isn't answered, `NoVolume` for the name, `HistoryFull`
/// where the history or the numbers have no room, and `Memory` where memory runs out.
/// The turns and the writes of records may end it by `Dark` (the power was cut), `Stuck` (nothing was heard a million times)
/// or `WentOff` (too few votes are left).
pub fn do_rmlv<S: Shelf>(alloc: Global, stage: Stage<S>, name: Name) -> Answered<S>
    requires fits { IsFittingStage stage }
    requires between { IsBetweenStage S.device stage }
    ensures { EndsUnasked S.device (λ _. RmlvDoes name) ⊥ OfGroup stage result.stage result.reply }
{
    if stage.is_off() {
        return stage.refused(Refusal::NoGroup);
    }
    if stage.holder.open() > 0 {
        return stage.refused(Refusal::Busy);
    }
    let Stage {
        holder,
        posts,
        bytes,
    } = stage;
    let mut patience = Patience::whole();
    match come_to_rest(holder, &mut patience) {
        Ok(driver) => match driver.volume(name) {
            None => go_on(driver, posts, bytes, &[]).refused(Refusal::NoVolume),
            Some(lv) => remove_volume(alloc, driver, posts, bytes, lv, &mut patience),
        },
        Err((driver, why)) => Stage::ended(driver, posts, bytes).refused(drain_refusal(why)),
    }
}
