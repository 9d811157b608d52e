//! A session that a lock lends to workers.
ghost use Rattle.std.specs.Prelude.{◌≡◌, ◌≤◌, ◌*◌, ℕ, false, if◌then◌else◌};
ghost use Rattle.lvm_keeps.specs.Failing.{unsettled};
ghost use Rattle.lvm_session.specs.declared.answers.CopyState.TheVariants as stage;
ghost use Rattle.lvm_session.specs.declared.open.Power.TheVariants as power;
ghost use Rattle.lvm_session.specs.Calls.{copy_state};
ghost use Rattle.lvm_session.specs.State.{state_of};
ghost use Rattle.lvm_ranges.specs.Passing.{Runs};
ghost use Rattle.lvm_load.specs.Bringing.{BringsOn, TurnsOn, behind};
ghost use Rattle.lvm_load.specs.Lending.{Plan, apart_draw, refused_as};
ghost use Rattle.lvm_load.specs.Requests.{word_of};
ghost use Rattle.lvm_workers.specs.declared.service.Asked.TheVariants as asked;

use crate::client::goes_on;
use crate::request::submit_drawn;
use lvm_disk::Shelf;
use lvm_driver::Driver;
use lvm_num::{MOST_COPIES, TRACK_GROUP};
use lvm_session::{AskFault, CopyFault, CopyState, Taken, Turned};
use lvm_vol::{Past, Shown};
use lvm_workers::{Asked, Brings, Brought, Draw, Seen, Service};
use std::marker::{Brand, PhantomData};

// Between the words of a client's requests.
const STRIDE: u64 = 8;

// The most copies of a logical partition.
const COPIES: u32 = MOST_COPIES as u32;

/// Names what a load begins with. Each load picks it.
pub(crate) trait Lending {
    ghost plan: { Plan };
}

impl Lending for Brand {
    ghost plan = { record { first = unsettled; clients = 0; lv = 0; blocks = 0; apart = false; sync = false } };
}

/// A session, with room for what its clients write.
#[derive(Drop)]
pub(crate) struct Lent<S: Shelf, J: Lending> {
    pub(crate) driver: Driver<S>,
    pub(crate) bytes: Vec<u8>,
    pub(crate) lv: u16,
    pub(crate) blocks: u64,
    pub(crate) apart: bool,
    pub(crate) sync: bool,
    pub(crate) named: PhantomData<J>,
}

// The draw of a client that writes to its own track group alone.
fn apart_draw(blocks: u64, client: u32, drawn: &Draw) -> Draw
    requires blocks { 256 ≤ blocks }
    requires client { (1 ≤ client) × (client ≤ 128) }
    ensures { result ≡ apart_draw blocks client drawn.now }
{
    let group = u64::from(client - 1) % (blocks / u64::from(TRACK_GROUP));
    Draw {
        at: drawn.at % TRACK_GROUP + TRACK_GROUP * group as u32,
        count: drawn.count,
        kind: 1,
    }
}

// The draw as it is asked for.
fn shaped(apart: bool, blocks: u64, client: u32, drawn: &Draw) -> Draw
    requires blocks { 256 ≤ blocks }
    requires client { (1 ≤ client) × (client ≤ 128) }
    ensures { result ≡ (if apart then apart_draw blocks client drawn.now else drawn.now) }
{
    if apart {
        apart_draw(blocks, client, drawn)
    } else {
        *drawn
    }
}

// The answer to a request that isn't taken for this.
fn refused(why: AskFault) -> Asked
    ensures not_begun { (id : ℕ) → result ≡ asked.Begun id → ⊥ }
    ensures goes_on { result ≡ refused_as why }
{
    if goes_on(why) {
        Asked::Full
    } else {
        Asked::Refused
    }
}

// The word of a client's request, with so many drawn before it.
fn word_of(client: u32, number: u32) -> u64
    ensures { result ≡ word_of client (8 * number) }
{
    let first = 0x1_0000_0000 * u64::from(client);
    first.wrapping_add(STRIDE * u64::from(number))
}

// What comes behind a copy, from 1, that isn't opened for this: the next one; or none, where the session takes none, or the
// volume has no such logical partition.
fn behind(why: CopyFault, number: u8) -> Brought
    ensures { result ≡ behind why number }
{
    match why {
        CopyFault::OutOfRange if number > 1 => Brought::Next,
        CopyFault::Busy
        | CopyFault::AlreadyFresh
        | CopyFault::Missing { .. }
        | CopyFault::NoFresh => { Brought::Next }
        CopyFault::Dark
        | CopyFault::Off
        | CopyFault::HistoryFull
        | CopyFault::NoVolume
        | CopyFault::OutOfRange => Brought::Over,
    }
}

// Opens the copy of a place, where it is stale: the places of a volume go by logical partitions, and then by copies.
fn open_at<S: Shelf>(driver: &mut Driver<S>, lv: u16, at: u32) -> Brought
    requires unstuck { driver.old.1.power ≡ power.Stuck → ⊥ }
    requires closed { copy_state driver.old.1 ≡ stage.Closed }
    ensures { BringsOn lv at (state_of S.device driver.old) (state_of S.device driver.new) result }
{
    let number = (at % COPIES) as u8 + 1;
    match driver.open_copy(lv, at / COPIES, number) {
        Ok(()) => Brought::Moved,
        Err(why) => behind(why, number),
    }
}

// Makes a turn while a copy is brought up.
fn make_turn<S: Shelf>(driver: &mut Driver<S>) -> Brought
    requires unstuck { driver.old.1.power ≡ power.Stuck → ⊥ }
    requires runs { Runs driver.old.1 }
    ensures { TurnsOn (state_of S.device driver.old) (state_of S.device driver.new) result }
{
    match driver.turn() {
        Turned::Idle => Brought::Idle,
        _ => Brought::Moved,
    }
}

// Makes one event for the copy of a place: opens it, makes a turn while it is brought up, or closes it.
fn bring_on<S: Shelf>(driver: &mut Driver<S>, lv: u16, at: u32) -> Brought
    requires unstuck { driver.old.1.power ≡ power.Stuck → ⊥ }
    ensures { BringsOn lv at (state_of S.device driver.old) (state_of S.device driver.new) result }
{
    match driver.copy_state() {
        CopyState::Closed => open_at(driver, lv, at),
        CopyState::Running { cursor: _ } => make_turn(driver),
        _ => {
            driver.close_copy();
            Brought::Next
        }
    }
}

impl<S: Shelf, J: Lending> Past for Lent<S, J> {
    ghost use Rattle.lvm_driver.specs.Showing.{image_of};

    ghost past = { λ d. image_of J.plan.first.device };
}

impl<S: Shelf, J: Lending> Shown for Lent<S, J> {
    ghost use Rattle.std.specs.Prelude.{◌≡◌, ◌≤◌, vec_capacity};
    ghost use Rattle.lvm_session.specs.State.{state_of};
    ghost use Rattle.lvm_load.specs.Lending.{IsServing, told_in};

    ghost tells = { λ d. told_in (state_of S.device d.driver) };

    ghost always = { λ d. IsServing J.plan (state_of S.device d.driver) × (131072 ≤ vec_capacity d.bytes)
        × (d.lv ≡ J.plan.lv) × (d.blocks ≡ J.plan.blocks) × (d.apart ≡ J.plan.apart) × (d.sync ≡ J.plan.sync) × (256 ≤ d.blocks) × (J.plan.clients ≤ 128) };

    fn shown(&self) -> u64 {
        u64::from(self.driver.history().len())
    }
}

impl<S: Shelf, J: Lending> Service for Lent<S, J> {
    ghost use Rattle.lvm_session.specs.State.{state_of};
    ghost use Rattle.lvm_load.specs.Lending.{IsDrawnAs, IsNotTaken, LooksOn};
    ghost use Rattle.lvm_load.specs.Waits.{waits_grow, waits_in};

    ghost clients = { J.plan.clients };

    ghost asks = { λ client number d r. IsDrawnAs J.plan client number d r };

    ghost refuses = { λ y client number d said. IsNotTaken J.plan (state_of S.device y.driver) client d said };

    ghost looks = { λ x client id said y. LooksOn client id (state_of S.device x.driver) (state_of S.device y.driver) said };

    ghost waits = { waits_in };

    fn ask(&mut self, client: u32, number: u32, drawn: &Draw) -> Asked {
        let word = word_of(client, number);
        let shaped = shaped(self.apart, self.blocks, client, drawn);
        let asked = submit_drawn(
            &mut self.driver,
            client,
            &shaped,
            self.lv,
            self.blocks,
            word,
            &mut self.bytes,
        );
        self.driver.is_sound();
        match asked {
            Ok(id) => Asked::Begun(id),
            Err(why) => refused(why),
        }
    }

    fn look(&mut self, client: u32, id: u64) -> Seen {
        self.driver.is_sound();
        match self.driver.take(client, id) {
            Taken::NotYet => {
                let answer = self.driver.turn();
                self.driver.is_sound();
                match answer {
                    Turned::Idle => Seen::Idle,
                    _ => Seen::Moved,
                }
            }
            _ => {
                self.driver.is_sound();
                Seen::Taken
            }
        }
    }

    ghost waits_stay = { waits_grow };
}

impl<S: Shelf, J: Lending> Brings for Lent<S, J> {
    ghost use Rattle.lvm_session.specs.State.{state_of};
    ghost use Rattle.lvm_load.specs.Bringing.{BringsIf};

    ghost brings = { λ x at said y. BringsIf J.plan.sync J.plan.lv at (state_of S.device x.driver) (state_of S.device y.driver) said };

    fn bring(&mut self, at: u32) -> Brought {
        if !self.sync {
            return Brought::Over;
        }
        let brought = bring_on(&mut self.driver, self.lv, at);
        self.driver.is_sound();
        brought
    }
}
