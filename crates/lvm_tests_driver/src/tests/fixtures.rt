//! What the tests share: a driver over three disks in memory, on the first of which a volume has its copies, and what
//! they ask of it.
ghost use Rattle.std.specs.Prelude.{◌≡◌, ◌≤◌, ◌<◌, ◌+◌, ◌*◌, ◌^◌, true, false, [], ◌∷◌, IsTrue};
ghost use Rattle.lvm_num.specs.Descriptor.{IsValid};
ghost use Rattle.lvm_num.specs.Status.{IsValidStatus};
ghost use Rattle.lvm_num.specs.Votes.{is_enough_to_write, total_votes};
ghost use Rattle.lvm_kept.specs.Examples.{row_of};
ghost use Rattle.lvm_memory.specs.Media.{blank_disks_of, sizes_of};
ghost use Rattle.lvm_memory.specs.Memory.{device_of};
ghost use Rattle.lvm_session.specs.declared.open.Power.TheVariants as power;
ghost use Rattle.lvm_session_start.specs.Parts.{IsSessionRoom};
ghost use Rattle.lvm_session.specs.Sound.{HasPower};
ghost use Rattle.lvm_session.specs.Worked.{status_of};
ghost use Rattle.lvm_vol.specs.Log.{empty_log, spare_entries};

use lvm_core::CommitFault;
use lvm_disk::{Arrange, Shelf};
use lvm_history::History;
use lvm_memory::{MemShelf, Planned, names_disks};
use lvm_num::{
    Descriptor, DiskSet, LvRow, Mode, Name, Policy, Pp, PvRow, Rows, Stamp, Status, StatusRow,
    VolumeNumbers, fill, word_of,
};
use lvm_path::Ask;
use lvm_ranges::below::driver::{Closed, Driver};
use lvm_ranges::below::whole_groups_begin;
use lvm_ranges::{SyncFault, sync_volume};
use lvm_rec::Homes;
use lvm_session::{AskFault, CopyFault, CopyState, Power, Taken, Turned};
use lvm_session_start::{SessionRoom, take_parts};
use lvm_transfer::Patience;
use std::process::Abort;

/// Ends the test where this isn't so, and says of what.
pub fn check(rt: &impl Abort, is: bool, what: &str)
    ensures { IsTrue is }
{
    assert!(rt; is, "{what}");
}

/// A volume of one logical partition on the first disks, and the room of its session.
#[derive(Clone, Copy)]
pub struct Setup {
    pub mode: Mode,
    pub policy: Policy,
    pub copies: u8,
    /// The size of the one partition of each disk.
    pub mib: u16,
    /// Whether the second copy is stale.
    pub stale: bool,
    /// Whether another volume has its one copy on the second disk, on which the first then has none.
    pub another: bool,
    pub table: u32,
    pub pool: u32,
    /// The room of its history, in entries and in bytes.
    pub entries: u32,
    pub bytes: u64,
    /// The number of the last stamp before it.
    pub seq: u32,
}

/// An active volume with two copies of eight track groups.
pub const MIRROR: Setup = Setup {
    mode: Mode::Active,
    policy: Policy::Parallel,
    copies: 2,
    mib: 1,
    stale: false,
    another: false,
    table: 16,
    pool: 16,
    entries: 1000,
    bytes: 100_000,
    seq: 3,
};

/// The second of these copies is stale.
pub const STALE: Setup = Setup {
    stale: true,
    ..MIRROR
};

/// Two copies, neither of which is stale, of a volume in mode off.
pub const FRESH: Setup = Setup {
    mode: Mode::Off,
    ..MIRROR
};

pub static MODES: [Mode; 3] = [Mode::Active, Mode::Passive, Mode::Off];

pub static POLICIES: [Policy; 4] = [
    Policy::Parallel,
    Policy::Sequential,
    Policy::ParallelWrite,
    Policy::RoundRobin,
];

// ---- the group

fn name(rt: &impl Abort, bytes: &[u8]) -> Name {
    Name::read(bytes).expect(rt, "a name")
}

fn map(rt: &(impl Abort + AllocGlobal), copies: u8) -> Rows<Pp> {
    let mut map = Vec::new(rt.alloc());
    for disk in 0..u16::from(copies) {
        map.push(Pp { disk, pp: 0 }).expect(rt, "memory");
    }
    Rows::new(map)
}

fn volume(rt: &(impl Abort + AllocGlobal), setup: &Setup) -> LvRow {
    LvRow {
        number: 1,
        name: name(rt, b"lv00"),
        copies: setup.copies,
        mode: setup.mode,
        policy: setup.policy,
        lps: 1,
        map: map(rt, setup.copies),
    }
}

fn another_volume(rt: &(impl Abort + AllocGlobal), setup: &Setup) -> LvRow {
    let copy = [Pp { disk: 1, pp: 0 }];
    LvRow {
        number: 2,
        name: name(rt, b"lv01"),
        copies: 1,
        mode: setup.mode,
        policy: setup.policy,
        lps: 1,
        map: Rows::new(Vec::from_slice(rt.alloc(), &copy).expect(rt, "memory")),
    }
}

fn volumes(rt: &(impl Abort + AllocGlobal), setup: &Setup) -> Rows<LvRow> {
    let mut lvs = Vec::new(rt.alloc());
    lvs.push(volume(rt, setup)).expect(rt, "memory");
    if setup.another {
        lvs.push(another_volume(rt, setup)).expect(rt, "memory");
    }
    Rows::new(lvs)
}

fn member(disk: u16) -> PvRow
    ensures { result ≡ record { disk = disk; pps = 1; spare = false } }
{
    PvRow {
        disk,
        pps: 1,
        spare: false,
    }
}

fn members(rt: &(impl Abort + AllocGlobal)) -> Rows<PvRow>
    ensures { result ≡ record { disk = 0; pps = 1; spare = false } ∷ record { disk = 1; pps = 1; spare = false } ∷ record { disk = 2; pps = 1; spare = false } ∷ [] }
{
    let rows = [member(0), member(1), member(2)];
    Rows::new(Vec::from_slice(rt.alloc(), &rows).expect(rt, "memory"))
}

fn unchecked_group(rt: &(impl Abort + AllocGlobal), setup: &Setup) -> Descriptor
    ensures id { result.id ≡ 50 }
    ensures mib { result.mib ≡ setup.now.mib }
    ensures members { result.pvs ≡ record { disk = 0; pps = 1; spare = false } ∷ record { disk = 1; pps = 1; spare = false } ∷ record { disk = 2; pps = 1; spare = false } ∷ [] }
{
    Descriptor {
        id: 50,
        name: name(rt, b"datavg"),
        mib: setup.mib,
        quorum: true,
        even: false,
        big: false,
        pvs: members(rt),
        lvs: volumes(rt, setup),
    }
}

fn group(rt: &(impl Abort + AllocGlobal), setup: &Setup) -> Descriptor
    ensures id { result.id ≡ 50 }
    ensures mib { result.mib ≡ setup.now.mib }
    ensures members { result.pvs ≡ record { disk = 0; pps = 1; spare = false } ∷ record { disk = 1; pps = 1; spare = false } ∷ record { disk = 2; pps = 1; spare = false } ∷ [] }
    ensures valid { IsValid result }
    ensures votes { is_enough_to_write result (total_votes result) ≡ true }
{
    let group = unchecked_group(rt, setup);
    assert!(rt; group.is_valid());
    assert!(rt; group.enough_to_write(group.total_votes()));
    group
}

fn status_row(disk: u16, is_stale: bool) -> StatusRow
    ensures { result ≡ row_of disk is_stale }
{
    let mut stale = [0; 127];
    if is_stale {
        stale[0] = 1;
    }
    StatusRow {
        disk,
        missing: false,
        stale,
    }
}

fn status(rt: &(impl Abort + AllocGlobal), stale: bool) -> Status
    ensures is { result ≡ status_of (record { stale = stale; missing = false; dirty = false; place = false }) }
    ensures valid { IsValidStatus result }
{
    let rows = [
        status_row(0, false),
        status_row(1, stale),
        status_row(2, false),
    ];
    let status = Status {
        id: 50,
        big: false,
        dirty: VolumeNumbers::empty(rt.alloc()).expect(rt, "memory"),
        rows: Rows::new(Vec::from_slice(rt.alloc(), &rows).expect(rt, "memory")),
    };
    assert!(rt; status.is_valid());
    status
}

// ---- its session

fn plan_of(rt: &(impl Abort + AllocGlobal), plan: &[Planned]) -> Rows<Planned>
    ensures { result ≡ plan.now }
{
    Rows::new(Vec::from_slice(rt.alloc(), plan).expect(rt, "memory"))
}

// Three disks of zeros, with room for one partition each.
fn shelf(rt: &(impl Abort + AllocGlobal), mib: u16, plan: &[Planned]) -> MemShelf
    ensures lit { HasPower (device_of result) }
    ensures idle { (device_of result).flights ≡ [] }
    ensures sizes { (device_of result).sizes ≡ sizes_of (blank_disks_of ((4096 + 2048 * mib) ∷ (4096 + 2048 * mib) ∷ (4096 + 2048 * mib) ∷ [])) }
{
    let sectors = 4096 + 2048 * u64::from(mib);
    assert!(rt; names_disks(plan, 3));
    MemShelf::new(
        rt.alloc(),
        &[sectors, sectors, sectors],
        plan_of(rt, plan),
        0,
    )
    .expect(rt, "memory")
}

fn room(rt: &impl Abort, setup: &Setup) -> SessionRoom
    ensures { IsSessionRoom result }
{
    assert!(rt; setup.table <= 1024);
    assert!(rt; 1 <= setup.pool && setup.pool <= 1024);
    SessionRoom {
        table: setup.table,
        pool: setup.pool,
    }
}

fn history(rt: &(impl Abort + AllocGlobal), setup: &Setup) -> History
    ensures is { result ≡ empty_log 50 setup.now.entries setup.now.bytes }
    ensures spare { 1 ≤ spare_entries result }
    ensures few { setup.now.entries < 2 ^ 32 }
{
    assert!(rt; 4 <= setup.entries);
    History::new(rt.alloc(), 50, setup.entries, setup.bytes).expect(rt, "memory")
}

// The last stamp before the session, behind which there are numbers for its updates.
fn last_stamp(rt: &impl Abort, seq: u32) -> Stamp
    ensures is { result ≡ record { epoch = 50; seq = seq } }
    ensures few { seq < 4294965000 }
{
    assert!(rt; seq < 4_294_965_000);
    Stamp { epoch: 50, seq }
}

/// The session of a group, on whose disks this happens.
pub fn begin(rt: &(impl Abort + AllocGlobal), setup: &Setup, plan: &[Planned]) -> Driver<MemShelf> {
    let group = group(rt, setup);
    let status = status(rt, setup.stale);
    let parts = take_parts(rt.alloc(), group, &status, room(rt, setup)).expect(rt, "memory");
    whole_groups_begin();
    let homes = Homes {
        descriptor: DiskSet::empty(),
        status: DiskSet::empty(),
    };
    Driver::start(
        parts,
        shelf(rt, setup.mib, plan),
        history(rt, setup),
        last_stamp(rt, setup.seq),
        homes,
    )
}

// ---- what is asked of it

/// Ends the test where nothing was heard of a transfer of a command.
pub fn goes_on<S: Shelf>(rt: &impl Abort, driver: &Driver<S>)
    ensures { driver.now.1.power ≡ power.Stuck → ⊥ }
{
    let power = driver.power();
    assert!(rt; !matches!(power, Power::Stuck));
}

/// Submits a write of a block of a volume.
pub fn write_to<S: Shelf>(
    rt: &impl Abort,
    driver: &mut Driver<S>,
    lv: u16,
    at: u64,
    word: u64,
) -> Result<u64, AskFault> {
    goes_on(rt, driver);
    assert!(rt; at < 1_099_511_627_776);
    let ask = Ask::Write { lv, at, count: 1 };
    driver.submit(1, ask, Some(&fill(word)))
}

/// So it does of the first volume.
pub fn write<S: Shelf>(
    rt: &impl Abort,
    driver: &mut Driver<S>,
    at: u64,
    word: u64,
) -> Result<u64, AskFault> {
    write_to(rt, driver, 1, at, word)
}

/// Submits a read of a block of a volume.
pub fn read_of<S: Shelf>(
    rt: &impl Abort,
    driver: &mut Driver<S>,
    lv: u16,
    at: u64,
) -> Result<u64, AskFault> {
    goes_on(rt, driver);
    assert!(rt; at < 1_099_511_627_776);
    let ask = Ask::Read { lv, at, count: 1 };
    driver.submit(1, ask, None)
}

/// So it does of the first volume.
pub fn read<S: Shelf>(rt: &impl Abort, driver: &mut Driver<S>, at: u64) -> Result<u64, AskFault> {
    read_of(rt, driver, 1, at)
}

/// One turn.
pub fn turn<S: Shelf>(rt: &impl Abort, driver: &mut Driver<S>) -> Turned {
    goes_on(rt, driver);
    driver.turn()
}

/// Turns until nothing is left to be made.
pub fn drain<S: Shelf>(rt: &impl Abort, driver: &mut Driver<S>) -> Result<(), CommitFault> {
    goes_on(rt, driver);
    let mut patience = Patience { left: 1_000 };
    driver.drain(&mut patience)
}

/// An order to the disks, the highest of which is 2.
pub fn order<S: Shelf>(rt: &impl Abort, driver: &mut Driver<S>, what: Arrange) {
    goes_on(rt, driver);
    assert!(rt; driver.disks() == 3);
    match what {
        Arrange::Fail(disk) | Arrange::Heal(disk) => assert!(rt; disk < 3),
        Arrange::Cut(_) => {}
    }
    driver.arrange(what);
}

/// Opens a copy of the volume, from 1.
pub fn open_copy<S: Shelf>(
    rt: &impl Abort,
    driver: &mut Driver<S>,
    lv: u16,
    lp: u32,
    number: u8,
) -> Result<(), CopyFault> {
    goes_on(rt, driver);
    driver.open_copy(lv, lp, number)
}

/// How far the copy is that is open, which is closed where it has ended.
pub fn close_copy<S: Shelf>(driver: &mut Driver<S>) -> CopyState {
    let state = driver.copy_state();
    if !matches!(state, CopyState::Running { .. }) {
        driver.close_copy();
    }
    state
}

/// The answer of a request: the word of a block that was read, or another one.
pub fn answer<S: Shelf>(rt: &impl Abort, driver: &mut Driver<S>, id: u64) -> Result<u64, Taken> {
    match driver.take(1, id) {
        Taken::Got { place, .. } => {
            let history = driver.history();
            assert!(rt; place < history.block_count());
            Ok(word_of(history.block(place)).expect(rt, "a word"))
        }
        taken => Err(taken),
    }
}

/// A write that has landed, and how.
pub fn written<S: Shelf>(rt: &impl Abort, driver: &mut Driver<S>, at: u64, word: u64) -> Taken {
    let id = write(rt, driver, at, word).expect(rt, "it is taken");
    let _ = drain(rt, driver);
    driver.take(1, id)
}

/// A read of a volume that has landed: the word of the block, or how it failed.
pub fn got_of<S: Shelf>(
    rt: &impl Abort,
    driver: &mut Driver<S>,
    lv: u16,
    at: u64,
) -> Result<u64, Taken> {
    let id = read_of(rt, driver, lv, at).expect(rt, "it is taken");
    let _ = drain(rt, driver);
    answer(rt, driver, id)
}

/// So it is of the first volume.
pub fn got<S: Shelf>(rt: &impl Abort, driver: &mut Driver<S>, at: u64) -> Result<u64, Taken> {
    got_of(rt, driver, 1, at)
}

/// Whether the volume's copy on a disk is stale.
pub fn is_stale<S: Shelf>(driver: &Driver<S>, disk: u16) -> bool {
    driver.table().is_stale(Pp { disk, pp: 0 })
}

/// Ends the session, in which each request was taken. Its history is legal.
pub fn close<S: Shelf>(rt: &impl Abort, driver: Driver<S>) -> S {
    assert!(rt; driver.open() == 0);
    let Closed { shelf, history } = driver.close();
    assert!(rt; history.is_legal());
    shelf
}

/// Brings up the stale copies of the volume.
pub fn sync<S: Shelf>(rt: &impl Abort, driver: &mut Driver<S>) -> Result<u32, SyncFault> {
    goes_on(rt, driver);
    let mut patience = Patience { left: 1_000 };
    sync_volume(driver, 1, &mut patience)
}
