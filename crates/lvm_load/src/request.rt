//! A request that is drawn.
ghost use Rattle.std.specs.Prelude.{◌≡◌, ◌≤◌, ◌<◌, ◌+◌, ◌%◌, ◌^◌, vec_capacity};
ghost use Rattle.lvm_session.specs.declared.open.Power.TheVariants as power;
ghost use Rattle.lvm_session.specs.Calls.{SubmitGives};
ghost use Rattle.lvm_driver.specs.passed.Going.{RunsOn};
ghost use Rattle.lvm_session.specs.State.{state_of};
ghost use Rattle.lvm_load.specs.Requests.{ask_of, block_count, bytes_of, first_block};

use lvm_disk::Shelf;
use lvm_driver::Driver;
use lvm_num::TRACK_GROUP;
use lvm_path::Ask;
use lvm_posts::fill_bytes;
use lvm_session::AskFault;
use lvm_workers::Draw;

// The blocks of a track group, in which a request lies.
const GROUP: u64 = TRACK_GROUP as u64;

// The first block of a request to a volume of so many blocks, and how many it has.
fn range_of(drawn: &Draw, blocks: u64) -> (u64, u32)
    requires { 1 ≤ blocks }
    ensures first { result.0 ≡ first_block blocks drawn.now }
    ensures count { result.1 ≡ block_count blocks drawn.now }
    ensures some { 1 ≤ result.1 }
    ensures last { result.0 + result.1 < 2 ^ 64 }
    ensures group { result.0 % 256 + result.1 ≤ 256 }
{
    let at = u64::from(drawn.at) % blocks;
    let count = drawn.blocks().min((GROUP - at % GROUP) as u32);
    (at, count)
}

/// Submits a drawn request of a client, a write with blocks of which the first is filled with the word and each other with
/// the next. No memory is taken: the bytes have room for them.
pub fn submit_drawn<S: Shelf>(
    driver: &mut Driver<S>,
    client: u32,
    drawn: &Draw,
    lv: u16,
    blocks: u64,
    word: u64,
    bytes: &mut Vec<u8>,
) -> Result<u64, AskFault>
    requires unstuck { driver.old.1.power ≡ power.Stuck → ⊥ }
    requires some { 1 ≤ blocks }
    requires room { 131072 ≤ vec_capacity bytes.old }
    ensures shelf { driver.new.0 ≡ driver.old.0 }
    ensures gives { SubmitGives driver.old.1 driver.new.1 client (ask_of lv blocks drawn.now) (bytes_of word blocks drawn.now) result }
    ensures runs { RunsOn (state_of S.device driver.old) (state_of S.device driver.new) }
    ensures room { 131072 ≤ vec_capacity bytes.new }
{
    let (at, count) = range_of(drawn, blocks);
    if drawn.is_write() {
        fill_bytes(bytes, word, 0, count);
        driver.submit(client, Ask::Write { lv, at, count }, Some(bytes.as_slice()))
    } else {
        driver.submit(client, Ask::Read { lv, at, count }, None)
    }
}
