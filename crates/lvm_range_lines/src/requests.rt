//! The lines that read or write a range of a volume.
ghost use Rattle.std.specs.Prelude.{◌≡◌, ◌≤◌, ◌<◌, ◌++◌, ◌∷◌, ℕ, [], Some, None, false, vec_capacity, vec_len, IfOk};
ghost use Rattle.lvm_session.specs.declared.open.Power.TheVariants as power;
ghost use Rattle.lvm_session.specs.Judging.{is_moving};
ghost use Rattle.lvm_session.specs.State.{state_of};
ghost use Rattle.lvm_posts.specs.Pieces.{IsLaidOut};
ghost use Rattle.lvm_posts.specs.Posts.{AreHeld};
ghost use Rattle.lvm_group_lines.specs.passed.Ranges.{IsAskedFor, FinishGives, KeepsOthers, HasEndedWell, IsRead};
ghost use Rattle.lvm_group_lines.specs.passed.Tie.{RunsOn};
ghost use Rattle.lvm_group_lines.specs.Stages.{IsBetweenStage, IsFittingStage};
ghost use Rattle.lvm_range_lines.specs.Leaving.{EndsInPlace, EndsInSession, KeepsPosts, Waited, serving};
ghost use Rattle.lvm_range_lines.specs.Requests.{AsksByName, PostDoes, RdDoes, ShowsBlocks, WrDoes};
ghost use Rattle.lvm_range_lines.specs.Refusals.{ending_of, reply_of};

use crate::refusal::{ask_refusal, range_refusal};
use lvm_disk::Shelf;
use lvm_group_lines::below::driver::Driver;
use lvm_group_lines::below::number_of;
use lvm_group_lines::below::ranges::{ask_range, finish_range, read_blocks};
use lvm_group_lines::{Holder, Refusal, Reply, Stage, lines_reply};
use lvm_num::{Memory, Name};
use lvm_posts::{Asked, Post, RangeFault};
use lvm_transfer::Patience;
use std::alloc::Global;

// Asks for a range of the volume of this name, a write where a word is given.
fn ask<S: Shelf>(
    driver: &mut Driver<S>,
    name: Name,
    at: u64,
    count: u32,
    write: Option<u64>,
    bytes: &mut Vec<u8>,
) -> Result<Asked, Refusal>
    requires on { driver.old.1.power ≡ power.On }
    requires some { 1 ≤ count }
    requires most { count ≤ 4096 }
    requires room { 131072 ≤ vec_capacity bytes.old }
    ensures asks { AsksByName name write at count driver.old.1 driver.new.1 result }
    ensures shelf { driver.new.0 ≡ driver.old.0 }
    ensures asked { IfOk result (IsAskedFor write count driver.old.1 driver.new.1) }
    ensures posts { KeepsPosts driver.old.1 driver.new.1 }
    ensures on { driver.new.1.power ≡ power.On }
    ensures runs { RunsOn (state_of S.device driver.old) (state_of S.device driver.new) }
    ensures room { 131072 ≤ vec_capacity bytes.new }
{
    match number_of(driver.descriptor(), name) {
        None => Err(Refusal::NoVolume),
        Some(lv) => match ask_range(driver, lv, at, count, write, bytes) {
            Ok(asked) => Ok(asked),
            Err(why) => Err(ask_refusal(why)),
        },
    }
}

// ---- post

// Adds a post to posts that have room for it.
fn add(posts: &mut Vec<Post>, post: Post)
    requires { vec_len posts.old < vec_capacity posts.old }
    ensures items { posts.new.items ≡ posts.old.items ++ post ∷ [] }
    ensures room { vec_capacity posts.old ≤ vec_capacity posts.new }
{
    match posts.push(post) {
        Ok(()) => {}
        Err(_) => unreachable!(),
    }
}

// Posts a range in a session that is on.
fn post_on<S: Shelf>(
    driver: &mut Driver<S>,
    posts: &mut Vec<Post>,
    bytes: &mut Vec<u8>,
    name: Name,
    at: u64,
    count: u32,
    word: u64,
) -> Reply
    requires fits { IsFittingStage (serving driver.old posts.old bytes.old) }
    requires between { IsBetweenStage S.device (serving driver.old posts.old bytes.old) }
    requires some { 1 ≤ count }
    requires most { count ≤ 4096 }
    ensures { EndsInPlace S.device (PostDoes name at count word) (serving driver.old posts.old bytes.old) (serving driver.new posts.new bytes.new) result }
{
    match ask(driver, name, at, count, Some(word), bytes) {
        Ok(asked) => {
            driver.is_sound();
            add(posts, Post { asked, ended: None });
            Reply::Posted
        }
        Err(why) => Reply::Refused(why),
    }
}

/// Asks for a range of a volume to be written, the first block filled with the word; `wait` answers it. The stage isn't
/// given away for it: `Stage::left` makes of it what stands behind the line.
pub fn do_post<S: Shelf>(stage: &mut Stage<S>, name: Name, at: u64, count: u32, word: u64) -> Reply
    requires fits { IsFittingStage stage.old }
    requires between { IsBetweenStage S.device stage.old }
    requires some { 1 ≤ count }
    requires most { count ≤ 4096 }
    ensures { EndsInPlace S.device (PostDoes name at count word) stage.old stage.new result }
{
    match &mut stage.holder {
        Holder::Off {
            shelf: _,
            history: _,
        } => Reply::Refused(Refusal::NoGroup),
        Holder::Empty { driver: _ } => Reply::Refused(Refusal::NoVolume),
        Holder::Serving { driver } => post_on(
            driver,
            &mut stage.posts,
            &mut stage.bytes,
            name,
            at,
            count,
            word,
        ),
    }
}

// ---- wr and rd

// The reply after a range was waited for.
fn finished(done: Result<Reply, RangeFault>) -> Reply
    ensures { result ≡ reply_of done }
{
    match done {
        Ok(reply) => reply,
        Err(why) => Reply::Refused(range_refusal(why)),
    }
}

// Waits for a write, and answers it.
fn write_reply<S: Shelf>(driver: &mut Driver<S>, asked: &Asked) -> Result<Reply, RangeFault>
    requires unstuck { driver.old.1.power ≡ power.Stuck → ⊥ }
    requires unmoved { is_moving driver.old.1 ≡ false }
    requires held { AreHeld driver.old.1 asked.now }
    requires laid { IsLaidOut asked.now }
    ensures finishes { (left : ℕ) × FinishGives asked.now left (state_of S.device driver.old) (state_of S.device driver.new) (ending_of result) × Waited left (state_of S.device driver.old) (state_of S.device driver.new) }
    ensures others { KeepsOthers asked.now driver.old.1 driver.new.1 }
    ensures runs { RunsOn (state_of S.device driver.old) (state_of S.device driver.new) }
    ensures reply { IfOk result (λ reply. reply ≡ Reply.Ok) }
{
    let mut patience = Patience::whole();
    match finish_range(driver, asked, &mut patience) {
        Ok(()) => Ok(Reply::Ok),
        Err(why) => Err(why),
    }
}

// Writes a range in a session that is on.
fn wr_on<S: Shelf>(
    driver: &mut Driver<S>,
    bytes: &mut Vec<u8>,
    name: Name,
    at: u64,
    count: u32,
    word: u64,
) -> Reply
    requires on { driver.old.1.power ≡ power.On }
    requires unmoved { is_moving driver.old.1 ≡ false }
    requires some { 1 ≤ count }
    requires most { count ≤ 4096 }
    requires room { 131072 ≤ vec_capacity bytes.old }
    ensures { EndsInSession S.device (WrDoes name at count word) driver.old bytes.old driver.new bytes.new result }
{
    match ask(driver, name, at, count, Some(word), bytes) {
        Ok(asked) => {
            let done = write_reply(driver, &asked);
            driver.is_sound();
            finished(done)
        }
        Err(why) => Reply::Refused(why),
    }
}

/// So writes a range of a volume, the first block filled with the word.
pub fn do_wr<S: Shelf>(stage: &mut Stage<S>, name: Name, at: u64, count: u32, word: u64) -> Reply
    requires fits { IsFittingStage stage.old }
    requires between { IsBetweenStage S.device stage.old }
    requires some { 1 ≤ count }
    requires most { count ≤ 4096 }
    ensures { EndsInPlace S.device (WrDoes name at count word) stage.old stage.new result }
{
    match &mut stage.holder {
        Holder::Off {
            shelf: _,
            history: _,
        } => Reply::Refused(Refusal::NoGroup),
        Holder::Empty { driver: _ } => Reply::Refused(Refusal::NoVolume),
        Holder::Serving { driver } => wr_on(driver, &mut stage.bytes, name, at, count, word),
    }
}

// The blocks that were read, if there is memory for them and their lines.
fn blocks_reply<S: Shelf>(alloc: Global, driver: &Driver<S>, asked: &Asked, count: u32) -> Reply
    requires read { IsRead driver.now.1.history.facts asked.now count }
    requires well { HasEndedWell driver.now.1.history.facts asked.now }
    requires laid { IsLaidOut asked.now }
    ensures { ShowsBlocks asked.now.at (state_of S.device driver.now) asked.now result }
{
    match read_blocks(alloc, driver.history(), asked, count) {
        Ok(blocks) => lines_reply(alloc, asked.at, blocks.as_slice()),
        Err(Memory) => Reply::Refused(Refusal::Memory),
    }
}

// Waits for a read, and answers it.
fn read_reply<S: Shelf>(
    alloc: Global,
    driver: &mut Driver<S>,
    asked: &Asked,
    count: u32,
) -> Result<Reply, RangeFault>
    requires unstuck { driver.old.1.power ≡ power.Stuck → ⊥ }
    requires unmoved { is_moving driver.old.1 ≡ false }
    requires held { AreHeld driver.old.1 asked.now }
    requires laid { IsLaidOut asked.now }
    requires read { IsRead driver.old.1.history.facts asked.now count }
    ensures finishes { (left : ℕ) × FinishGives asked.now left (state_of S.device driver.old) (state_of S.device driver.new) (ending_of result) × Waited left (state_of S.device driver.old) (state_of S.device driver.new) }
    ensures others { KeepsOthers asked.now driver.old.1 driver.new.1 }
    ensures runs { RunsOn (state_of S.device driver.old) (state_of S.device driver.new) }
    ensures reply { IfOk result (ShowsBlocks asked.now.at (state_of S.device driver.new) asked.now) }
{
    let mut patience = Patience::whole();
    match finish_range(driver, asked, &mut patience) {
        Ok(()) => Ok(blocks_reply(alloc, driver, asked, count)),
        Err(why) => Err(why),
    }
}

// Reads a range in a session that is on.
fn rd_on<S: Shelf>(
    alloc: Global,
    driver: &mut Driver<S>,
    bytes: &mut Vec<u8>,
    name: Name,
    at: u64,
    count: u32,
) -> Reply
    requires on { driver.old.1.power ≡ power.On }
    requires unmoved { is_moving driver.old.1 ≡ false }
    requires some { 1 ≤ count }
    requires most { count ≤ 4096 }
    requires room { 131072 ≤ vec_capacity bytes.old }
    ensures { EndsInSession S.device (RdDoes name at count) driver.old bytes.old driver.new bytes.new result }
{
    match ask(driver, name, at, count, None, bytes) {
        Ok(asked) => {
            let done = read_reply(alloc, driver, &asked, count);
            driver.is_sound();
            finished(done)
        }
        Err(why) => Reply::Refused(why),
    }
}

/// So reads a range of a volume.
pub fn do_rd<S: Shelf>(
    alloc: Global,
    stage: &mut Stage<S>,
    name: Name,
    at: u64,
    count: u32,
) -> Reply
    requires fits { IsFittingStage stage.old }
    requires between { IsBetweenStage S.device stage.old }
    requires some { 1 ≤ count }
    requires most { count ≤ 4096 }
    ensures { EndsInPlace S.device (RdDoes name at count) stage.old stage.new result }
{
    match &mut stage.holder {
        Holder::Off {
            shelf: _,
            history: _,
        } => Reply::Refused(Refusal::NoGroup),
        Holder::Empty { driver: _ } => Reply::Refused(Refusal::NoVolume),
        Holder::Serving { driver } => rd_on(alloc, driver, &mut stage.bytes, name, at, count),
    }
}
