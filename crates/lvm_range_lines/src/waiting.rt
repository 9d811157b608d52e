//! The line that waits for all posts, and answers them.
ghost use Rattle.std.specs.Prelude.{◌≡◌, ◌≤◌, ◌<◌, ◌-◌, ◌^◌, All, [], Some, None, false, length};
ghost use Rattle.lvm_disk.specs.Counts.{RoseBy};
ghost use Rattle.lvm_disk.specs.Device.{Device};
ghost use Rattle.lvm_kept.specs.Moments.{Moment};
ghost use Rattle.lvm_steps.specs.Moments.{Keeps};
ghost use Rattle.lvm_steps.specs.Requests.{at};
ghost use Rattle.lvm_session.specs.declared.open.Power.TheVariants as power;
ghost use Rattle.lvm_session.specs.Fields.{core_of};
ghost use Rattle.lvm_session.specs.Judging.{is_moving};
ghost use Rattle.lvm_session.specs.Rooms.{HasRooms};
ghost use Rattle.lvm_session.specs.Sound.{IsSound};
ghost use Rattle.lvm_session.specs.State.{state_of};
ghost use Rattle.lvm_posts.specs.Deciding.{RangeEnds};
ghost use Rattle.lvm_posts.specs.Pieces.{IsLaidOut};
ghost use Rattle.lvm_posts.specs.Posts.{AreAnswered};
ghost use Rattle.lvm_group_lines.specs.passed.Handover.{with_taken};
ghost use Rattle.lvm_group_lines.specs.passed.Ranges.{KeepsTable, HavePiecesLanded};
ghost use Rattle.lvm_group_lines.specs.passed.Tie.{RunsOn};
ghost use Rattle.lvm_group_lines.specs.Ends.{EndsUnasked};
ghost use Rattle.lvm_group_lines.specs.Moments.{OfRequests};
ghost use Rattle.lvm_group_lines.specs.Stages.{IsBetweenStage, IsFittingStage, history_in, session_in};
ghost use Rattle.lvm_group_lines.specs.State.{ArePosted, IsPosted};
ghost use Rattle.lvm_vol.specs.Order.{Ordered};
ghost use Rattle.lvm_range_lines.specs.Leaving.{resting, serving};
ghost use Rattle.lvm_range_lines.specs.Waiting.{AllHaveLanded, TakesPost, WaitDoes};
ghost use Rattle.lvm_range_lines.specs.Taking.{AwaitsPost, AwaitsPosts, Enters, GathersGone, GathersPosts, KeepsLater, LandedEnds, LeavesOthers, StaysKept, WaitsBehind};

use crate::answers::Answers;
use lvm_disk::Shelf;
use lvm_group_lines::below::driver::Driver;
use lvm_group_lines::below::earlier::take_earlier;
use lvm_group_lines::below::ranges::{Stuck, await_range, take_range};
use lvm_group_lines::below::{Closed, CommandDriver};
use lvm_group_lines::{Answered, Holder, Refusal, Stage};
use lvm_history::History;
use lvm_posts::{Asked, Post, RangeFault, take_closed};
use lvm_session::{Power, Session};
use lvm_transfer::Patience;
use std::alloc::Global;

// ---- turns

// Makes turns until a post has landed, where it is of the session that is on.
fn await_post<S: Shelf>(
    driver: &mut Driver<S>,
    post: &Post,
    patience: &mut Patience,
) -> Result<(), Stuck>
    requires unstuck { driver.old.1.power ≡ power.Stuck → ⊥ }
    requires unmoved { is_moving driver.old.1 ≡ false }
    requires laid { IsLaidOut post.now.asked }
    ensures awaits { AwaitsPost post.now patience.new.left (state_of S.device driver.old) (state_of S.device driver.new) result }
    ensures table { KeepsTable driver.old.1 driver.new.1 }
    ensures runs { RunsOn (state_of S.device driver.old) (state_of S.device driver.new) }
    ensures patience { patience.new.left ≤ patience.old.left }
    ensures waited { RoseBy (patience.old.left - patience.new.left) (S.device driver.old.0).counts.waits (S.device driver.new.0).counts.waits }
{
    match post.ended {
        Some(_) => Ok(()),
        None => await_range(driver, &post.asked, patience),
    }
}

// Makes turns until each post of the session has landed.
fn await_posts<S: Shelf>(
    driver: &mut Driver<S>,
    posts: &[Post],
    patience: &mut Patience,
) -> Result<(), Stuck>
    requires unstuck { driver.old.1.power ≡ power.Stuck → ⊥ }
    requires unmoved { is_moving driver.old.1 ≡ false }
    requires laid { All (λ post. IsLaidOut post.asked) posts.now }
    ensures awaits { AwaitsPosts posts.now patience.new.left (state_of S.device driver.old) (state_of S.device driver.new) result }
    ensures table { KeepsTable driver.old.1 driver.new.1 }
    ensures runs { RunsOn (state_of S.device driver.old) (state_of S.device driver.new) }
    ensures waited { RoseBy (patience.old.left - patience.new.left) (S.device driver.old.0).counts.waits (S.device driver.new.0).counts.waits }
{
    for post in posts {
        match await_post(driver, post, patience) {
            Ok(()) => {}
            Err(why) => return Err(why),
        }
    }
    Ok(())
}

// ---- answers

// Takes the answers of posts whose sessions are gone, while none is on.
fn take_off(alloc: Global, history: &mut History, posts: &[Post]) -> Answers
    requires posted { ArePosted history.old.facts None posts.now }
    requires few { length posts.now < 2 ^ 32 }
    ensures takes { GathersGone history.old.facts posts.now history.new.facts result }
    ensures rooms { history.new ≡ record history.old { facts = history.new.facts } }
    ensures keeps { (first : Moment) (device : Device) → Keeps history.old.run first (at device history.old.facts) → Keeps history.old.run first (at device history.new.facts) }
    ensures later { KeepsLater history.old.facts history.new.facts }
{
    let mut answers = Answers::new(alloc);
    for post in posts {
        let (have, total) = post.ended.unwrap_or((0, 0));
        let answer = take_closed(history, &post.asked, have, total);
        answers = answers.with(answer);
    }
    answers
}

// Takes the answers of a range from the history of the session that is on.
fn take_in(
    session: Session,
    asked: &Asked,
    have: u32,
    total: u32,
) -> (Session, Result<(), RangeFault>)
    requires answered { AreAnswered (core_of session).history.facts asked.now }
    requires laid { IsLaidOut asked.now }
    ensures core { core_of result.0 ≡ with_taken asked.now (core_of session) }
    ensures rooms { HasRooms session → HasRooms result.0 }
    ensures ends { RangeEnds (core_of result.0).history.facts asked.now have total result.1 }
    ensures keeps { StaysKept (core_of session).history (core_of result.0).history }
{
    let mut session = session;
    let answer = take_closed(&mut session.history, asked, have, total);
    (session, answer)
}

// Takes the answer of a post while a session is on at which nothing is under way.
fn take_one_at_rest<S: Shelf>(
    driver: CommandDriver<S>,
    post: &Post,
) -> (CommandDriver<S>, Result<(), RangeFault>)
    requires on { driver.1.power ≡ power.On }
    requires none { driver.1.requests ≡ [] }
    requires sound { IsSound (state_of S.device driver) }
    requires posted { IsPosted driver.1.history.facts (Some driver.1) post.now }
    ensures takes { TakesPost post.now (state_of S.device driver) (state_of S.device result.0) result.1 }
    ensures left { LeavesOthers post.now.asked driver.1 result.0.1 }
    ensures runs { RunsOn (state_of S.device driver) (state_of S.device result.0) }
    ensures sound { IsSound (state_of S.device result.0) }
    ensures on { result.0.1.power ≡ power.On }
    ensures none { result.0.1.requests ≡ [] }
    ensures enters { Enters (state_of S.device driver) (state_of S.device result.0) }
{
    let (have, total) = post.ended.unwrap_or((0, 0));
    let (shelf, session) = driver.into_parts();
    let (session, answer) = take_in(session, &post.asked, have, total);
    (CommandDriver::from_parts(shelf, session), answer)
}

// Takes them all.
fn take_at_rest<S: Shelf>(
    alloc: Global,
    driver: CommandDriver<S>,
    posts: &[Post],
) -> (CommandDriver<S>, Answers)
    requires on { driver.1.power ≡ power.On }
    requires none { driver.1.requests ≡ [] }
    requires sound { IsSound (state_of S.device driver) }
    requires posted { ArePosted driver.1.history.facts (Some driver.1) posts.now }
    requires few { length posts.now < 2 ^ 32 }
    ensures takes { GathersPosts (state_of S.device driver) posts.now (state_of S.device result.0) result.1 }
    ensures runs { RunsOn (state_of S.device driver) (state_of S.device result.0) }
    ensures on { result.0.1.power ≡ power.On }
    ensures sound { IsSound (state_of S.device result.0) }
    ensures enters { Enters (state_of S.device driver) (state_of S.device result.0) }
{
    let mut driver = driver;
    let mut answers = Answers::new(alloc);
    for post in posts {
        let (next, answer) = take_one_at_rest(driver, post);
        driver = next;
        answers = answers.with(answer);
    }
    (driver, answers)
}

// Takes the answer of a post while a session is on: of that session, or of one that is gone.
fn take_one<S: Shelf>(driver: Driver<S>, post: &Post) -> (Driver<S>, Result<(), RangeFault>)
    requires on { driver.1.power ≡ power.On }
    requires unmoved { is_moving driver.1 ≡ false }
    requires posted { IsPosted driver.1.history.facts (Some driver.1) post.now }
    requires landed { post.now.ended ≡ None → HavePiecesLanded post.now.asked (state_of S.device driver) }
    ensures takes { TakesPost post.now (state_of S.device driver) (state_of S.device result.0) result.1 }
    ensures left { LeavesOthers post.now.asked driver.1 result.0.1 }
    ensures runs { RunsOn (state_of S.device driver) (state_of S.device result.0) }
    ensures on { result.0.1.power ≡ power.On }
{
    driver.is_sound();
    match post.ended {
        Some((have, total)) => take_earlier(driver, &post.asked, have, total),
        None => {
            let mut driver = driver;
            let answer = take_range(&mut driver, &post.asked);
            (driver, answer)
        }
    }
}

// Takes them all.
fn take_on<S: Shelf>(alloc: Global, driver: Driver<S>, posts: &[Post]) -> (Driver<S>, Answers)
    requires on { driver.1.power ≡ power.On }
    requires unmoved { is_moving driver.1 ≡ false }
    requires posted { ArePosted driver.1.history.facts (Some driver.1) posts.now }
    requires landed { AllHaveLanded posts.now (state_of S.device driver) }
    requires few { length posts.now < 2 ^ 32 }
    ensures takes { GathersPosts (state_of S.device driver) posts.now (state_of S.device result.0) result.1 }
    ensures runs { RunsOn (state_of S.device driver) (state_of S.device result.0) }
    ensures on { result.0.1.power ≡ power.On }
    ensures sound { IsSound (state_of S.device result.0) }
{
    let mut driver = driver;
    let mut answers = Answers::new(alloc);
    for post in posts {
        let (next, answer) = take_one(driver, post);
        driver = next;
        answers = answers.with(answer);
    }
    driver.is_sound();
    (driver, answers)
}

// ---- the line

// Answers all posts while no session is on.
fn wait_off<S: Shelf>(alloc: Global, stage: Stage<S>) -> Answered<S>
    requires off { session_in stage ≡ None }
    requires fits { IsFittingStage stage }
    requires posted { ArePosted (history_in stage).facts None stage.posts.items }
    requires few { length stage.posts.items < 2 ^ 32 }
    ensures waits { WaitsBehind S.device stage result.stage result.reply }
    ensures fits { IsFittingStage result.stage }
{
    let (Closed { shelf, mut history }, mut posts, bytes) = stage.close();
    let answers = take_off(alloc, &mut history, &posts);
    posts.clear();
    Stage::off(shelf, history, posts, bytes).answered(answers.reply())
}

// Answers all posts of a session each of which has landed.
fn wait_landed<S: Shelf>(
    alloc: Global,
    driver: Driver<S>,
    posts: Vec<Post>,
    bytes: Vec<u8>,
) -> Answered<S>
    requires unstuck { driver.1.power ≡ power.Stuck → ⊥ }
    requires unmoved { is_moving driver.1 ≡ false }
    requires fits { IsFittingStage (serving driver posts bytes) }
    requires posted { ArePosted driver.1.history.facts (Some driver.1) posts.items }
    requires landed { AllHaveLanded posts.items (state_of S.device driver) }
    requires few { length posts.items < 2 ^ 32 }
    ensures ends { LandedEnds S.device driver posts bytes driver.1.power result.stage result.reply }
    ensures fits { IsFittingStage result.stage }
    ensures sound { IsSound (state_of S.device driver) }
{
    driver.is_sound();
    match driver.power() {
        Power::On => {
            let (driver, answers) = take_on(alloc, driver, &posts);
            let mut posts = posts;
            posts.clear();
            Stage {
                holder: Holder::Serving { driver },
                posts,
                bytes,
            }
            .answered(answers.reply())
        }
        Power::Off | Power::Dark | Power::Stuck => {
            wait_off(alloc, Stage::ended(driver, posts, bytes))
        }
    }
}

// Answers all posts of a session that is on, once all have landed.
fn wait_on<S: Shelf>(
    alloc: Global,
    driver: Driver<S>,
    posts: Vec<Post>,
    bytes: Vec<u8>,
) -> Answered<S>
    requires fits { IsFittingStage (serving driver posts bytes) }
    requires between { IsBetweenStage S.device (serving driver posts bytes) }
    requires few { length posts.items < 2 ^ 32 }
    ensures { EndsUnasked S.device (λ _. WaitDoes) ⊥ OfRequests (serving driver posts bytes) result.stage result.reply }
{
    let mut driver = driver;
    let mut patience = Patience::whole();
    match await_posts(&mut driver, &posts, &mut patience) {
        Ok(()) => wait_landed(alloc, driver, posts, bytes),
        Err(Stuck) => {
            driver.is_sound();
            Stage::ended(driver, posts, bytes).refused(Refusal::Stuck)
        }
    }
}

// Answers all posts of a group without volumes, each of which is of a session that is gone.
fn wait_at_rest<S: Shelf>(
    alloc: Global,
    driver: CommandDriver<S>,
    posts: Vec<Post>,
    bytes: Vec<u8>,
) -> Answered<S>
    requires fits { IsFittingStage (resting driver posts bytes) }
    requires between { IsBetweenStage S.device (resting driver posts bytes) }
    requires few { length posts.items < 2 ^ 32 }
    ensures { EndsUnasked S.device (λ _. WaitDoes) ⊥ OfRequests (resting driver posts bytes) result.stage result.reply }
{
    let (driver, answers) = take_at_rest(alloc, driver, &posts);
    let mut posts = posts;
    posts.clear();
    Stage {
        holder: Holder::Empty { driver },
        posts,
        bytes,
    }
    .answered(answers.reply())
}

// What a history tells is in order, and has fewer entries than there are numbers of four bytes.
fn is_told(history: &History)
    ensures ordered { Ordered history.now.run [] history.now.facts }
    ensures few { length history.now.facts < 2 ^ 32 }
{
    let _ = history.run();
    let _ = history.len();
}

/// Makes turns until each post has landed, and no turn more; then answers them in their order.
pub fn do_wait<S: Shelf>(alloc: Global, stage: Stage<S>) -> Answered<S>
    requires fits { IsFittingStage stage }
    requires between { IsBetweenStage S.device stage }
    ensures { EndsUnasked S.device (λ _. WaitDoes) ⊥ OfRequests stage result.stage result.reply }
{
    let Stage {
        holder,
        posts,
        bytes,
    } = stage;
    match holder {
        Holder::Off { shelf, history } => {
            is_told(&history);
            wait_off(
                alloc,
                Stage {
                    holder: Holder::Off { shelf, history },
                    posts,
                    bytes,
                },
            )
        }
        Holder::Empty { driver } => {
            is_told(driver.history());
            wait_at_rest(alloc, driver, posts, bytes)
        }
        Holder::Serving { driver } => {
            is_told(driver.history());
            wait_on(alloc, driver, posts, bytes)
        }
    }
}
