//! What stands between two lines of a script.
ghost use Rattle.std.specs.Prelude.{◌≡◌, ◌≤◌, ◌⊎◌, ◌↔◌, ℕ, [], length, vec_capacity, IsTrue, IsFalse, IsSome, IfSome, IfOk, IfErr, Some, None};
ghost use Rattle.lvm_disk.specs.Device.{Device};
ghost use Rattle.lvm_vol.specs.Order.{Ordered};
ghost use Rattle.lvm_group_lines.specs.Replies.{IsStuck, is_unheard};
ghost use Rattle.lvm_group_lines.specs.Stages.{ComesTo, GivesBack, HaveRooms, IsCarriedOn, IsClosed, SessionIsClosed, IsLeftBy, IsNotOn, IsOn, IsOnIn, history_in, posts_ended, session_in, session_of, shelf_in};

use crate::holder::Holder;
use crate::reply::{Refusal, Reply};
use lvm_disk::Shelf;
use lvm_history::History;
use lvm_num::{BUFFER_BYTES, Memory, Name};
use lvm_quiesce::below::Closed;
use lvm_session::Power;
use lvm_tie_commands::below::driver::{self, Driver};
use lvm_tie_commands::below::{Post, end_posts};
use lvm_transfer::relight;
use std::alloc::Global;

/// What stands between two lines: who holds the shelf and the history, and the writes that were posted.
#[derive(Drop)]
pub struct Stage<S: Shelf> {
    pub holder: Holder<S>,
    /// The posts whose answers aren't taken, in their order. There is room for one for each three entries of the history.
    pub posts: Vec<Post>,
    /// Room for the bytes of a piece of a range.
    pub bytes: Vec<u8>,
}

/// What a line leaves, and what it is answered.
#[derive(Drop)]
pub struct Answered<S: Shelf> {
    pub stage: Stage<S>,
    pub reply: Reply,
}

/// The memory for the posts of a run with so many entries, and for the bytes of a piece. No line takes any for them.
pub fn take_rooms(alloc: Global, entries: u32) -> Result<(Vec<Post>, Vec<u8>), Memory>
    ensures { IfOk result (λ rooms. (rooms.0.items ≡ []) × HaveRooms entries rooms.0 rooms.1) }
{
    let (Ok(posts), Ok(bytes)) = (
        Vec::with_capacity(alloc, entries as usize / 3),
        Vec::with_capacity(alloc, BUFFER_BYTES),
    ) else {
        return Err(Memory);
    };
    Ok((posts, bytes))
}

// The posts of a session that ends.
fn end_session<S: Shelf>(holder: &Holder<S>, posts: &mut [Post])
    ensures { posts.new ≡ posts_ended (session_of holder.now) posts.old }
{
    match holder {
        Holder::Off {
            shelf: _,
            history: _,
        } => {}
        Holder::Empty { driver } => {
            let (have, total) = driver.votes();
            end_posts(posts, have, total);
        }
        Holder::Serving { driver } => {
            let (have, total) = driver.votes();
            end_posts(posts, have, total);
        }
    }
}

// The posts once this session has ended.
fn ended_posts<S: Shelf>(driver: &Driver<S>, posts: Vec<Post>) -> Vec<Post>
    ensures items { result.items ≡ posts_ended (Some driver.now.1) posts.items }
    ensures room { vec_capacity posts ≤ vec_capacity result }
{
    let (have, total) = driver.votes();
    let mut posts = posts;
    end_posts(posts.as_mut_slice(), have, total);
    posts
}

// The shelf of a session that was closed: after a power cut the power is put on again.
fn relit<S: Shelf>(shelf: S, power: Power) -> S
    requires { power ≡ Power.Dark → (S.device shelf).flights ≡ [] }
    ensures { (old : Device) → S.device shelf ≡ record old { freed = [] } → IsClosed power old (S.device result) }
{
    match power {
        Power::Dark => {
            let mut shelf = shelf;
            relight(&mut shelf);
            shelf
        }
        Power::On | Power::Off | Power::Stuck => shelf,
    }
}

// The stage of a session that a line has left where it was.
fn serving_left<S: Shelf>(
    driver: Driver<S>,
    posts: Vec<Post>,
    bytes: Vec<u8>,
    unheard: bool,
) -> Stage<S>
    ensures comes { ComesTo S.device unheard (Holder.Serving driver) posts bytes result }
    ensures rooms { (entries : ℕ) → HaveRooms entries posts bytes → HaveRooms entries result.posts result.bytes }
{
    if unheard {
        Stage::ended(driver, posts, bytes)
    } else {
        Stage::carried(driver, posts, bytes)
    }
}

impl<S: Shelf> Stage<S> {
    /// The stage at which no group is on.
    pub fn off(shelf: S, history: History, posts: Vec<Post>, bytes: Vec<u8>) -> Stage<S>
        ensures { result ≡ record { holder = Holder.Off shelf history; posts = posts; bytes = bytes } }
    {
        Stage {
            holder: Holder::Off { shelf, history },
            posts,
            bytes,
        }
    }

    /// The shelf and the history beside the posts and the room for bytes, while no group is on; else the stage as it was.
    pub fn into_off(self) -> Result<(Closed<S>, Vec<Post>, Vec<u8>), Stage<S>>
        ensures off { IfOk result (λ parts. self ≡ record { holder = Holder.Off parts.0.shelf parts.0.history; posts = parts.1; bytes = parts.2 }) }
        ensures ordered { IfOk result (λ parts. Ordered parts.0.history.run [] parts.0.history.facts) }
        ensures kept { IfErr result (λ stage. stage ≡ self) }
        ensures on { IfErr result (λ _. IsSome (session_in self)) }
    {
        let Stage {
            holder,
            posts,
            bytes,
        } = self;
        match holder {
            Holder::Off { shelf, history } => {
                let _ = history.run();
                Ok((Closed { shelf, history }, posts, bytes))
            }
            holder => Err(Stage {
                holder,
                posts,
                bytes,
            }),
        }
    }

    /// Leaves it so, with this answer.
    pub fn answered(self, reply: Reply) -> Answered<S>
        ensures stage { result.stage ≡ self }
        ensures reply { result.reply ≡ reply }
    {
        Answered { stage: self, reply }
    }

    /// Leaves it so, and refuses the line.
    pub fn refused(self, why: Refusal) -> Answered<S>
        ensures stage { result.stage ≡ self }
        ensures reply { result.reply ≡ Reply.Refused why }
    {
        self.answered(Reply::Refused(why))
    }

    /// How many disks its shelf has.
    pub fn disks(&self) -> u16
        ensures { result ≡ length (S.device (shelf_in self.now)).sizes }
    {
        self.holder.disks()
    }

    /// Whether no group is on.
    pub fn is_off(&self) -> bool
        ensures { IsTrue result ↔ (session_in self.now ≡ None) }
    {
        match &self.holder {
            Holder::Off {
                shelf: _,
                history: _,
            } => true,
            Holder::Empty { driver: _ } | Holder::Serving { driver: _ } => false,
        }
    }

    /// Whether the group of the name is on.
    pub fn is_on(&self, name: Name) -> bool
        ensures on { IsTrue result → IfSome (session_in self.now) (IsOn name) }
        ensures some { IsTrue result → IsSome (session_in self.now) }
        ensures off { IsFalse result → IsNotOn name (session_in self.now) }
    {
        match &self.holder {
            Holder::Off {
                shelf: _,
                history: _,
            } => false,
            Holder::Empty { driver } => driver.descriptor().name == name,
            Holder::Serving { driver } => driver.descriptor().name == name,
        }
    }

    /// The stage once its session is over, or nothing was heard of it: the session is closed, its posts have ended with
    /// its votes, and after a power cut the power is on again. Transfers that are out stay with the shelf.
    pub fn ended(driver: Driver<S>, posts: Vec<Post>, bytes: Vec<u8>) -> Stage<S>
        ensures ended { SessionIsClosed S.device driver posts.items result }
        ensures rooms { (entries : ℕ) → HaveRooms entries posts bytes → HaveRooms entries result.posts result.bytes }
    {
        let power = driver.power();
        let posts = ended_posts(&driver, posts);
        let driver::Closed { shelf, history } = driver.close();
        Stage::off(relit(shelf, power), history, posts, bytes)
    }

    /// The stage after turns or calls of its session: one that is over has ended.
    pub fn carried(driver: Driver<S>, posts: Vec<Post>, bytes: Vec<u8>) -> Stage<S>
        ensures carried { IsCarriedOn S.device driver posts bytes driver.1.power result }
        ensures rooms { (entries : ℕ) → HaveRooms entries posts bytes → HaveRooms entries result.posts result.bytes }
    {
        match driver.power() {
            Power::On => Stage {
                holder: Holder::Serving { driver },
                posts,
                bytes,
            },
            Power::Off | Power::Dark | Power::Stuck => Stage::ended(driver, posts, bytes),
        }
    }

    /// What a line leaves that was answered so and has left its session where it was: one that is over has ended, and so
    /// has one of which nothing was heard.
    pub fn left(self, reply: Reply) -> Answered<S>
        ensures left { IsLeftBy S.device self reply result.stage }
        ensures reply { result.reply ≡ reply }
    {
        let unheard = reply.is_unheard();
        let Stage {
            holder,
            posts,
            bytes,
        } = self;
        match holder {
            Holder::Off { shelf, history } => Stage {
                holder: Holder::Off { shelf, history },
                posts,
                bytes,
            },
            Holder::Empty { driver } => Stage {
                holder: Holder::Empty { driver },
                posts,
                bytes,
            },
            Holder::Serving { driver } => serving_left(driver, posts, bytes, unheard),
        }
        .answered(reply)
    }

    /// Whether it goes on as it is behind a line that was answered so: something was heard, and its session isn't over.
    pub fn goes_on(&self, reply: &Reply) -> bool
        ensures left { IsTrue result → IsLeftBy S.device self.now reply.now self.now }
        ensures heard { IsTrue result → IsStuck reply.now → ⊥ }
        ensures ends { IsFalse result → IsTrue (is_unheard reply.now) ⊎ (IsOnIn self.now.holder → ⊥) }
    {
        if reply.is_unheard() {
            false
        } else {
            self.holder.goes_on()
        }
    }

    /// Ends the session that is on without a write, and gives back the shelf and the history beside the posts, which
    /// have ended with its votes, and the room for bytes.
    pub fn close(self) -> (Closed<S>, Vec<Post>, Vec<u8>)
        ensures shelf { GivesBack (S.device (shelf_in self)) (S.device result.0.shelf) }
        ensures off { session_in self ≡ None → S.device result.0.shelf ≡ S.device (shelf_in self) }
        ensures history { result.0.history ≡ history_in self }
        ensures posts { result.1.items ≡ posts_ended (session_in self) self.posts.items }
        ensures rooms { (entries : ℕ) → HaveRooms entries self.posts self.bytes → HaveRooms entries result.1 result.2 }
    {
        let Stage {
            holder,
            mut posts,
            bytes,
        } = self;
        end_session(&holder, posts.as_mut_slice());
        (holder.close(), posts, bytes)
    }
}
