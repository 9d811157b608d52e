//! Ranges of volumes whose session is gone.
ghost use Rattle.std.specs.Prelude.{◌≡◌, true};
ghost use Rattle.lvm_vol.specs.Log.{is_answered};
ghost use Rattle.lvm_posts.specs.Pieces.{IsLaidOut};
ghost use Rattle.lvm_posts.specs.Posts.{AreAnswered};

use crate::tests::fixtures::check;
use lvm_history::History;
use lvm_posts::{Asked, Post, RangeFault, end_posts, fill_bytes, take_closed};
use lvm_vol::{Outcome, Vol};
use std::process::Abort;

// The range of one block whose request has this number.
fn range(id: u64) -> Asked
    ensures one { result.pieces ≡ 1 }
    ensures laid { IsLaidOut result }
{
    Asked {
        first: id,
        pieces: 1,
        at: 5,
        mib: 1,
        place: 0,
    }
}

// Enters a write of a block that has landed so.
fn land(rt: &(impl Abort + AllocGlobal), history: &mut History, how: Outcome) -> u64 {
    assert!(rt; history.spare_entries() >= 3);
    assert!(rt; history.spare_bytes() >= 512);
    let mut bytes = Vec::with_capacity(rt.alloc(), 131_072).expect(rt, "memory");
    fill_bytes(&mut bytes, 7, 0, 1);
    let id = history.begin(1, Vol::Lv(1), 5, 1, Some(bytes.as_slice()));
    history.land(id, how, true);
    id
}

// Ends the test where the answer of this request isn't to be taken.
fn is_there(rt: &impl Abort, history: &History, id: u64)
    ensures { is_answered history.now.facts 1 id ≡ true }
{
    assert!(rt; history.is_answered(1, id));
}

// Ends the test where that of this range of one piece isn't.
fn is_to_be_taken(rt: &impl Abort, history: &History, asked: &Asked)
    requires { asked.now.pieces ≡ 1 }
    ensures { AreAnswered history.now.facts asked.now }
{
    is_there(rt, history, asked.first);
}

// The answer of the range of a request, where one of three votes was there as its session ended.
fn take(rt: &impl Abort, history: &mut History, id: u64) -> Result<(), RangeFault> {
    let asked = range(id);
    is_to_be_taken(rt, history, &asked);
    take_closed(history, &asked, 1, 3)
}

#[test]
fn the_history_answers_for_a_session_that_is_gone(rt: HostRuntime) {
    let mut history = History::new(rt.alloc(), 50, 100, 100_000).expect(&rt, "memory");
    let done = land(&rt, &mut history, Outcome::Done);
    let off = land(&rt, &mut history, Outcome::Off);
    let went_off = RangeFault::WentOff { have: 1, total: 3 };
    check(&rt, take(&rt, &mut history, off) == Err(went_off), "off");
    check(&rt, take(&rt, &mut history, done) == Ok(()), "done");
    check(&rt, !history.is_answered(1, done), "it is taken");
}

#[test]
fn a_post_keeps_the_votes_of_its_own_session(rt: HostRuntime) {
    let asked = range(1);
    let mut posts = [
        Post { asked, ended: None },
        Post {
            asked,
            ended: Some((2, 4)),
        },
    ];
    end_posts(&mut posts, 1, 3);
    check(&rt, posts[0].ended == Some((1, 3)), "now");
    check(&rt, posts[1].ended == Some((2, 4)), "before");
}
