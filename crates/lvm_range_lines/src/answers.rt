//! The lines that answer posts.
ghost use Rattle.std.specs.Prelude.{◌≡◌, ◌+◌, ◌-◌, ◌++◌, ◌∷◌, ◌<◌, ◌^◌, [], List, OnOk};
ghost use Rattle.std.specs.String.{string_bytes};
ghost use Rattle.lvm_range_lines.specs.Answers.{Gathers, IsOf, Tells};
ghost use Rattle.lvm_range_lines.specs.Refusals.{Ending, answer_text, refusal_in, refusals_in};

use crate::refusal::range_refusal;
use lvm_group_lines::{Refusal, Reply, push_refusal_line};
use lvm_num::Text;
use lvm_posts::RangeFault;
use std::alloc::{AllocError, Global};

/// The lines of the posts that were answered so far, while memory was found for them, and how many of them are refusals.
#[derive(Drop)]
pub struct Answers {
    text: Option<String>,
    refused: u32,
}

// Adds the line of a post.
fn push_answer(text: &mut String, answer: Result<(), RangeFault>) -> Result<(), AllocError>
    ensures { OnOk result (string_bytes text.new ≡ string_bytes text.old ++ answer_text answer) }
{
    match answer {
        Ok(()) => text.push_str("ok\n"),
        Err(why) => push_refusal_line(text, &range_refusal(why)),
    }
}

// One more, where it is a refusal.
fn count(refused: u32, answer: Result<(), RangeFault>) -> u32
    requires { refused < 2 ^ 32 - 1 }
    ensures { result ≡ refused + refusal_in answer }
{
    match answer {
        Ok(()) => refused,
        Err(_) => refused + 1,
    }
}

// The text with the line of a post, while memory is found.
fn with_line(text: Option<String>, answer: Result<(), RangeFault>) -> Option<String>
    ensures { (endings : List Ending) → IsOf endings text → IsOf (endings ++ answer ∷ []) result }
{
    match text {
        None => None,
        Some(mut text) => match push_answer(&mut text, answer) {
            Ok(()) => Some(text),
            Err(_) => None,
        },
    }
}

// The lines and `ok`, if there is memory for them.
fn finish(text: Option<String>, refused: u32) -> Reply
    ensures { (endings : List Ending) → IsOf endings text → refused ≡ refusals_in endings → Tells endings result }
{
    match text {
        None => Reply::Refused(Refusal::Memory),
        Some(mut text) => match push_answer(&mut text, Ok(())) {
            Ok(()) => Reply::Answers {
                text: Text::new(text),
                refused,
            },
            Err(_) => Reply::Refused(Refusal::Memory),
        },
    }
}

impl Answers {
    /// No line yet.
    pub fn new(alloc: Global) -> Answers
        ensures { Gathers [] result }
    {
        Answers {
            text: Some(String::new(alloc)),
            refused: 0,
        }
    }

    /// With the line of a post.
    pub fn with(self, answer: Result<(), RangeFault>) -> Answers
        requires { self.refused < 2 ^ 32 - 1 }
        ensures { (endings : List Ending) → Gathers endings self → Gathers (endings ++ answer ∷ []) result }
    {
        Answers {
            text: with_line(self.text, answer),
            refused: count(self.refused, answer),
        }
    }

    /// The reply: these, and `ok`.
    pub fn reply(self) -> Reply
        ensures { (endings : List Ending) → Gathers endings self → Tells endings result }
    {
        finish(self.text, self.refused)
    }
}
