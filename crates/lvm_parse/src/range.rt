//! The blocks that a line names.
ghost use Rattle.std.specs.Prelude.{◌≡◌};
ghost use Rattle.lvm_parse.specs.Reading.{blocks, last_blocks};
ghost use Rattle.lvm_parse.specs.Rests.{left, ReadsAlike};

use crate::operands::{count, ends, number};
use crate::rest::{Misfit, Rest};

/// A range of blocks: the first, and how many.
#[derive(Clone, Copy)]
pub struct BlockRange {
    pub at: u64,
    pub count: u32,
}

/// BLOCK COUNT: a range of blocks.
#[tactic(auto, unfolding(crate::specs::Reading::blocks))]
pub fn blocks(rest: Rest<'_>) -> Result<(BlockRange, Rest<'_>), Misfit>
    ensures { ReadsAlike (blocks (left rest.entry)) result }
{
    let (at, rest) = number(rest)?;
    let (count, rest) = count(rest)?;
    Ok((BlockRange { at, count }, rest))
}

/// BLOCK COUNT, and the line ends.
pub fn last_blocks(rest: Rest<'_>) -> Result<BlockRange, Misfit>
    ensures { result ≡ last_blocks (left rest.entry) }
{
    let (blocks, rest) = blocks(rest)?;
    ends(rest, blocks)
}
