//! What the reads of a range got.
ghost use Rattle.std.specs.Prelude.{◌≡◌, ◌<◌, ◌^◌, [], length, IfOk};
ghost use Rattle.lvm_vol.specs.Log.{blocks_begun};
ghost use Rattle.lvm_vol.specs.Order.{Ordered};
ghost use Rattle.lvm_ranges.specs.Reading.{AreGot, HasEndedWell, IsRead};

use lvm_history::History;
use lvm_num::{Memory, Rows};
use lvm_posts::Asked;
use std::alloc::Global;

// All that a history tells is in order, and its places are numbers of eight bytes.
fn is_ordered(history: &History)
    ensures ordered { Ordered history.now.run [] history.now.facts }
    ensures few { blocks_begun history.now.facts < 2 ^ 64 }
{
    let _ = (history.run(), history.block_count());
}

/// The blocks of a range that was read, in their order: those with which its pieces have landed as Got.
pub fn read_blocks(
    alloc: Global,
    history: &History,
    asked: &Asked,
    count: u32,
) -> Result<Rows<[u8; 512]>, Memory>
    requires read { IsRead history.now.facts asked.now count }
    requires well { HasEndedWell history.now.facts asked.now }
    ensures got { IfOk result (λ blocks. AreGot history.now.facts asked.now.first asked.now.pieces blocks) }
    ensures long { IfOk result (λ blocks. length blocks ≡ count) }
{
    is_ordered(history);
    let mut blocks = Vec::with_capacity(alloc, count as usize)?;
    for k in 0..count {
        blocks.push(*history.block(asked.place + u64::from(k)))?;
    }
    Ok(Rows::new(blocks))
}
