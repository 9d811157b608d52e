//! The lines of turns that were made, and of copies that were brought up or moved.
ghost use Rattle.std.specs.Prelude.{◌≡◌, IfOk};
ghost use Rattle.lvm_show.specs.Texts.{migrated_text, stepped_text, synced_text};

use lvm_num::{Memory, Text};
use std::alloc::Global;

/// `stepped`, and how many turns did something.
pub fn show_stepped(alloc: Global, turns: u32) -> Result<Text, Memory>
    ensures { IfOk result (λ text. text ≡ stepped_text turns) }
{
    let text = format!(in alloc; "stepped {turns}\n")?;
    Ok(Text::new(text))
}

/// `synced`, and how many copies were made fresh.
pub fn show_synced(alloc: Global, made: u32) -> Result<Text, Memory>
    ensures { IfOk result (λ text. text ≡ synced_text made) }
{
    let text = format!(in alloc; "synced {made}\n")?;
    Ok(Text::new(text))
}

/// `migrated`, and how many copies have moved.
pub fn show_migrated(alloc: Global, moved: u32) -> Result<Text, Memory>
    ensures { IfOk result (λ text. text ≡ migrated_text moved) }
{
    let text = format!(in alloc; "migrated {moved}\n")?;
    Ok(Text::new(text))
}
