//! What ranks printed.

use play_waits::Page;
use script_plays::Played;
use std::alloc::AllocError;

/// Adds the lines that a rank printed, each with its rank in front.
pub(crate) fn add_printed(page: &mut Page, rank: u16, player: &Played) -> Result<(), AllocError> {
    for text in player.lines() {
        for line in text.as_slice().split(|byte| *byte == b'\n') {
            page.add("[")?;
            page.add_number(rank as usize)?;
            page.add("] ")?;
            page.add_bytes(line)?;
            page.add("\n")?;
        }
    }
    Ok(())
}
