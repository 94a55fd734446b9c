//! A play of a script as a picture: the script's own statements with what they answered and printed, an arrow for each
//! message, and where each rank ended, failed or waits for ever.
#![tactic(auto)]

mod answers;
mod carried;
mod errors;
mod happenings;
mod rank_lines;
mod standing;
mod unfollowed;
mod waits;
mod watcher;

use crate::watcher::{Watcher, watched};
use run_drawings::Picture;
use schedule_search::round;
use script_files::parse;
use script_plays::Move;
use std::alloc::Global;
use stepped_plays::PlayError;
pub use unfollowed::Unfollowed;

/// What is drawn of the datagrams of a play.
#[derive(Clone, Copy, Debug, PartialEq, Eq)]
pub enum Shown {
    /// An arrow for each datagram but acknowledgements; words say what it carries.
    Messages,
    /// An arrow for each datagram, with its number, its kind and its sequence.
    Datagrams,
}

/// A play of a script as a picture.
#[derive(Drop)]
pub struct ScriptPicture {
    /// The picture.
    pub picture: Picture,
    /// Where a rank came to a line that it couldn't follow, and ended: that of the lowest such rank.
    pub unfollowed: Option<Unfollowed>,
}

/// The picture of the play by this schedule of the script of this text, at so many ranks.
pub fn picture_of(
    alloc: Global,
    text: &[u8],
    size: u16,
    schedule: &[Move],
    shown: Shown,
) -> Result<ScriptPicture, PlayError> {
    let script = parse(alloc, text)?;
    let watcher = Watcher::new(alloc, text, &script, size, shown)?;
    watched(watcher, schedule)
}

/// The picture of one play of the script of this text at so many ranks, to where none of them can go on and nothing is
/// on its way: as long as a rank can go on it does so, the lowest first, each datagram comes once, and the clocks stand.
pub fn round_picture_of(
    alloc: Global,
    text: &[u8],
    size: u16,
    shown: Shown,
) -> Result<ScriptPicture, PlayError> {
    let schedule = round(alloc, text, size)?;
    picture_of(alloc, text, size, schedule.as_slice(), shown)
}
