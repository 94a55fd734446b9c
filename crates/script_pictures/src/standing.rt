//! How a rank stands in a play.

use crate::rank_lines::Manner;
use script_plays::{Played, RunnerState};
use stepped_plays::SteppedPlay;

/// How a rank stands between two moves.
#[derive(Clone, Copy)]
pub(crate) struct Standing {
    /// How many lines are left to it.
    pub left: usize,
    /// How many lines it has printed.
    pub printed: usize,
    /// How many of its calls were refused.
    pub refused: usize,
    /// How much has happened in the world.
    pub history: usize,
    /// Whether it may go on.
    pub is_ready: bool,
}

/// How a rank stands now.
pub(crate) fn standing_of(play: &SteppedPlay, rank: u16) -> Standing {
    let history = play.world().history().len();
    match play.player(rank) {
        Some(player) => Standing {
            left: player.runner().lines_left(),
            printed: player.lines().len(),
            refused: player.refused().len(),
            history,
            is_ready: matches!(player.state(), RunnerState::Ready(_)),
        },
        None => Standing {
            left: 0,
            printed: 0,
            refused: 0,
            history,
            is_ready: false,
        },
    }
}

/// The status with which a rank has ended, if it has.
pub(crate) fn status_of(player: &Played) -> Option<u8> {
    match player.state() {
        RunnerState::Over(status, _) => Some(*status),
        _ => None,
    }
}

/// What is known of a rank's last statement.
#[derive(Clone, Copy)]
pub(crate) struct LastStatement {
    /// Where it stands among what happened; none while there is none that is drawn.
    pub place: Option<usize>,
    /// How it is drawn.
    pub manner: Manner,
    /// Whether a datagram came to the rank since.
    pub is_heard: bool,
    /// Whether it was told that it ended with an error, which the rank is yet to print.
    pub has_failed: bool,
}

impl LastStatement {
    /// No statement.
    pub(crate) fn none() -> LastStatement {
        LastStatement {
            place: None,
            manner: Manner::Silent,
            is_heard: false,
            has_failed: false,
        }
    }
}
