//! The rows: the name of each, how many ranks it has, and what happens in it.

use crate::steps::{Elements, Step};
use engine::Source;

/// A row.
#[derive(Clone, Copy, PartialEq, Eq)]
pub enum Row {
    /// A message is lost, comes again, comes twice, and is received once.
    LostRepeated,
    /// A large message comes before a small one that was sent later.
    LargeBeforeSmall,
    /// Half a large message, whose sender is started anew, reaches no buffer.
    HalfALargeOne,
    /// A message comes before its receiver knows the communicator.
    BeforeItsCommunicator,
    /// A RESET tells that its sender was started anew.
    ResetOfARestart,
    /// 64 frames go out, and the 65th waits.
    Window,
    /// A reduction folds in rank order, whatever comes first.
    FoldedForAll,
    /// A reduction to the last of four ranks goes by member 0.
    FoldedForTheLast,
    /// An acknowledgement tells which frames are held.
    HeldIsTold,
}

/// All rows, in the order in which they run.
pub const ROWS: [Row; 9] = [
    Row::LostRepeated,
    Row::LargeBeforeSmall,
    Row::HalfALargeOne,
    Row::BeforeItsCommunicator,
    Row::ResetOfARestart,
    Row::Window,
    Row::FoldedForAll,
    Row::FoldedForTheLast,
    Row::HeldIsTold,
];

impl Row {
    /// What it shows, in one word.
    pub fn name(self) -> &'static str {
        match self {
            Row::LostRepeated => "lost_repeated_received_once",
            Row::LargeBeforeSmall => "large_message_comes_before_a_later_small_one",
            Row::HalfALargeOne => "half_a_large_message_reaches_no_buffer",
            Row::BeforeItsCommunicator => "message_comes_before_its_communicator",
            Row::ResetOfARestart => "reset_tells_of_a_restart",
            Row::Window => "window_lets_64_frames_out",
            Row::FoldedForAll => "reduction_folds_in_rank_order_whatever_comes_first",
            Row::FoldedForTheLast => "reduction_to_the_last_of_four_goes_by_member_0",
            Row::HeldIsTold => "acknowledgement_tells_what_is_held",
        }
    }

    /// How many ranks there are.
    pub fn size(self) -> u16 {
        match self {
            Row::BeforeItsCommunicator | Row::FoldedForAll => 3,
            Row::FoldedForTheLast => 4,
            _ => 2,
        }
    }

    /// How often its first step happens.
    pub fn times(self) -> usize {
        match self {
            Row::Window => 65,
            Row::HeldIsTold => 3,
            _ => 1,
        }
    }

    /// What happens at this place; none behind its end.
    pub fn step(self, place: usize) -> Option<Step> {
        match self {
            Row::LostRepeated => lost_repeated(place),
            Row::LargeBeforeSmall => large_before_small(place),
            Row::HalfALargeOne => half_a_large_one(place),
            Row::BeforeItsCommunicator => before_its_communicator(place),
            Row::ResetOfARestart => reset_of_a_restart(place),
            Row::Window => window(place),
            Row::FoldedForAll => folded_for_all(place),
            Row::FoldedForTheLast => folded_for_the_last(place),
            Row::HeldIsTold => held_is_told(place),
        }
    }
}

fn lost_repeated(place: usize) -> Option<Step> {
    Some(match place {
        0 => Step::Send(0, 0, 1, 7, Elements::OneTwoThree),
        1 => Step::Tick(0, 20),
        2 => Step::Deliver(1),
        3 => Step::Deliver(1),
        4 => Step::Receive(1, 0, Source::Rank(0), Some(7), Elements::Zeros),
        5 => Step::Wait(1, 0),
        _ => return None,
    })
}

fn large_before_small(place: usize) -> Option<Step> {
    Some(match place {
        0 => Step::Send(0, 0, 1, 1, Elements::Bytes(9, 1_025)),
        1 => Step::Send(0, 0, 1, 2, Elements::Bytes(7, 1)),
        2 => Step::Receive(1, 0, Source::Any, None, Elements::Bytes(0, 1_025)),
        3 => Step::Receive(1, 0, Source::Any, None, Elements::Bytes(0, 1)),
        4 => Step::Deliver(0),
        5 => Step::Deliver(1),
        6 => Step::Test(1, 0),
        7 => Step::Test(1, 1),
        8 => Step::Deliver(3),
        9 => Step::Deliver(6),
        10 => Step::Deliver(7),
        11 => Step::Test(1, 0),
        _ => return None,
    })
}

fn half_a_large_one(place: usize) -> Option<Step> {
    Some(match place {
        0 => Step::Send(0, 0, 1, 1, Elements::Bytes(9, 1_025)),
        1 => Step::Receive(1, 0, Source::Rank(0), Some(1), Elements::Bytes(0, 1_025)),
        2 => Step::Deliver(0),
        3 => Step::Deliver(2),
        4 => Step::Deliver(4),
        5 => Step::Restart(0),
        6 => Step::Send(0, 0, 1, 9, Elements::Bytes(7, 1)),
        7 => Step::Deliver(7),
        8 => Step::Deliver(5),
        9 => Step::Wait(1, 0),
        _ => return None,
    })
}

fn before_its_communicator(place: usize) -> Option<Step> {
    Some(match place {
        0 => Step::Dup(1),
        1 => Step::Dup(2),
        2 => Step::Dup(0),
        3 => Step::Deliver(0),
        4 => Step::Deliver(1),
        5 => Step::Deliver(4),
        6 => Step::Send(1, 2, 2, 6, Elements::One(4)),
        7 => Step::Deliver(7),
        8 => Step::Deliver(5),
        9 => Step::Receive(2, 2, Source::Rank(1), Some(6), Elements::One(0)),
        10 => Step::Wait(2, 0),
        11 => Step::Members(2, 2),
        12 => Step::Compare(2, 2),
        _ => return None,
    })
}

fn reset_of_a_restart(place: usize) -> Option<Step> {
    Some(match place {
        0 => Step::Receive(0, 0, Source::Rank(1), Some(9), Elements::One(0)),
        1 => Step::Send(0, 0, 1, 4, Elements::One(5)),
        2 => Step::Restart(1),
        3 => Step::Deliver(0),
        4 => Step::Deliver(1),
        5 => Step::Wait(0, 0),
        6 => Step::Wait(0, 1),
        7 => Step::Send(0, 0, 1, 4, Elements::One(5)),
        8 => Step::Barrier(0),
        _ => return None,
    })
}

/// What comes before its turn is held. Where memory is wanting as its turn comes, it stays so until it comes again.
fn window(place: usize) -> Option<Step> {
    Some(match place {
        0 => Step::Send(0, 0, 1, 7, Elements::One(1)),
        1 => Step::Deliver(0),
        2 => Step::Deliver(64),
        3 => Step::Deliver(2),
        4 => Step::Deliver(1),
        5 => Step::Deliver(65),
        6 => Step::Settle,
        7 => Step::Receive(1, 0, Source::Any, None, Elements::One(0)),
        8 => Step::Wait(1, 0),
        9 => Step::Receive(1, 0, Source::Any, None, Elements::One(0)),
        10 => Step::Wait(1, 1),
        11 => Step::Receive(1, 0, Source::Any, None, Elements::One(0)),
        12 => Step::Wait(1, 2),
        _ => return None,
    })
}

fn folded_for_all(place: usize) -> Option<Step> {
    Some(match place {
        0 => Step::Allreduce(2, 17_179_869_191),
        1 => Step::Deliver(0),
        2 => Step::Allreduce(0, 8_589_934_593),
        3 => Step::Allreduce(1, 12_884_901_893),
        4 => Step::Deliver(2),
        5 => Step::Deliver(4),
        6 => Step::Deliver(5),
        _ => return None,
    })
}

fn folded_for_the_last(place: usize) -> Option<Step> {
    Some(match place {
        0 => Step::Reduce(3, 21_474_836_482),
        1 => Step::Reduce(2, 17_179_869_191),
        2 => Step::Deliver(0),
        3 => Step::Reduce(1, 12_884_901_893),
        4 => Step::Reduce(0, 8_589_934_593),
        5 => Step::Deliver(2),
        6 => Step::Deliver(3),
        7 => Step::Deliver(6),
        _ => return None,
    })
}

fn held_is_told(place: usize) -> Option<Step> {
    Some(match place {
        0 => Step::Send(0, 0, 1, 7, Elements::One(1)),
        1 => Step::Deliver(2),
        2 => Step::Deliver(3),
        3 => Step::Tick(0, 20),
        4 => Step::Deliver(0),
        5 => Step::Deliver(1),
        6 => Step::Settle,
        7 => Step::Receive(1, 0, Source::Rank(0), Some(7), Elements::One(0)),
        8 => Step::Wait(1, 0),
        9 => Step::Receive(1, 0, Source::Rank(0), Some(7), Elements::One(0)),
        10 => Step::Wait(1, 1),
        11 => Step::Receive(1, 0, Source::Rank(0), Some(7), Elements::One(0)),
        12 => Step::Wait(1, 2),
        _ => return None,
    })
}
