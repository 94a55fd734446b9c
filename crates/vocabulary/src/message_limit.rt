//! How long a message may be, and how much of one goes in a frame.

ghost use Rattle.std.specs.Prelude.{◌≡◌, ◌≤◌, ◌<◌, ◌%◌, ◌⊎◌, IfNone, IfSome};
ghost use Rattle.vocabulary.specs.MessageLimits.{frame_limit_of, greatest, least, limit_of};

/// The least limit, in bytes.
const LEAST: u32 = 1_048_576;

/// The greatest limit, in bytes.
const GREATEST: u32 = 2_147_483_647;

/// By how many bytes the greatest limit is above the least.
const MOST_BEYOND: u32 = 2_146_435_071;

/// The least number of bytes of data that a frame has at most.
const LEAST_FRAME: u32 = 1_024;

/// The greatest such number.
const GREATEST_FRAME: u32 = 61_440;

/// Such numbers are multiples of it: so many bytes the longest element has.
const ELEMENT: u32 = 8;

/// By how many times as many bytes the greatest such number is above the least.
const MOST_OF_FRAME: u16 = 7_552;

/// The most bytes of data that a message of a job may have: from 1,048,576, which scripts may send, to 2,147,483,647
/// (our own); and the most that a frame has: from 1,024, which those of scripts have, to 61,440, and a multiple of 8, so
/// that it holds whole elements. A standard send of no more goes in one frame, and one of more in pieces of as many. All
/// ranks of a job have one limit of either kind.
#[derive(Clone, Copy, Debug, PartialEq, Eq)]
pub struct MessageLimit {
    /// How many bytes it allows beyond the least limit. Those beyond the greatest limit count for nothing, so that each
    /// value is a limit.
    beyond: u32,
    /// How many times 8 bytes a frame has at most beyond the least such number; those beyond the greatest count for
    /// nothing.
    frame: u16,
}

impl MessageLimit {
    /// The least limit, 1,048,576 bytes, with frames of 1,024: that of scripts and of files of events.
    #[tactic(auto, unfolding(crate::specs::MessageLimits::limit_of, crate::specs::MessageLimits::frame_limit_of))]
    pub fn least() -> MessageLimit
        ensures exact { result ≡ least }
        ensures bytes { limit_of result ≡ 1048576 }
        ensures frame { frame_limit_of result ≡ 1024 }
    {
        MessageLimit {
            beyond: 0,
            frame: 0,
        }
    }

    /// The greatest limit, 2,147,483,647 bytes: so many elements of one byte a call of MPI 3.1 can name. Its frames have
    /// 1,024 bytes; `with_frame` gives it longer ones.
    #[tactic(auto, unfolding(crate::specs::MessageLimits::limit_of, crate::specs::MessageLimits::frame_limit_of))]
    pub fn greatest() -> MessageLimit
        ensures exact { result ≡ greatest }
        ensures bytes { limit_of result ≡ 2147483647 }
        ensures frame { frame_limit_of result ≡ 1024 }
    {
        MessageLimit {
            beyond: MOST_BEYOND,
            frame: 0,
        }
    }

    /// The limit of so many bytes, where there is one: from 1,048,576 to 2,147,483,647. Its frames have 1,024 bytes.
    #[tactic(auto, unfolding(crate::specs::MessageLimits::limit_of, crate::specs::MessageLimits::frame_limit_of))]
    pub fn of_bytes(bytes: u32) -> Option<MessageLimit>
        ensures some { IfSome result (λ l. (limit_of l ≡ bytes) × (frame_limit_of l ≡ 1024)) }
        ensures none { IfNone result ((bytes < 1048576) ⊎ (2147483647 < bytes)) }
    {
        if bytes < LEAST || bytes > GREATEST {
            return None;
        }
        Some(MessageLimit {
            beyond: bytes - LEAST,
            frame: 0,
        })
    }

    /// How many bytes a message may have.
    #[tactic(auto, unfolding(crate::specs::MessageLimits::limit_of, crate::specs::MessageLimits::frame_limit_of))]
    pub fn bytes(self) -> u32
        ensures exact { result ≡ limit_of self }
        ensures least { 1048576 ≤ result }
        ensures greatest { result ≤ 2147483647 }
    {
        if self.beyond < MOST_BEYOND {
            LEAST + self.beyond
        } else {
            GREATEST
        }
    }

    /// The same limit with frames of so many bytes of data at most, where there is one: from 1,024 to 61,440, and a
    /// multiple of 8.
    #[tactic(auto, unfolding(crate::specs::MessageLimits::limit_of, crate::specs::MessageLimits::frame_limit_of))]
    pub fn with_frame(self, bytes: u32) -> Option<MessageLimit>
        ensures some { IfSome result (λ l. (frame_limit_of l ≡ bytes) × (limit_of l ≡ limit_of self)) }
        ensures none { IfNone result ((bytes < 1024) ⊎ ((61440 < bytes) ⊎ (0 < bytes % 8))) }
    {
        if bytes < LEAST_FRAME || bytes > GREATEST_FRAME || bytes % ELEMENT != 0 {
            return None;
        }
        Some(MessageLimit {
            beyond: self.beyond,
            frame: ((bytes - LEAST_FRAME) / ELEMENT) as u16,
        })
    }

    /// How many bytes of data a frame has at most, and a message that goes in one.
    #[tactic(auto, unfolding(crate::specs::MessageLimits::frame_limit_of))]
    pub fn frame_bytes(self) -> u32
        ensures exact { result ≡ frame_limit_of self }
        ensures least { 1024 ≤ result }
        ensures greatest { result ≤ 61440 }
        ensures whole { result % 8 ≡ 0 }
    {
        if self.frame < MOST_OF_FRAME {
            LEAST_FRAME + ELEMENT * u32::from(self.frame)
        } else {
            GREATEST_FRAME
        }
    }
}
