//! What a launcher orders of the keeper on a host, each of one rank there.

ghost use Rattle.std.specs.Prelude.{◌≡◌, ◌<◌, ◌++◌, ◌^◌, MatchOption, OnOk, length};
ghost use Rattle.host_keepers.specs.Frames.{HasNoFrame};
ghost use Rattle.host_keepers.specs.Orders.{IsFirstOrder, kind_code, kind_of_code, order_text};

use crate::frame::{next_frame, push_frame};
use std::alloc::AllocError;

/// What is ordered.
#[derive(Clone, Copy, Debug, PartialEq, Eq)]
pub enum OrderKind {
    /// To start the rank's program, by these words; its standard input is empty.
    Start,
    /// The same, where its standard input is what the launcher hands over.
    StartWithInput,
    /// These bytes are the next of the rank's standard input.
    Input,
    /// The rank's standard input has ended.
    InputEnd,
    /// To ask all programs to end.
    Ask,
    /// To kill all programs.
    Kill,
}

impl OrderKind {
    /// The byte that stands for the kind.
    fn code(self) -> u8
        ensures { result ≡ kind_code self }
    {
        match self {
            OrderKind::Start => b'p',
            OrderKind::StartWithInput => b'i',
            OrderKind::Input => b'd',
            OrderKind::InputEnd => b'c',
            OrderKind::Ask => b'a',
            OrderKind::Kill => b'x',
        }
    }

    /// The kind that a byte stands for, if it does.
    fn of_code(code: u8) -> Option<OrderKind>
        ensures { result ≡ kind_of_code code }
    {
        match code {
            b'p' => Some(OrderKind::Start),
            b'i' => Some(OrderKind::StartWithInput),
            b'd' => Some(OrderKind::Input),
            b'c' => Some(OrderKind::InputEnd),
            b'a' => Some(OrderKind::Ask),
            b'x' => Some(OrderKind::Kill),
            _ => None,
        }
    }
}

/// An order: of what, of which rank, and its bytes.
#[derive(Clone, Copy, Debug)]
pub struct Order<'a> {
    /// What is ordered; none where it is no order of a launcher.
    pub kind: Option<OrderKind>,
    /// The rank that it is of.
    pub rank: u16,
    /// Its bytes.
    pub bytes: &'a [u8],
}

/// Adds an order to a text: the byte of its kind, its rank as two bytes and how many bytes it has as four, the highest
/// first, and these. Only want of memory is an error.
pub fn push_order(
    text: &mut Vec<u8>,
    kind: OrderKind,
    rank: u16,
    bytes: &[u8],
) -> Result<(), AllocError>
    requires { length bytes.now < 2 ^ 32 }
    ensures { OnOk result (text.new.items ≡ text.old.items ++ order_text kind rank bytes.now) }
{
    push_frame(text, kind.code(), rank, bytes)
}

/// The order that stands whole at the front of a text, and what stands behind it; none where it isn't whole yet.
pub fn next_order(text: &[u8]) -> Option<(Order<'_>, &[u8])>
    ensures { MatchOption result (HasNoFrame text.now)
        (λ found. IsFirstOrder text.now found.0.kind found.0.rank found.0.bytes.now found.1.now) }
{
    let (frame, rest) = next_frame(text)?;
    let kind = OrderKind::of_code(frame.code);
    let order = Order {
        kind,
        rank: frame.rank,
        bytes: frame.bytes,
    };
    Some((order, rest))
}
