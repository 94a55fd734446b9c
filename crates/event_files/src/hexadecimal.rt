//! Bytes in hexadecimal digits.

ghost use Rattle.std.specs.Prelude.{◌≡◌, ◌<◌, IfSome, IfOk};
ghost use Rattle.tokens.specs.Results.{Gives};
ghost use Rattle.event_files.specs.LineWords.{digit_of, bytes_of};

use datagram::Bytes;
use std::alloc::Global;
use tokens::{LineError, require};

/// The value of a lower-case hexadecimal digit.
#[tactic(auto, unfolding(crate::specs::LineWords::digit_of))]
fn digit_of(byte: u8) -> Option<u8>
    ensures value { result ≡ digit_of byte }
    ensures within { IfSome result (λ value. value < 16) }
{
    if byte >= b'0' && byte <= b'9' {
        Some(byte - b'0')
    } else if byte >= b'a' && byte <= b'f' {
        Some(byte - 87)
    } else {
        None
    }
}

/// The bytes that an even number of lower-case hexadecimal digits spell, the higher digit of each first.
pub(crate) fn bytes_of(alloc: Global, word: &[u8]) -> Result<Bytes, LineError>
    ensures { Gives (λ x. x) result (bytes_of word.now) }
{
    if word.len() % 2 != 0 {
        return Err(LineError::Faulty);
    }
    let mut bytes = Vec::new(alloc);
    for place in 0..word.len() / 2 {
        let high = required_digit(word[2 * place])?;
        let low = required_digit(word[2 * place + 1])?;
        bytes.push(16 * high + low)?;
    }
    Ok(Bytes::from_vec(bytes)?)
}

fn required_digit(byte: u8) -> Result<u8, LineError>
    ensures value { Gives (λ x. x) result (digit_of byte) }
    ensures within { IfOk result (λ value. value < 16) }
{
    require(digit_of(byte))
}
