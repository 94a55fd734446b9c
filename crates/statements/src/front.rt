//! The words in front of a line.

ghost use Rattle.statements.specs.LineWords.{one_alone, first_two, two_alone, first_four, four_alone};
ghost use Rattle.tokens.specs.Results.{Gives};

use tokens::{LineError, Token, end_of_line, first};

/// One word, and nothing behind it.
pub(crate) fn one_alone(words: &[Token]) -> Result<&[u8], LineError>
    ensures { Gives (λ x. x.now) result (one_alone words.now) }
{
    let (one, rest) = first(words)?;
    end_of_line(rest)?;
    Ok(one)
}

/// The first two words, and the words behind them.
pub(crate) fn first_two(words: &[Token]) -> Result<(&[u8], &[u8], &[Token]), LineError>
    ensures { Gives (λ x. (x.0.now, x.1.now, x.2.now)) result (first_two words.now) }
{
    let (one, rest) = first(words)?;
    let (two, rest) = first(rest)?;
    Ok((one, two, rest))
}

/// Two words, and nothing behind them.
pub(crate) fn two_alone(words: &[Token]) -> Result<(&[u8], &[u8]), LineError>
    ensures { Gives (λ x. (x.0.now, x.1.now)) result (two_alone words.now) }
{
    let (one, two, rest) = first_two(words)?;
    end_of_line(rest)?;
    Ok((one, two))
}

/// The first four words, and the words behind them.
pub(crate) fn first_four(
    words: &[Token],
) -> Result<(&[u8], &[u8], &[u8], &[u8], &[Token]), LineError>
    ensures { Gives (λ x. (x.0.now, x.1.now, x.2.now, x.3.now, x.4.now)) result (first_four words.now) }
{
    let (one, two, rest) = first_two(words)?;
    let (three, four, rest) = first_two(rest)?;
    Ok((one, two, three, four, rest))
}

/// Four words, and nothing behind them.
pub(crate) fn four_alone(words: &[Token]) -> Result<(&[u8], &[u8], &[u8], &[u8]), LineError>
    ensures { Gives (λ x. (x.0.now, x.1.now, x.2.now, x.3.now)) result (four_alone words.now) }
{
    let (one, two, three, four, rest) = first_four(words)?;
    end_of_line(rest)?;
    Ok((one, two, three, four))
}
