//! Texts that are cut at a byte, without taking memory.

ghost use Rattle.std.specs.Prelude.{◌≡◌, ◌<◌, length, IfSome, MatchOption};
ghost use Rattle.std.specs.List.{position_from};
ghost use Rattle.launcher_words.specs.Cuts.{IsCut, IsFirst, IsPair, IsUncut, is_byte};

/// The first part of a text that is cut, and what stands behind the first cut.
#[derive(Clone, Copy)]
pub(crate) struct Cut<'a> {
    /// What stands before the first cut: all of the text where there is no cut.
    pub(crate) part: &'a [u8],
    /// What stands behind the first cut, where there is one.
    pub(crate) rest: Option<&'a [u8]>,
}

/// Where a byte stands first.
fn first_place(text: &[u8], end: u8) -> Option<usize>
    ensures { result ≡ position_from (is_byte end) 0 text.now }
{
    text.iter().position(|byte| *byte == end)
}

fn cut_at(text: &[u8], place: Option<usize>) -> Cut<'_>
    requires { IfSome place (λ place. place < length text.now) }
    ensures { IsCut place text.now result }
{
    let Some(place) = place else {
        return Cut {
            part: text,
            rest: None,
        };
    };
    let (part, _) = text.split_at(place);
    let (_, rest) = text.split_at(place + 1);
    Cut {
        part,
        rest: Some(rest),
    }
}

/// What stands in front of the first such byte, and what stands behind it.
pub(crate) fn first_part(text: &[u8], end: u8) -> Cut<'_>
    ensures { IsFirst (is_byte end) text.now result }
{
    cut_at(text, first_place(text, end))
}

/// What stands in front of the first such byte, and what stands behind it; none where there is no such byte.
#[tactic(auto, using(crate::proofs::PairLaws::uncut_by))]
pub(crate) fn around(text: &[u8], end: u8) -> Option<(&[u8], &[u8])>
    ensures { MatchOption result (IsUncut end text.now) (λ parts. IsPair end text.now parts.0.now parts.1.now) }
{
    let cut = first_part(text, end);
    match cut.rest {
        Some(rest) => Some((cut.part, rest)),
        None => None,
    }
}
