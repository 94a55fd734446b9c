//! Texts that are cut at some of their bytes, without taking memory.

ghost use Rattle.std.specs.Prelude.{◌≡◌, ◌<◌, length, IfSome};
ghost use Rattle.std.specs.List.{position_from};
ghost use Rattle.launch_plan.specs.Configuration.{is_line_end, is_blank};
ghost use Rattle.launch_plan.specs.Cuts.{IsCut, IsFirst};

/// The first part of a text that is cut, and what stands behind the first cut.
#[derive(Clone, Copy)]
pub(crate) struct Cut<'a> {
    /// What stands before the first cut: all of the text where there is no cut.
    pub(crate) part: &'a [u8],
    /// What stands behind the first cut, where there is one.
    pub(crate) rest: Option<&'a [u8]>,
}

fn first_line_end(text: &[u8]) -> Option<usize>
    ensures { result ≡ position_from is_line_end 0 text.now }
{
    text.iter().position(|byte| *byte == b'\n')
}

fn first_blank(text: &[u8]) -> Option<usize>
    ensures { result ≡ position_from is_blank 0 text.now }
{
    text.iter().position(|byte| *byte == b' ' || *byte == b'\t')
}

fn cut_at(text: &[u8], place: Option<usize>) -> Cut<'_>
    requires { IfSome place (λ place. place < length text.now) }
    ensures { IsCut place text.now result }
{
    let Some(place) = place else {
        return Cut {
            part: text,
            rest: None,
        };
    };
    let (part, _) = text.split_at(place);
    let (_, rest) = text.split_at(place + 1);
    Cut {
        part,
        rest: Some(rest),
    }
}

/// The first line of the text, and the text of the lines behind it.
pub(crate) fn first_line(text: &[u8]) -> Cut<'_>
    ensures { IsFirst is_line_end text.now result }
{
    cut_at(text, first_line_end(text))
}

/// The first piece of a line that is cut at its blanks, and the rest of the line.
pub(crate) fn first_piece(line: &[u8]) -> Cut<'_>
    ensures { IsFirst is_blank line.now result }
{
    cut_at(line, first_blank(line))
}
