//! The lines that a script prints of what is told of an answer.

ghost use Rattle.std.specs.Prelude.{◌≡◌, IfOk};
ghost use Rattle.printed_lines.specs.Lines.{error_line};
ghost use Rattle.script_runner.specs.AnswerLines.{errors_lines, line_of};

use datagram::Bytes;
use interpreter::{ErrorNumbers, Told};
use printed_lines::{
    comparison_line, error_line, error_lines, members_line, none_line, pending_line, position_line,
};
use script_calls::as_text;
use std::alloc::{AllocError, Global};

/// `error N` for each, a line each.
fn errors_lines(alloc: Global, errors: &ErrorNumbers) -> Result<Bytes, AllocError>
    ensures { IfOk result (λ lines. lines ≡ errors_lines errors.now) }
{
    match errors.as_slice() {
        [] => Bytes::from_slice(alloc, b""),
        [first, rest @ ..] => error_lines(alloc, *first, rest),
    }
}

/// The line, or the lines, of what is told.
pub(crate) fn line_of(alloc: Global, told: Told) -> Result<Bytes, AllocError>
    ensures { IfOk result (λ line. line ≡ line_of told) }
{
    match told {
        Told::Error(number) => error_line(alloc, number),
        Told::Errors(errors) => errors_lines(alloc, &errors),
        Told::Pending => pending_line(alloc),
        Told::NoMessage => none_line(alloc),
        Told::Position(rank, size) => position_line(alloc, rank, size),
        Told::Members(ranks) => members_line(alloc, &ranks),
        Told::Comparison(comparison) => comparison_line(alloc, as_text(comparison)),
    }
}
