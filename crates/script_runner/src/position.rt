//! The line of a script at which a rank stands.

ghost use Rattle.std.specs.Prelude.{◌≡◌, drop};
ghost use Rattle.script_runner.specs.Positions.{numbered, taken_last};

use script_files::{RankLine, RankLines};

/// Takes so many lines, and drops them.
fn pass(lines: &mut RankLines, count: usize)
    ensures { lines.new ≡ drop count lines.old }
{
    for place in 0..count {
        drop(lines.next());
    }
}

/// The line that is taken last where so many are left behind it; none where as many are left as there are. The runner
/// of these lines stands at it.
pub fn line_taken_last(lines: RankLines, left: usize) -> Option<RankLine>
    ensures { result ≡ taken_last left lines }
{
    let mut lines = lines;
    if lines.len() <= left {
        return None;
    }
    let before = lines.len() - left - 1;
    pass(&mut lines, before);
    lines.next()
}

/// The first line of this number.
#[tactic(auto, using(crate::proofs::RunLaws::numbered_first, crate::proofs::RunLaws::numbered_none))]
pub fn line_of_number(lines: RankLines, number: usize) -> Option<RankLine>
    ensures { result ≡ numbered number lines }
{
    let mut lines = lines;
    while let Some(line) = lines.next() {
        if line.number == number {
            return Some(line);
        }
        drop(line);
    }
    None
}
