//! Which kind of file a faulty first line is of: a script that was taken for a file of events is told as one.
#![tactic(auto)]

use line_diagnostics::{LineFault, event_fault, line_at, script_fault};
use std::alloc::Global;

/// Whether a line with words stands in front of the line of this number.
fn has_begun(text: &[u8], number: usize) -> bool {
    let mut place = 1;
    for line in text.split(|byte| *byte == b'\n') {
        if place >= number {
            return false;
        }
        if !line.is_empty() && !line.starts_with(b"#") {
            return true;
        }
        place = place.saturating_add(1);
    }
    false
}

/// Whether the first line with words has this number, and is a script's statement and none of a file of events. Where
/// memory is wanting to look, it answers no.
pub fn is_script(alloc: Global, text: &[u8], number: usize) -> bool {
    let line = match line_at(alloc, text, number) {
        Ok(Some(line)) => line,
        Ok(None) | Err(_) => return false,
    };
    let is_of_events = !matches!(event_fault(alloc, line), Ok(LineFault::NoStatement));
    let is_of_script = matches!(
        script_fault(alloc, line),
        Ok(LineFault::UnfitWords | LineFault::OutsideType)
    );
    !has_begun(text, number) && is_of_script && !is_of_events
}
