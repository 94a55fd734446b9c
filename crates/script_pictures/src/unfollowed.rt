//! The lines that ranks couldn't follow.

use line_diagnostics::LineFault;
use play_waits::Page;
use std::alloc::{AllocError, Global};

/// A line of a script that a rank couldn't follow when it came to it.
#[derive(Drop)]
pub struct Unfollowed {
    /// Its number.
    pub line: usize,
    /// Why it couldn't.
    pub fault: LineFault,
}

/// Why a line couldn't be followed, in words.
pub(crate) fn reason_of(alloc: Global, fault: &LineFault) -> Result<Vec<u8>, AllocError> {
    let mut page = Page::new(alloc);
    match fault {
        LineFault::Unset(name) => {
            page.add("the name ")?;
            page.add_bytes(name.as_bytes())?;
            page.add(" isn't set")?;
        }
        LineFault::Lent(name) => {
            page.add("the buffer ")?;
            page.add_bytes(name.as_bytes())?;
            page.add(" is lent to a receive")?;
        }
        _ => page.add("the line can't be followed")?,
    }
    Ok(page.into_text())
}
