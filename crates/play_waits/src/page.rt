//! Text that is being written.

use std::alloc::{AllocError, Global};

/// Text that is being written.
#[derive(Drop)]
pub struct Page {
    alloc: Global,
    text: Vec<u8>,
}

impl Page {
    /// Nothing. It takes no memory.
    pub fn new(alloc: Global) -> Page {
        Page {
            alloc,
            text: Vec::new(alloc),
        }
    }

    /// Adds text.
    pub fn add(&mut self, text: &str) -> Result<(), AllocError> {
        self.text.extend_from_slice(text.as_bytes())?;
        Ok(())
    }

    /// Adds bytes of ASCII.
    pub fn add_bytes(&mut self, text: &[u8]) -> Result<(), AllocError> {
        self.text.extend_from_slice(text)?;
        Ok(())
    }

    /// Adds a number.
    pub fn add_number(&mut self, number: usize) -> Result<(), AllocError> {
        let text = format!(in self.alloc; "{number}")?;
        self.add(text.as_str())
    }

    /// Adds `rank R`.
    pub fn add_rank(&mut self, rank: u16) -> Result<(), AllocError> {
        let text = format!(in self.alloc; "rank {rank}")?;
        self.add(text.as_str())
    }

    /// Whether it is empty.
    pub fn is_empty(&self) -> bool {
        self.text.is_empty()
    }

    /// The text.
    pub fn as_slice(&self) -> &[u8] {
        self.text.as_slice()
    }

    /// The text.
    pub fn into_text(self) -> Vec<u8> {
        let Page { alloc: _, text } = self;
        text
    }
}
