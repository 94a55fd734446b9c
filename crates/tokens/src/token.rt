//! Words of a line.

ghost use Rattle.std.specs.Prelude.{◌≡◌, ◌↔◌, ◌++◌, [], ◌∷◌, length, IsTrue, IfOk, OnOk, OnErr};
ghost use Rattle.std.specs.Str.{bytes_eq};

use std::alloc::{AllocError, AllocFailed, Global};
use std::marker::Model;

/// Whether the word has these bytes.
pub fn is(word: &[u8], name: &[u8]) -> bool
    ensures { result ≡ bytes_eq word.now name.now }
{
    word == name
}

/// A word: bytes without a space among them. Contracts see it as the list of its bytes.
#[derive(Drop)]
pub struct Token {
    bytes: Vec<u8>,
}

impl Model for Token {
    ghost use Rattle.std.specs.Prelude.{List, ℕ};

    ghost Value = { List ℕ };

    ghost view = { λ w. w.bytes.items };
}

impl Token {
    /// A copy of these bytes as a word.
    pub fn from_slice(alloc: Global, bytes: &[u8]) -> Result<Token, AllocError>
        ensures { IfOk result (λ word. word ≡ bytes.now) }
    {
        Ok(Token {
            bytes: Vec::from_slice(alloc, bytes)?,
        })
    }

    /// The bytes of the word.
    pub fn as_bytes(&self) -> &[u8]
        ensures { result.now ≡ self.now }
    {
        &self.bytes
    }
}

/// A list of words, in order.
pub struct Tokens {
    items: Vec<Token>,
}

/// A drop of its own is proved here alone, and not in each crate above.
impl Drop for Tokens {
    fn drop(self) {
        let Tokens { items } = self;
        drop(items);
    }
}

impl Model for Tokens {
    ghost use Rattle.std.specs.Prelude.{List, ℕ};

    ghost Value = { List (List ℕ) };

    ghost view = { λ w. w.items.items };
}

impl Tokens {
    /// No words. It takes no memory.
    pub fn new(alloc: Global) -> Tokens
        ensures { result ≡ [] }
    {
        Tokens {
            items: Vec::new(alloc),
        }
    }

    /// Adds a word at the end. An error leaves the words as they were, and hands the word back.
    pub fn push(&mut self, word: Token) -> Result<(), AllocFailed<Token>>
        ensures ok { OnOk result (self.new ≡ self.old ++ word ∷ []) }
        ensures err { OnErr result (self.new ≡ self.old) }
    {
        self.items.push(word)
    }

    /// How many words there are.
    pub fn len(&self) -> usize
        ensures { result ≡ length self.now }
    {
        self.items.len()
    }

    /// Whether there is no word.
    pub fn is_empty(&self) -> bool
        ensures { IsTrue result ↔ (self.now ≡ []) }
    {
        self.items.is_empty()
    }

    /// The words, in order.
    pub fn as_slice(&self) -> &[Token]
        ensures { result.now ≡ self.now }
    {
        self.items.as_slice()
    }
}
