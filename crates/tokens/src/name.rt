//! Names.

ghost use Rattle.std.specs.Prelude.{◌≡◌, IfOk};
ghost use Rattle.std.specs.List.{list_all};
ghost use Rattle.std.specs.Str.{bytes_eq};
ghost use Rattle.tokens.specs.Words.{basic_type_of, is_letter, is_name_byte, is_reserved, is_reserved_type, is_name};

use crate::token::is;
use crate::types::basic_type_of;
use alike::Alike;
use smallvec::SmallVec;
use std::alloc::{AllocError, Global};
use std::marker::Model;

/// The greatest length of a name, in bytes.
const LONGEST: usize = 16;

/// A name that a line gives a buffer, a request or a communicator: a lower-case letter and then at most 15 lower-case
/// letters or digits, which stand in the value itself. Contracts see it as the list of its bytes.
pub struct Name {
    bytes: SmallVec<u8, LONGEST>,
}

/// A drop of its own is proved here alone, and not in each crate above.
impl Drop for Name {
    fn drop(self) {
        let Name { bytes } = self;
        drop(bytes);
    }
}

impl Model for Name {
    ghost use Rattle.std.specs.Prelude.{List, ℕ};

    ghost Value = { List ℕ };

    ghost view = { λ n. n.bytes.items };
}

impl Alike for Name {
    fn stands_as(&self, other: &Self) -> bool {
        self.as_bytes() == other.as_bytes()
    }
}

impl Name {
    /// A copy of these bytes as a name.
    pub fn from_slice(alloc: Global, bytes: &[u8]) -> Result<Name, AllocError>
        ensures { IfOk result (λ name. name ≡ bytes.now) }
    {
        Ok(Name {
            bytes: SmallVec::from_slice(alloc, bytes)?,
        })
    }

    /// A second name of the same bytes.
    pub fn try_clone(&self, alloc: Global) -> Result<Name, AllocError>
        ensures { IfOk result (λ name. name ≡ self.now) }
    {
        Name::from_slice(alloc, self.as_bytes())
    }

    /// The bytes of the name.
    pub fn as_bytes(&self) -> &[u8]
        ensures { result.now ≡ self.now }
    {
        self.bytes.as_slice()
    }

    /// Whether the other is the same name.
    pub fn is(&self, other: &Name) -> bool
        ensures { result ≡ bytes_eq self.now other.now }
    {
        is(self.as_bytes(), other.as_bytes())
    }
}

fn is_letter(byte: u8) -> bool
    ensures { result ≡ is_letter byte }
{
    byte >= b'a' && byte <= b'z'
}

fn is_name_byte(byte: u8) -> bool
    ensures { result ≡ is_name_byte byte }
{
    is_letter(byte) || (byte >= b'0' && byte <= b'9')
}

fn are_name_bytes(word: &[u8]) -> bool
    ensures { result ≡ list_all is_name_byte word.now }
{
    for byte in word {
        if !is_name_byte(*byte) {
            return false;
        }
    }
    true
}

/// Whether the word is a type's and no name; the words of floats are names, too.
fn is_type_alone(word: &[u8]) -> bool
    ensures { result ≡ is_reserved_type (basic_type_of word.now) }
{
    match basic_type_of(word) {
        Some(basic) => !basic.is_float(),
        None => false,
    }
}

/// Whether the word stands for itself, and is no name.
#[tactic(auto, unfolding(crate::specs::Words::is_reserved))]
fn is_reserved(word: &[u8]) -> bool
    ensures { result ≡ is_reserved word.now }
{
    is(word, b"world") || is(word, b"self") || is(word, b"null") || is_type_alone(word)
}

/// Whether the word is a name: a lower-case letter and then at most 15 lower-case letters or digits, and none of the
/// language's own words.
#[tactic(auto, unfolding(crate::specs::Words::is_name))]
pub(crate) fn is_name(word: &[u8]) -> bool
    ensures { result ≡ is_name word.now }
{
    if word.is_empty() || word.len() > LONGEST {
        return false;
    }
    is_letter(word[0]) && are_name_bytes(word) && !is_reserved(word)
}
