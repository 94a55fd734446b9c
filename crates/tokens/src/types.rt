//! The words of basic types.

ghost use Rattle.std.specs.Prelude.{◌≡◌};
ghost use Rattle.tokens.specs.Words.{basic_type_of};

use crate::token::is;
use vocabulary::BasicType;

/// The basic type that the word names.
#[tactic(auto, unfolding(crate::specs::Words::basic_type_of))]
pub fn basic_type_of(word: &[u8]) -> Option<BasicType>
    ensures { result ≡ basic_type_of word.now }
{
    if is(word, b"int8") {
        Some(BasicType::Int8)
    } else if is(word, b"int16") {
        Some(BasicType::Int16)
    } else if is(word, b"int32") {
        Some(BasicType::Int32)
    } else if is(word, b"int64") {
        Some(BasicType::Int64)
    } else if is(word, b"uint8") {
        Some(BasicType::Uint8)
    } else if is(word, b"uint16") {
        Some(BasicType::Uint16)
    } else if is(word, b"uint32") {
        Some(BasicType::Uint32)
    } else if is(word, b"uint64") {
        Some(BasicType::Uint64)
    } else if is(word, b"byte") {
        Some(BasicType::Byte)
    } else if is(word, b"float32") {
        Some(BasicType::Float32)
    } else if is(word, b"float64") {
        Some(BasicType::Float64)
    } else {
        None
    }
}
