//! How a layout is made, by the words that spell it.

ghost use Rattle.std.specs.Prelude.{◌≡◌};
ghost use Rattle.std.specs.List.{position};
ghost use Rattle.statements.specs.LineWords.{action_by, block_of, contiguous_of, form_word_of, formed_by, indexed_of};
ghost use Rattle.statements.specs.LineWords.{is_colon, last, old_of, one_block, stripes_of, vector_of};
ghost use Rattle.tokens.specs.Fields.{each};
ghost use Rattle.tokens.specs.Results.{Gives};

use crate::action::Action;
use crate::front::{first_two, four_alone, two_alone};
use crate::layout_line::{Blocks, LayoutForm, LayoutLine, OldLayout, Stripes};
use crate::verb::Verb;
use datatypes::IndexedBlock;
use std::alloc::Global;
use tokens::{LineError, Token, basic_type_of, is, large_of, name_of, require};

/// How a layout is made, by its word.
#[derive(Clone, Copy)]
enum FormWord {
    /// `contiguous`
    Contiguous,
    /// `vector`
    Vector,
    /// `indexed`
    Indexed,
}

/// How the word says that a layout is made.
#[tactic(auto, unfolding(crate::specs::LineWords::form_word_of))]
fn form_word_of(word: &[u8]) -> Option<FormWord>
    ensures { result ≡ form_word_of word.now }
{
    if is(word, b"contiguous") {
        Some(FormWord::Contiguous)
    } else if is(word, b"vector") {
        Some(FormWord::Vector)
    } else if is(word, b"indexed") {
        Some(FormWord::Indexed)
    } else {
        None
    }
}

/// A type, or the name of a layout.
#[tactic(auto, unfolding(crate::specs::LineWords::old_of))]
fn old_of(alloc: Global, word: &[u8]) -> Result<OldLayout, LineError>
    ensures { Gives (λ x. x) result (old_of word.now) }
{
    match basic_type_of(word) {
        Some(basic) => Ok(OldLayout::Basic(basic)),
        None => Ok(OldLayout::Named(name_of(alloc, word)?)),
    }
}

fn colon_place(word: &[u8]) -> Option<usize>
    ensures { result ≡ position is_colon word.now }
{
    word.iter().position(|byte| *byte == b':')
}

/// `LEN:DISP`
#[tactic(auto, unfolding(crate::specs::LineWords::block_of))]
fn block_of(word: &[u8]) -> Result<IndexedBlock, LineError>
    ensures { Gives (λ x. x) result (block_of word.now) }
{
    let Some(place) = colon_place(word) else {
        return Err(LineError::Faulty);
    };
    let (length, back) = word.split_at(place);
    let (_, displacement) = back.split_at(1);
    let length = large_of(length)?;
    let displacement = large_of(displacement)?;
    Ok(IndexedBlock {
        length,
        displacement,
    })
}

fn blocks_of(alloc: Global, words: &[Token]) -> Result<Blocks, LineError>
    ensures { Gives (λ x. x) result (each one_block words.now) }
{
    let mut blocks = Blocks::new(alloc);
    for word in words {
        let block = block_of(word.as_bytes())?;
        blocks.push(block)?;
    }
    Ok(blocks)
}

/// The words before the last one, and the last one.
fn last(words: &[Token]) -> Result<(&[Token], &[u8]), LineError>
    ensures { Gives (λ x. (x.0.now, x.1.now)) result (last words.now) }
{
    match words.split_last() {
        Some((word, front)) => Ok((front, word.as_bytes())),
        None => Err(LineError::Faulty),
    }
}

/// `N OLD`
#[tactic(auto, unfolding(crate::specs::LineWords::contiguous_of))]
fn contiguous_of(alloc: Global, words: &[Token]) -> Result<(LayoutForm, OldLayout), LineError>
    ensures { Gives (λ x. x) result (contiguous_of words.now) }
{
    let (count, old) = two_alone(words)?;
    let count = large_of(count)?;
    let old = old_of(alloc, old)?;
    Ok((LayoutForm::Contiguous(count), old))
}

/// `C B S`
fn stripes_of(count: &[u8], blocklength: &[u8], stride: &[u8]) -> Result<Stripes, LineError>
    ensures { Gives (λ x. x) result (stripes_of count.now blocklength.now stride.now) }
{
    Ok(Stripes {
        count: large_of(count)?,
        blocklength: large_of(blocklength)?,
        stride: large_of(stride)?,
    })
}

/// `C B S OLD`
#[tactic(auto, unfolding(crate::specs::LineWords::vector_of))]
fn vector_of(alloc: Global, words: &[Token]) -> Result<(LayoutForm, OldLayout), LineError>
    ensures { Gives (λ x. x) result (vector_of words.now) }
{
    let (count, blocklength, stride, old) = four_alone(words)?;
    let stripes = stripes_of(count, blocklength, stride)?;
    let old = old_of(alloc, old)?;
    Ok((LayoutForm::Vector(stripes), old))
}

/// `LEN:DISP .. OLD`
#[tactic(auto, unfolding(crate::specs::LineWords::indexed_of))]
fn indexed_of(alloc: Global, words: &[Token]) -> Result<(LayoutForm, OldLayout), LineError>
    ensures { Gives (λ x. x) result (indexed_of words.now) }
{
    let (front, old) = last(words)?;
    let old = old_of(alloc, old)?;
    let blocks = blocks_of(alloc, front)?;
    Ok((LayoutForm::Indexed(blocks), old))
}

/// What stands behind the word that says how the layout is made.
fn formed_by(
    alloc: Global,
    form: FormWord,
    words: &[Token],
) -> Result<(LayoutForm, OldLayout), LineError>
    ensures { Gives (λ x. x) result (formed_by form words.now) }
{
    match form {
        FormWord::Contiguous => contiguous_of(alloc, words),
        FormWord::Vector => vector_of(alloc, words),
        FormWord::Indexed => indexed_of(alloc, words),
    }
}

/// A layout's name, and how it is made.
#[tactic(auto, unfolding(crate::specs::LineWords::layout_of))]
pub(crate) fn layout_of(alloc: Global, words: &[Token]) -> Result<Action, LineError>
    ensures { Gives (λ x. x) result (action_by Verb.Layout words.now) }
{
    let (name, form, rest) = first_two(words)?;
    let form = require(form_word_of(form))?;
    let name = name_of(alloc, name)?;
    let (form, made_of) = formed_by(alloc, form, rest)?;
    Ok(Action::Layout(LayoutLine {
        name,
        form,
        made_of,
    }))
}
