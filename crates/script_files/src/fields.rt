//! Whom lines are for, as the words of `on` say it.

ghost use Rattle.std.specs.Prelude.{◌≡◌};
ghost use Rattle.std.specs.List.{position};
ghost use Rattle.tokens.specs.Results.{Gives};
ghost use Rattle.tokens.specs.Fields.{each};
ghost use Rattle.script_files.specs.LineWords.{is_point, member_of, one_member, audience_of};

use crate::audience::{Audience, AudienceMember, AudienceMembers};
use std::alloc::Global;
use tokens::{LineError, Token, is, number_or, rank_of};

fn point_place(word: &[u8]) -> Option<usize>
    ensures { result ≡ position is_point word.now }
{
    word.iter().position(|byte| *byte == b'.')
}

/// `R`, or `R.I`.
#[tactic(auto, unfolding(crate::specs::LineWords::member_of))]
fn member_of(word: &[u8]) -> Result<AudienceMember, LineError>
    ensures { Gives (λ x. x) result (member_of word.now) }
{
    let Some(place) = point_place(word) else {
        let rank = rank_of(word)?;
        return Ok(AudienceMember {
            rank,
            incarnation: None,
        });
    };
    let (rank, back) = word.split_at(place);
    let (_, incarnation) = back.split_at(1);
    let rank = rank_of(rank)?;
    match number_or(incarnation, 65_536) {
        Some(one) => Ok(AudienceMember {
            rank,
            incarnation: Some(one as u32),
        }),
        None => Err(LineError::Faulty),
    }
}

fn members_of(alloc: Global, words: &[Token]) -> Result<AudienceMembers, LineError>
    ensures { Gives (λ x. x) result (each one_member words.now) }
{
    let mut members = AudienceMembers::new(alloc);
    for word in words {
        let member = member_of(word.as_bytes())?;
        members.push(member)?;
    }
    Ok(members)
}

/// `all`, or at least one rank.
#[tactic(auto, unfolding(crate::specs::LineWords::audience_of))]
pub(crate) fn audience_of(alloc: Global, words: &[Token]) -> Result<Audience, LineError>
    ensures { Gives (λ x. x) result (audience_of words.now) }
{
    let Some((word, rest)) = words.split_first() else {
        return Err(LineError::Faulty);
    };
    if is(word.as_bytes(), b"all") && rest.is_empty() {
        return Ok(Audience::All);
    }
    Ok(Audience::Ranks(members_of(alloc, words)?))
}
