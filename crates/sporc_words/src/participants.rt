//! Those who are named where a document is founded.

ghost use Rattle.std.specs.Prelude.{◌≡◌, ◌==◌, IfOk};
ghost use Rattle.std.specs.List.{list_any};
ghost use Rattle.clap.specs.Walk.{texts};
ghost use Rattle.clap.specs.Words.{found_of, rows_of};
ghost use Rattle.sporc_words.specs.Values.{all_participants, founds_admin, has_twice, may_found};
ghost use Rattle.sporc_words.specs.Values.{participant_by, participant_of, participants_of};
ghost use Rattle.sporc_words.specs.Values.{standing_of, values_of};

use crate::matches::values;
use crate::standing::{Participant, Standing};
use clap::ArgMatches;
use sporc_base::{Items, Memory};
use sporc_member::MAX_MEMBERS;
use sporc_script::{parse_member, parse_role};
use std::alloc::Global;

/// Those whom the values of an argument name, if they may found a document: not too many, each
/// number once, and an admin among them.
#[tactic(auto, unfolding(crate::specs::Values::participants_of))]
pub fn participants_value(
    alloc: Global,
    matches: &ArgMatches<'_>,
    id: &str,
) -> Result<Option<Items<Participant>>, Memory>
    ensures ok { IfOk result
        (λ found. found ≡ participants_of (values_of id.now (rows_of (found_of matches.now)))) }
{
    let Some(words) = values(matches, id) else {
        return Ok(None);
    };
    read_participants(alloc, words)
}

#[tactic(auto, unfolding(crate::specs::Values::participants_of))]
fn read_participants(alloc: Global, words: &[&str]) -> Result<Option<Items<Participant>>, Memory>
    ensures ok { IfOk result (λ found. found ≡ participants_of (texts words.now)) }
{
    let Some(participants) = parse_participants(alloc, words)? else {
        return Ok(None);
    };
    if !may_found(participants.as_slice()) {
        return Ok(None);
    }
    Ok(Some(participants))
}

fn parse_participants(alloc: Global, words: &[&str]) -> Result<Option<Items<Participant>>, Memory>
    ensures ok { IfOk result (λ found. found ≡ all_participants (texts words.now)) }
{
    let mut participants = Vec::new(alloc);
    for word in words {
        let Some(participant) = parse_participant(word) else {
            return Ok(None);
        };
        participants.push(participant)?;
    }
    Ok(Some(Items::new(participants)))
}

fn parse_participant(word: &str) -> Option<Participant>
    ensures value { result ≡ participant_of word.now }
{
    match word.split_once(':') {
        Some((number, name)) => parse_parts(number, name),
        None => None,
    }
}

fn parse_parts(number: &str, name: &str) -> Option<Participant>
    ensures value { result ≡ participant_by number.now name.now }
{
    let member = parse_member(number.as_bytes())?;
    let standing = parse_standing(name)?;
    Some(Participant { member, standing })
}

fn parse_standing(name: &str) -> Option<Standing>
    ensures value { result ≡ standing_of name.now }
{
    if name == "joiner" {
        return Some(Standing::Joiner);
    }
    let role = parse_role(name.as_bytes())?;
    Some(Standing::Founder(role))
}

fn may_found(participants: &[Participant]) -> bool
    ensures value { result ≡ may_found participants.now }
{
    participants.len() <= MAX_MEMBERS as usize
        && !has_twice(participants)
        && has_admin(participants)
}

fn has_twice(participants: &[Participant]) -> bool
    ensures value { result ≡ has_twice participants.now }
{
    let mut rest = participants;
    while let Some((first, after)) = rest.split_first() {
        if is_named(after, first.member) {
            return true;
        }
        rest = after;
    }
    false
}

fn is_named(participants: &[Participant], member: u16) -> bool
    ensures value { result ≡ list_any (λ p. p.member == member) participants.now }
{
    participants.iter().any(|p| p.member == member)
}

fn has_admin(participants: &[Participant]) -> bool
    ensures value { result ≡ list_any (λ p. founds_admin p.standing) participants.now }
{
    participants.iter().any(|p| p.standing.is_admin())
}
