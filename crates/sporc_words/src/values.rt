//! What the values of arguments stand for.

ghost use Rattle.std.specs.Prelude.{◌≡◌, IfOk};
ghost use Rattle.clap.specs.Walk.{texts};
ghost use Rattle.clap.specs.Words.{found_of, rows_of};
ghost use Rattle.sporc_script.specs.Readers.{device_of, u32_of};
ghost use Rattle.sporc_words.specs.Verbs.{documents_of, scripts_of};
ghost use Rattle.sporc_words.specs.Values.{number_between, number_if, times_of, tree_of, value_of};
ghost use Rattle.sporc_words.specs.Values.{value_or, values_of, width_named};

use crate::matches::{value, values};
use crate::word::Word;
use clap::ArgMatches;
use lms_ots::OtsType;
use lms_tree::LmsType;
use sporc_base::{Items, Memory};
use sporc_member::Device;
use sporc_script::{MAX_EDITORS, parse_device, parse_u32, parse_u64};
use sporc_wire::MAX_DOCUMENTS;
use std::alloc::Global;

/// The device that is the value of an argument.
pub fn device_value(matches: &ArgMatches<'_>, id: &str) -> Option<Device>
    ensures value { result ≡ value_of id.now device_of (rows_of (found_of matches.now)) }
{
    let word = value(matches, id)?;
    parse_device(word.as_bytes())
}

/// The number in these bounds that is the value of an argument.
pub fn between_value(matches: &ArgMatches<'_>, id: &str, least: u32, most: u32) -> Option<u32>
    ensures value { result
        ≡ value_of id.now (number_between least most) (rows_of (found_of matches.now)) }
{
    let word = value(matches, id)?;
    parse_between(word, least, most)
}

/// The number that is the value of an argument, or the default where it has none.
pub fn value_or(matches: &ArgMatches<'_>, id: &str, default: u32) -> Option<u32>
    ensures value { result ≡ value_or id.now default u32_of (rows_of (found_of matches.now)) }
{
    match value(matches, id) {
        Some(word) => parse_u32(word.as_bytes()),
        None => Some(default),
    }
}

/// The number from 1 on that is the value of an argument, or the default where it has none.
pub fn times_or(matches: &ArgMatches<'_>, id: &str, default: u32) -> Option<u32>
    ensures value { result ≡ value_or id.now default times_of (rows_of (found_of matches.now)) }
{
    match value(matches, id) {
        Some(word) => parse_times(word),
        None => Some(default),
    }
}

/// The number that is the value of an argument, or none where it has no value. `None` if the value
/// is no number.
pub fn number_if(matches: &ArgMatches<'_>, id: &str) -> Option<Option<u32>>
    ensures value { result ≡ number_if id.now (rows_of (found_of matches.now)) }
{
    let Some(word) = value(matches, id) else {
        return Some(None);
    };
    let number = parse_u32(word.as_bytes())?;
    Some(Some(number))
}

/// The type of the tree whose height is the value of an argument.
pub fn tree_value(matches: &ArgMatches<'_>, id: &str) -> Option<LmsType>
    ensures value { result ≡ value_of id.now tree_of (rows_of (found_of matches.now)) }
{
    let word = value(matches, id)?;
    parse_tree(word)
}

/// The type of the one-time signatures whose bits a coefficient are the value of an argument.
pub fn width_value(matches: &ArgMatches<'_>, id: &str) -> Option<OtsType>
    ensures value { result ≡ value_of id.now width_named (rows_of (found_of matches.now)) }
{
    let word = value(matches, id)?;
    parse_width(word)
}

/// The words that are the values of an argument, unless there are too many scripts among them.
pub fn scripts_value(
    alloc: Global,
    matches: &ArgMatches<'_>,
    id: &str,
) -> Result<Option<Items<Word>>, Memory>
    ensures ok { IfOk result
        (λ found. found ≡ scripts_of (values_of id.now (rows_of (found_of matches.now)))) }
{
    let Some(words) = values(matches, id) else {
        return Ok(Some(Items::new(Vec::new(alloc))));
    };
    read_scripts(alloc, words)
}

// The scripts of editors, unless they are too many.
fn read_scripts(alloc: Global, words: &[&str]) -> Result<Option<Items<Word>>, Memory>
    ensures ok { IfOk result (λ found. found ≡ scripts_of (texts words.now)) }
{
    if words.len() > MAX_EDITORS {
        return Ok(None);
    }
    let scripts = copied(alloc, words)?;
    Ok(Some(scripts))
}

/// The words that are the values of an argument, if they may name the documents of a server: at
/// least one, and not too many.
pub fn documents_value(
    alloc: Global,
    matches: &ArgMatches<'_>,
    id: &str,
) -> Result<Option<Items<Word>>, Memory>
    ensures ok { IfOk result
        (λ found. found ≡ documents_of (values_of id.now (rows_of (found_of matches.now)))) }
{
    let Some(words) = values(matches, id) else {
        return Ok(None);
    };
    read_documents(alloc, words)
}

// The names of documents, if they are from one to as many as may be.
fn read_documents(alloc: Global, words: &[&str]) -> Result<Option<Items<Word>>, Memory>
    ensures ok { IfOk result (λ found. found ≡ documents_of (texts words.now)) }
{
    if words.is_empty() || words.len() > MAX_DOCUMENTS {
        return Ok(None);
    }
    let names = copied(alloc, words)?;
    Ok(Some(names))
}

fn copied(alloc: Global, words: &[&str]) -> Result<Items<Word>, Memory>
    ensures ok { IfOk result (λ copies. copies ≡ texts words.now) }
{
    let mut copies = Vec::new(alloc);
    for word in words {
        copies.push(Word::new(alloc, word)?)?;
    }
    Ok(Items::new(copies))
}

/// A number in these bounds, both included.
pub fn parse_between(word: &str, least: u32, most: u32) -> Option<u32>
    ensures value { result ≡ number_between least most word.now }
{
    let number = parse_u64(word.as_bytes())?;
    if least as u64 <= number && number <= most as u64 {
        return Some(number as u32);
    }
    None
}

fn parse_times(word: &str) -> Option<u32>
    ensures value { result ≡ times_of word.now }
{
    let number = parse_u32(word.as_bytes())?;
    if number == 0 {
        return None;
    }
    Some(number)
}

fn parse_tree(word: &str) -> Option<LmsType>
    ensures value { result ≡ tree_of word.now }
{
    match parse_u64(word.as_bytes())? {
        5 => Some(LmsType::H5),
        10 => Some(LmsType::H10),
        15 => Some(LmsType::H15),
        _ => None,
    }
}

fn parse_width(word: &str) -> Option<OtsType>
    ensures value { result ≡ width_named word.now }
{
    match parse_u64(word.as_bytes())? {
        4 => Some(OtsType::W4),
        8 => Some(OtsType::W8),
        _ => None,
    }
}
