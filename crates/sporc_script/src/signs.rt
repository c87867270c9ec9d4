//! What a script signs for a rogue, read.

ghost use Rattle.std.specs.Prelude.{◌≡◌, IfOk, MatchOption, None, Some};
ghost use Rattle.sporc_script.specs.declared.sign.LoneWord.{LoneWord};
ghost use Rattle.sporc_script.specs.declared.sign.SuffixWord.{SuffixWord};
ghost use Rattle.sporc_script.specs.declared.sign.WhatWord.{WhatWord};
ghost use Rattle.sporc_script.specs.declared.sign.WhatWord.TheVariants as what_words;
ghost use Rattle.sporc_script.specs.Plain.{role_of};
ghost use Rattle.sporc_script.specs.Readers.{behind_of, device_number_of, member_of, pair_of};
ghost use Rattle.sporc_script.specs.Signs.{forgery_of, last_of, lone_suffix, needs_change};
ghost use Rattle.sporc_script.specs.Signs.{signed_of, signed_upgrade, signed_with, stated_of};
ghost use Rattle.sporc_script.specs.Signs.{suffix_fits, suffix_of, suffix_with, version_of};

use crate::hex_word::parse_hex;
use crate::member_role::MemberRole;
use crate::names::{parse_lone_word, parse_role, parse_suffix_word, parse_what_word};
use crate::quoted::parse_text;
use crate::roster_change::RosterChange;
use crate::sign::{Forgery, LoneWord, Signed, Suffix, SuffixWord, What, WhatWord};
use crate::text_edit::Insertion;
use crate::words::{cut, parse_device, parse_device_number, parse_member, parse_u32, parse_u64};
use sporc_base::{Memory, is_same};
use sporc_member::{Device, Role};
use std::alloc::Global;

// `M from C ..`
#[tactic(auto, unfolding(crate::specs::Signs::forgery_of))]
pub fn read_forgery(alloc: Global, words: &[u8]) -> Result<Option<Forgery>, Memory>
    ensures ok { IfOk result (λ found. found ≡ forgery_of words.now) }
{
    let Some((first, rest)) = cut(words) else {
        return Ok(None);
    };
    let Some(member) = parse_member(first) else {
        return Ok(None);
    };
    let Some(source) = behind(rest, b"from") else {
        return Ok(None);
    };
    let Some((second, rest)) = cut(source) else {
        return Ok(None);
    };
    let Some(from) = parse_device(second) else {
        return Ok(None);
    };
    let Some(signed) = read_signed(alloc, rest)? else {
        return Ok(None);
    };
    Ok(Some(Forgery {
        member,
        from,
        signed,
    }))
}

// What stands behind this word.
fn behind<'a>(words: &'a [u8], name: &[u8]) -> Option<&'a [u8]>
    ensures { MatchOption result (behind_of name.now Some words.now ≡ None)
        (λ rest. behind_of name.now Some words.now ≡ Some rest.now) }
{
    let (first, rest) = cut(words)?;
    if is_same(first, name) {
        return Some(rest);
    }
    None
}

// What is signed, and what is wrong about it.
#[tactic(auto, unfolding(crate::specs::Signs::signed_of))]
fn read_signed(alloc: Global, words: &[u8]) -> Result<Option<Signed>, Memory>
    ensures { IfOk result (λ found. found ≡ signed_of words.now) }
{
    let Some(signed) = read_stated(alloc, words)? else {
        return Ok(None);
    };
    if suffix_fits(&signed) {
        return Ok(Some(signed));
    }
    Ok(None)
}

// What is signed and what is wrong about it, whether or not the suffix may follow.
#[tactic(auto, unfolding(crate::specs::Signs::stated_of))]
fn read_stated(alloc: Global, words: &[u8]) -> Result<Option<Signed>, Memory>
    ensures { IfOk result (λ found. found ≡ stated_of words.now) }
{
    if is_same(words, b"upgrade") {
        return Ok(Some(signed_upgrade(None)));
    }
    let Some((first, rest)) = cut(words) else {
        return Ok(None);
    };
    let Some(word) = parse_what_word(first) else {
        return Ok(None);
    };
    read_what(alloc, word, rest)
}

fn signed_upgrade(suffix: Option<Suffix>) -> Signed
    ensures { result ≡ signed_upgrade suffix }
{
    Signed {
        what: What::Change(RosterChange::Upgrade),
        suffix,
    }
}

fn suffix_fits(signed: &Signed) -> bool
    ensures { result ≡ suffix_fits signed.now }
{
    match (&signed.what, &signed.suffix) {
        (What::Change(_), _) | (_, None) => true,
        (_, Some(suffix)) => !needs_change(*suffix),
    }
}

fn needs_change(suffix: Suffix) -> bool
    ensures { result ≡ needs_change suffix }
{
    match suffix {
        Suffix::Number(_)
        | Suffix::Base(_)
        | Suffix::Epoch(_)
        | Suffix::Leaf(_)
        | Suffix::Version(_)
        | Suffix::Device(_) => false,
        Suffix::Wrap(_) | Suffix::Drop(_) | Suffix::Commit | Suffix::Previous => true,
    }
}

fn read_what(alloc: Global, word: WhatWord, words: &[u8]) -> Result<Option<Signed>, Memory>
    ensures { IfOk result (λ found. found ≡ signed_with word words.now) }
{
    match word {
        WhatWord::Insert => read_signed_text(alloc, words),
        WhatWord::Raw => read_raw(alloc, words),
        WhatWord::Add => Ok(read_signed_add(words)),
        WhatWord::Remove => Ok(read_signed_removal(words)),
        WhatWord::Role => Ok(read_signed_role(words)),
        WhatWord::Device => Ok(read_signed_device(words)),
        WhatWord::DropDevice => Ok(read_signed_drop(words)),
        WhatWord::Upgrade => Ok(read_suffixed_upgrade(words)),
    }
}

// `AT TEXT ..`
fn read_signed_text(alloc: Global, words: &[u8]) -> Result<Option<Signed>, Memory>
    ensures { IfOk result (λ found. found ≡ signed_with what_words.Insert words.now) }
{
    let Some((first, rest)) = cut(words) else {
        return Ok(None);
    };
    let Some(at) = parse_u64(first) else {
        return Ok(None);
    };
    let Some((last, suffix)) = split_suffix(rest) else {
        return Ok(None);
    };
    let Some(text) = parse_text(alloc, last)? else {
        return Ok(None);
    };
    let what = What::Insert(Insertion { at, text });
    Ok(Some(Signed { what, suffix }))
}

// `HEX ..`
fn read_raw(alloc: Global, words: &[u8]) -> Result<Option<Signed>, Memory>
    ensures { IfOk result (λ found. found ≡ signed_with what_words.Raw words.now) }
{
    let Some((last, suffix)) = split_suffix(words) else {
        return Ok(None);
    };
    let Some(bytes) = parse_hex(alloc, last)? else {
        return Ok(None);
    };
    let what = What::Raw(bytes);
    Ok(Some(Signed { what, suffix }))
}

// `N ROLE ..`
fn read_signed_add(words: &[u8]) -> Option<Signed>
    ensures { result ≡ signed_with what_words.Add words.now }
{
    let (member, role, suffix) = read_role_suffix(words)?;
    let what = What::Change(RosterChange::Add(MemberRole { member, role }));
    Some(Signed { what, suffix })
}

// `N ROLE ..`
fn read_signed_role(words: &[u8]) -> Option<Signed>
    ensures { result ≡ signed_with what_words.Role words.now }
{
    let (member, role, suffix) = read_role_suffix(words)?;
    let what = What::Change(RosterChange::SetRole(MemberRole { member, role }));
    Some(Signed { what, suffix })
}

fn read_role_suffix(words: &[u8]) -> Option<(u16, Role, Option<Suffix>)>
    ensures { MatchOption result (pair_of member_of (last_of role_of) words.now ≡ None)
        (λ p. pair_of member_of (last_of role_of) words.now ≡ Some (p.0, (p.1, p.2))) }
{
    let (first, rest) = cut(words)?;
    let member = parse_member(first)?;
    let (last, suffix) = split_suffix(rest)?;
    let role = parse_role(last)?;
    Some((member, role, suffix))
}

// `N ..`
fn read_signed_removal(words: &[u8]) -> Option<Signed>
    ensures { result ≡ signed_with what_words.Remove words.now }
{
    let (last, suffix) = split_suffix(words)?;
    let member = parse_member(last)?;
    let what = What::Change(RosterChange::Remove(member));
    Some(Signed { what, suffix })
}

// `N D ..`
fn read_signed_device(words: &[u8]) -> Option<Signed>
    ensures { result ≡ signed_with what_words.Device words.now }
{
    let (member, number, suffix) = read_number_suffix(words)?;
    let what = What::Change(RosterChange::AddDevice(Device { member, number }));
    Some(Signed { what, suffix })
}

// `N D ..`
fn read_signed_drop(words: &[u8]) -> Option<Signed>
    ensures { result ≡ signed_with what_words.DropDevice words.now }
{
    let (member, number, suffix) = read_number_suffix(words)?;
    let what = What::Change(RosterChange::DropDevice(Device { member, number }));
    Some(Signed { what, suffix })
}

fn read_number_suffix(words: &[u8]) -> Option<(u16, u8, Option<Suffix>)>
    ensures { MatchOption result (pair_of member_of (last_of device_number_of) words.now ≡ None)
        (λ p. pair_of member_of (last_of device_number_of) words.now ≡ Some (p.0, (p.1, p.2))) }
{
    let (first, rest) = cut(words)?;
    let member = parse_member(first)?;
    let (last, suffix) = split_suffix(rest)?;
    let number = parse_device_number(last)?;
    Some((member, number, suffix))
}

// `with ..` behind `upgrade`
fn read_suffixed_upgrade(words: &[u8]) -> Option<Signed>
    ensures { result ≡ signed_with what_words.Upgrade words.now }
{
    let suffix = read_suffix(words)?;
    Some(signed_upgrade(Some(suffix)))
}

// The first word, and the suffix that may follow it.
fn split_suffix(words: &[u8]) -> Option<(&[u8], Option<Suffix>)>
    ensures { MatchOption result (last_of Some words.now ≡ None)
        (λ parts. last_of Some words.now ≡ Some (parts.0.now, parts.1)) }
{
    let Some((first, rest)) = cut(words) else {
        return Some((words, None));
    };
    let suffix = read_suffix(rest)?;
    Some((first, Some(suffix)))
}

// `with ..`
#[tactic(auto, unfolding(crate::specs::Signs::suffix_of))]
fn read_suffix(words: &[u8]) -> Option<Suffix>
    ensures { result ≡ suffix_of words.now }
{
    let rest = behind(words, b"with")?;
    let Some((first, last)) = cut(rest) else {
        return Some(lone_suffix(parse_lone_word(rest)?));
    };
    let word = parse_suffix_word(first)?;
    read_suffix_number(word, last)
}

fn read_suffix_number(word: SuffixWord, last: &[u8]) -> Option<Suffix>
    ensures { result ≡ suffix_with word last.now }
{
    match word {
        SuffixWord::Number => Some(Suffix::Number(parse_u32(last)?)),
        SuffixWord::Base => Some(Suffix::Base(parse_u32(last)?)),
        SuffixWord::Epoch => Some(Suffix::Epoch(parse_u32(last)?)),
        SuffixWord::Leaf => Some(Suffix::Leaf(parse_u32(last)?)),
        SuffixWord::Wrap => Some(Suffix::Wrap(parse_member(last)?)),
        SuffixWord::Drop => Some(Suffix::Drop(parse_member(last)?)),
        SuffixWord::Version => Some(Suffix::Version(parse_version(last)?)),
        SuffixWord::Device => Some(Suffix::Device(parse_device_number(last)?)),
    }
}

// 1 or 2
#[tactic(auto, unfolding(crate::specs::Signs::version_of))]
fn parse_version(word: &[u8]) -> Option<u8>
    ensures { result ≡ version_of word.now }
{
    let number = parse_u64(word)?;
    if 0 < number && number < 3 {
        return Some(number as u8);
    }
    None
}

fn lone_suffix(word: LoneWord) -> Suffix
    ensures { result ≡ lone_suffix word }
{
    match word {
        LoneWord::Commit => Suffix::Commit,
        LoneWord::Previous => Suffix::Previous,
    }
}
