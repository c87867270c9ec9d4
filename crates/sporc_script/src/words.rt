//! Words of a line, and numbers as they are written.

ghost use Rattle.std.specs.Prelude.{◌≡◌, ◌≢◌, ◌<◌, ◌↔◌, ◌++◌, ℕ, List, IsTrue, MatchOption, None};
ghost use Rattle.std.specs.Prelude.{Some};
ghost use Rattle.sporc_script.specs.Words.{IsPlain, Lacks, Splits, cut, ends_word, number_of};
ghost use Rattle.sporc_script.specs.Words.{place_after};
ghost use Rattle.sporc_script.specs.Readers.{device_number_of, device_of, further_number_of};
ghost use Rattle.sporc_script.specs.Readers.{member_of, u32_of};

use sporc_member::Device;

// Where a byte of a line stands.
#[derive(Clone, Copy)]
pub enum Place {
    Outside,
    Quoted,
    // in a quoted text, behind a backslash
    Escaped,
}

fn place_after(place: Place, b: u8) -> Place
    ensures { result ≡ place_after place b }
{
    match (place, b) {
        (Place::Outside, b'"') => Place::Quoted,
        (Place::Outside, _) => Place::Outside,
        (Place::Quoted, b'\\') => Place::Escaped,
        (Place::Quoted, b'"') => Place::Outside,
        (Place::Quoted, _) | (Place::Escaped, _) => Place::Quoted,
    }
}

fn ends_word(place: Place, b: u8) -> bool
    ensures { result ≡ ends_word place b }
{
    match place {
        Place::Outside => b == b' ',
        Place::Quoted | Place::Escaped => false,
    }
}

/// The first word of a line that has more, and those after it. A space within quotes ends no word.
pub fn cut(line: &[u8]) -> Option<(&[u8], &[u8])>
    ensures value { MatchOption result (cut line.now ≡ None)
        (λ parts. cut line.now ≡ Some (parts.0.now, parts.1.now)) }
{
    let mut place = Place::Outside;
    for (i, b) in line.iter().enumerate() {
        if ends_word(place, *b) {
            return Some((&line[..i], &line[i + 1..]));
        }
        place = place_after(place, *b);
    }
    None
}

// What follows these words at the beginning.
pub fn after<'a>(bytes: &'a [u8], words: &[u8]) -> Option<&'a [u8]>
    ensures value { MatchOption result ((rest : List ℕ) → bytes.now ≢ words.now ++ rest)
        (λ rest. bytes.now ≡ words.now ++ rest.now) }
{
    bytes.strip_prefix(words)
}

// What stands before these words at the end.
pub fn before<'a>(bytes: &'a [u8], words: &[u8]) -> Option<&'a [u8]>
    ensures value { MatchOption result ((prefix : List ℕ) → bytes.now ≢ prefix ++ words.now)
        (λ prefix. bytes.now ≡ prefix.now ++ words.now) }
{
    bytes.strip_suffix(words)
}

// What is before the first `b`, and what is after it.
pub fn split_once(bytes: &[u8], b: u8) -> Option<(&[u8], &[u8])>
    ensures value { MatchOption result (Lacks b bytes.now)
        (λ parts. Splits b bytes.now parts.0.now parts.1.now) }
{
    for (i, x) in bytes.iter().enumerate() {
        if *x == b {
            return Some((&bytes[..i], &bytes[i + 1..]));
        }
    }
    None
}

fn is_plain(word: &[u8]) -> bool
    ensures { IsTrue result ↔ IsPlain word.now }
{
    match word {
        [] => false,
        [b'0', rest @ ..] => rest.is_empty(),
        [first, ..] => *first != b'+',
    }
}

/// The number that the whole word is: decimal digits with no sign and no zero in front.
pub fn parse_u64(word: &[u8]) -> Option<u64>
    ensures value { result ≡ number_of word.now }
{
    if !is_plain(word) {
        return None;
    }
    let Ok(text) = str::from_utf8(word) else {
        return None;
    };
    match text.parse::<u64>() {
        Ok(n) => Some(n),
        Err(_) => None,
    }
}

/// The number that the whole word is, as [`parse_u64`] reads it, if it fits 32 bits: a position, or
/// a count of rounds.
#[tactic(auto, unfolding(crate::specs::Readers::u32_of))]
pub fn parse_u32(word: &[u8]) -> Option<u32>
    ensures value { result ≡ u32_of word.now }
{
    let number = parse_u64(word)?;
    if number < 1 << 32 {
        return Some(number as u32);
    }
    None
}

/// The member's number that the whole word is, as [`parse_u64`] reads it: from 1 to 65,535.
#[tactic(auto, unfolding(crate::specs::Readers::member_of))]
pub fn parse_member(word: &[u8]) -> Option<u16>
    ensures value { result ≡ member_of word.now }
{
    let number = parse_u64(word)?;
    if 0 < number && number < 1 << 16 {
        return Some(number as u16);
    }
    None
}

/// The number of a device that the whole word is, as [`parse_u64`] reads it: from 0 to 255.
#[tactic(auto, unfolding(crate::specs::Readers::device_number_of))]
pub fn parse_device_number(word: &[u8]) -> Option<u8>
    ensures value { result ≡ device_number_of word.now }
{
    let number = parse_u64(word)?;
    if number < 1 << 8 {
        return Some(number as u8);
    }
    None
}

// The number of a further device, which is not 0.
#[tactic(auto, unfolding(crate::specs::Readers::further_number_of))]
pub fn parse_further_number(word: &[u8]) -> Option<u8>
    ensures value { result ≡ further_number_of word.now }
{
    let number = parse_u64(word)?;
    if 0 < number && number < 1 << 8 {
        return Some(number as u8);
    }
    None
}

/// The device that the whole word is: `M`, its member's number, for the first one; `M.D` for a
/// further one, D from 1 to 255.
#[tactic(auto, using(crate::proofs::DeviceWords::device_alone))]
pub fn parse_device(word: &[u8]) -> Option<Device>
    ensures value { result ≡ device_of word.now }
{
    let Some((first, rest)) = split_once(word, b'.') else {
        let member = parse_member(word)?;
        return Some(Device::first(member));
    };
    let member = parse_member(first)?;
    let number = parse_further_number(rest)?;
    Some(Device { member, number })
}
