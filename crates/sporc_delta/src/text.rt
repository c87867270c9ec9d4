//! Texts that count their characters.

ghost use Rattle.std.specs.Prelude.{◌≡◌, ◌+◌, ◌≤◌, ◌<◌, ◌^◌, ◌++◌, ◌==◌, ◌↔◌, IsTrue, length, take};
ghost use Rattle.std.specs.Prelude.{drop, IfOk, OnOk, OnErr};
ghost use Rattle.std.specs.Str.{chars, encode_utf8_all};
ghost use Rattle.std.specs.String.{string_bytes};

use sporc_base::Memory;
use std::alloc::Global;
use std::marker::Model;

/// A text that counts its characters, seen as the list of them.
#[derive(Drop)]
pub struct Text {
    string: String,
    len: u64,
}

impl Model for Text {
    ghost use Rattle.std.specs.Prelude.{List, ℕ};
    ghost use Rattle.std.specs.Str.{chars};
    ghost use Rattle.std.specs.String.{string_bytes};
    ghost use Rattle.sporc_delta.specs.Texts.{TextInvariant};

    ghost Value = { List ℕ };

    ghost view = { λ t. chars (string_bytes t.string) };

    ghost invariant = { λ t. TextInvariant (string_bytes t.string) t.len };
}

impl Text {
    /// A copy of a text.
    pub fn new(alloc: Global, text: &TextSlice<'_>) -> Result<Text, Memory>
        ensures ok { IfOk result (λ t. t ≡ text.now) }
    {
        let string = String::from_str(alloc, text.text)?;
        Ok(Text {
            string,
            len: text.len,
        })
    }

    /// The text of a string, which is moved.
    pub fn from_string(string: String) -> Text
        ensures value { result ≡ chars (string_bytes string) }
    {
        let len = string.as_str().chars().count() as u64;
        Text { string, len }
    }

    /// The number of characters.
    pub fn len(&self) -> u64
        ensures value { result ≡ length self.now }
    {
        self.len
    }

    /// Whether there are no characters.
    pub fn is_empty(&self) -> bool
        ensures meaning { IsTrue result ↔ (length self.now ≡ 0) }
    {
        self.len == 0
    }

    /// The whole text.
    pub fn as_slice(&self) -> TextSlice<'_>
        ensures value { result ≡ self.now }
    {
        TextSlice {
            text: self.string.as_str(),
            len: self.len,
        }
    }

    /// The text as UTF-8.
    pub fn as_str(&self) -> &str
        ensures characters { chars result.now ≡ self.now }
        ensures bytes { result.now ≡ encode_utf8_all self.now }
    {
        self.string.as_str()
    }

    /// Appends a text.
    pub fn push(&mut self, more: &TextSlice<'_>) -> Result<(), Memory>
        requires { length self.old + length more.now < 2 ^ 64 }
        ensures ok { OnOk result (self.new ≡ self.old ++ more.now) }
        ensures memory { OnErr result (self.new ≡ self.old) }
    {
        self.string.push_str(more.text)?;
        self.len += more.len;
        Ok(())
    }
}

/// A part of a text that stands elsewhere, seen as the list of its characters.
#[derive(Drop)]
pub struct TextSlice<'a> {
    text: &'a str,
    len: u64,
}

impl<'a> Model for TextSlice<'a> {
    ghost use Rattle.std.specs.Prelude.{List, ℕ};
    ghost use Rattle.std.specs.Str.{chars};
    ghost use Rattle.sporc_delta.specs.Texts.{TextInvariant};

    ghost Value = { List ℕ };

    ghost view = { λ t. chars t.text.now };

    ghost invariant = { λ t. TextInvariant t.text.now t.len };
}

impl<'a> TextSlice<'a> {
    /// The whole of a text.
    pub fn new(text: &'a str) -> TextSlice<'a>
        ensures characters { result ≡ chars text.entry.now }
        ensures within { length result ≤ length text.entry.now }
    {
        let len = text.chars().count() as u64;
        TextSlice { text, len }
    }

    /// The number of characters.
    pub fn len(&self) -> u64
        ensures value { result ≡ length self.now }
    {
        self.len
    }

    /// Whether there are no characters.
    pub fn is_empty(&self) -> bool
        ensures meaning { IsTrue result ↔ (length self.now ≡ 0) }
    {
        self.len == 0
    }

    /// The text as UTF-8.
    pub fn as_str(&self) -> &'a str
        ensures characters { chars result.now ≡ self.now }
        ensures bytes { result.now ≡ encode_utf8_all self.now }
    {
        self.text
    }

    /// The first `at` characters, and those after them.
    pub fn split_at(&self, at: u64) -> (TextSlice<'a>, TextSlice<'a>)
        requires { at ≤ length self.now }
        ensures prefix { result.0 ≡ take at self.now }
        ensures back { result.1 ≡ drop at self.now }
    {
        let (prefix, back) = self.text.split_at(place_of(self.text, at));
        (
            TextSlice {
                text: prefix,
                len: at,
            },
            TextSlice {
                text: back,
                len: self.len - at,
            },
        )
    }
}

// The place of the byte where a character begins, or the text ends.
fn place_of(text: &str, at: u64) -> usize
    requires { at ≤ length (chars text.now) }
    ensures value { result ≡ length (encode_utf8_all (take at (chars text.now))) }
{
    let mut rest = text.chars();
    for _ in 0..at {
        let _ = rest.next();
    }
    text.len() - rest.as_str().len()
}
