//! Words that are names.

ghost use Rattle.std.specs.Prelude.{◌≡◌};
ghost use Rattle.sporc_member.specs.Role.{role_name};
ghost use Rattle.sporc_script.specs.EditorLines.{editor_word_name, editor_word_of};
ghost use Rattle.sporc_script.specs.Edits.{roster_word_of, text_word_of};
ghost use Rattle.sporc_script.specs.Plain.{height_of, keyword_of, role_of, width_of};
ghost use Rattle.sporc_script.specs.Signs.{lone_word_name, lone_word_of, suffix_word_name};
ghost use Rattle.sporc_script.specs.Signs.{suffix_word_of, what_word_name, what_word_of};
ghost use Rattle.sporc_script.specs.Spelling.{height_name, keyword_name, roster_word_name};
ghost use Rattle.sporc_script.specs.Spelling.{text_word_name, width_name};

use crate::command::{Height, Keyword, Width};
use crate::editor_line::EditorWord;
use crate::named::{HasName, find_named};
use crate::roster_change::RosterWord;
use crate::sign::{LoneWord, SuffixWord, WhatWord};
use crate::text_edit::TextWord;
use sporc_member::{Role, role_name};

const KEYWORDS: [Keyword; 21] = [
    Keyword::Tree,
    Keyword::Member,
    Keyword::Rogue,
    Keyword::Joiner,
    Keyword::Unpaired,
    Keyword::Edit,
    Keyword::Change,
    Keyword::Discard,
    Keyword::Submit,
    Keyword::Give,
    Keyword::Restart,
    Keyword::Join,
    Keyword::Show,
    Keyword::Members,
    Keyword::Hash,
    Keyword::Journal,
    Keyword::Compare,
    Keyword::Flip,
    Keyword::Cut,
    Keyword::Sign,
    Keyword::Device,
];

impl HasName for Keyword {
    ghost name_of = { keyword_name };

    fn name(&self) -> &'static [u8] {
        match self {
            Keyword::Tree => b"tree",
            Keyword::Member => b"member",
            Keyword::Rogue => b"rogue",
            Keyword::Joiner => b"joiner",
            Keyword::Unpaired => b"unpaired",
            Keyword::Edit => b"edit",
            Keyword::Change => b"change",
            Keyword::Discard => b"discard",
            Keyword::Submit => b"submit",
            Keyword::Give => b"give",
            Keyword::Restart => b"restart",
            Keyword::Join => b"join",
            Keyword::Show => b"show",
            Keyword::Members => b"members",
            Keyword::Hash => b"hash",
            Keyword::Journal => b"journal",
            Keyword::Compare => b"compare",
            Keyword::Flip => b"flip",
            Keyword::Cut => b"cut",
            Keyword::Sign => b"sign",
            Keyword::Device => b"device",
        }
    }
}

#[tactic(auto, unfolding(crate::specs::Plain::keyword_of))]
pub fn parse_keyword(word: &[u8]) -> Option<Keyword>
    ensures value { result ≡ keyword_of word.now }
{
    find_named(&KEYWORDS, word)
}

const TEXT_WORDS: [TextWord; 2] = [TextWord::Insert, TextWord::Remove];

impl HasName for TextWord {
    ghost name_of = { text_word_name };

    fn name(&self) -> &'static [u8] {
        match self {
            TextWord::Insert => b"insert",
            TextWord::Remove => b"remove",
        }
    }
}

#[tactic(auto, unfolding(crate::specs::Edits::text_word_of))]
pub fn parse_text_word(word: &[u8]) -> Option<TextWord>
    ensures value { result ≡ text_word_of word.now }
{
    find_named(&TEXT_WORDS, word)
}

const ROSTER_WORDS: [RosterWord; 5] = [
    RosterWord::Add,
    RosterWord::Remove,
    RosterWord::Role,
    RosterWord::Device,
    RosterWord::DropDevice,
];

impl HasName for RosterWord {
    ghost name_of = { roster_word_name };

    fn name(&self) -> &'static [u8] {
        match self {
            RosterWord::Add => b"add",
            RosterWord::Remove => b"remove",
            RosterWord::Role => b"role",
            RosterWord::Device => b"device",
            RosterWord::DropDevice => b"drop-device",
        }
    }
}

#[tactic(auto, unfolding(crate::specs::Edits::roster_word_of))]
pub fn parse_roster_word(word: &[u8]) -> Option<RosterWord>
    ensures value { result ≡ roster_word_of word.now }
{
    find_named(&ROSTER_WORDS, word)
}

const EDITOR_WORDS: [EditorWord; 7] = [
    EditorWord::Insert,
    EditorWord::Remove,
    EditorWord::Add,
    EditorWord::Drop,
    EditorWord::Role,
    EditorWord::Device,
    EditorWord::DropDevice,
];

impl HasName for EditorWord {
    ghost name_of = { editor_word_name };

    fn name(&self) -> &'static [u8] {
        match self {
            EditorWord::Insert => b"insert",
            EditorWord::Remove => b"remove",
            EditorWord::Add => b"add",
            EditorWord::Drop => b"drop",
            EditorWord::Role => b"role",
            EditorWord::Device => b"device",
            EditorWord::DropDevice => b"drop-device",
        }
    }
}

#[tactic(auto, unfolding(crate::specs::EditorLines::editor_word_of))]
pub fn parse_editor_word(word: &[u8]) -> Option<EditorWord>
    ensures value { result ≡ editor_word_of word.now }
{
    find_named(&EDITOR_WORDS, word)
}

const WHAT_WORDS: [WhatWord; 8] = [
    WhatWord::Insert,
    WhatWord::Raw,
    WhatWord::Add,
    WhatWord::Remove,
    WhatWord::Role,
    WhatWord::Device,
    WhatWord::DropDevice,
    WhatWord::Upgrade,
];

impl HasName for WhatWord {
    ghost name_of = { what_word_name };

    fn name(&self) -> &'static [u8] {
        match self {
            WhatWord::Insert => b"insert",
            WhatWord::Raw => b"raw",
            WhatWord::Add => b"add",
            WhatWord::Remove => b"remove",
            WhatWord::Role => b"role",
            WhatWord::Device => b"device",
            WhatWord::DropDevice => b"drop-device",
            WhatWord::Upgrade => b"upgrade",
        }
    }
}

#[tactic(auto, unfolding(crate::specs::Signs::what_word_of))]
pub fn parse_what_word(word: &[u8]) -> Option<WhatWord>
    ensures value { result ≡ what_word_of word.now }
{
    find_named(&WHAT_WORDS, word)
}

const SUFFIX_WORDS: [SuffixWord; 8] = [
    SuffixWord::Number,
    SuffixWord::Base,
    SuffixWord::Epoch,
    SuffixWord::Leaf,
    SuffixWord::Wrap,
    SuffixWord::Drop,
    SuffixWord::Version,
    SuffixWord::Device,
];

impl HasName for SuffixWord {
    ghost name_of = { suffix_word_name };

    fn name(&self) -> &'static [u8] {
        match self {
            SuffixWord::Number => b"number",
            SuffixWord::Base => b"base",
            SuffixWord::Epoch => b"epoch",
            SuffixWord::Leaf => b"leaf",
            SuffixWord::Wrap => b"wrap",
            SuffixWord::Drop => b"drop",
            SuffixWord::Version => b"version",
            SuffixWord::Device => b"device",
        }
    }
}

#[tactic(auto, unfolding(crate::specs::Signs::suffix_word_of))]
pub fn parse_suffix_word(word: &[u8]) -> Option<SuffixWord>
    ensures value { result ≡ suffix_word_of word.now }
{
    find_named(&SUFFIX_WORDS, word)
}

const LONE_WORDS: [LoneWord; 2] = [LoneWord::Commit, LoneWord::Previous];

impl HasName for LoneWord {
    ghost name_of = { lone_word_name };

    fn name(&self) -> &'static [u8] {
        match self {
            LoneWord::Commit => b"commit",
            LoneWord::Previous => b"previous",
        }
    }
}

#[tactic(auto, unfolding(crate::specs::Signs::lone_word_of))]
pub fn parse_lone_word(word: &[u8]) -> Option<LoneWord>
    ensures value { result ≡ lone_word_of word.now }
{
    find_named(&LONE_WORDS, word)
}

const ROLES: [Role; 3] = [Role::Reader, Role::Editor, Role::Admin];

impl HasName for Role {
    ghost name_of = { role_name };

    fn name(&self) -> &'static [u8] {
        role_name(*self).as_bytes()
    }
}

/// The role that the whole word names.
#[tactic(auto, unfolding(crate::specs::Plain::role_of))]
pub fn parse_role(word: &[u8]) -> Option<Role>
    ensures value { result ≡ role_of word.now }
{
    find_named(&ROLES, word)
}

const HEIGHTS: [Height; 2] = [Height::Five, Height::Ten];

impl HasName for Height {
    ghost name_of = { height_name };

    fn name(&self) -> &'static [u8] {
        match self {
            Height::Five => b"5",
            Height::Ten => b"10",
        }
    }
}

#[tactic(auto, unfolding(crate::specs::Plain::height_of))]
pub fn parse_height(word: &[u8]) -> Option<Height>
    ensures value { result ≡ height_of word.now }
{
    find_named(&HEIGHTS, word)
}

const WIDTHS: [Width; 2] = [Width::Four, Width::Eight];

impl HasName for Width {
    ghost name_of = { width_name };

    fn name(&self) -> &'static [u8] {
        match self {
            Width::Four => b"4",
            Width::Eight => b"8",
        }
    }
}

#[tactic(auto, unfolding(crate::specs::Plain::width_of))]
pub fn parse_width(word: &[u8]) -> Option<Width>
    ensures value { result ≡ width_of word.now }
{
    find_named(&WIDTHS, word)
}
