//! The pages of the help.

use crate::command::{OVERVIEW, Verb};
use crate::pages::{HELP, VERSION_PAGE};

/// A page of the help.
#[derive(Clone, Copy)]
pub enum Page {
    /// All commands, on one screen.
    Overview,
    /// A command's page.
    Of(Verb),
    /// The page of `help`.
    Help,
    /// The page of `version`.
    Version,
}

impl Page {
    ghost use Rattle.std.specs.Prelude.{◌≡◌};
    ghost use Rattle.sporc_words.specs.Pages.{page_text};

    /// What it shows.
    #[tactic(auto, unfolding(crate::specs::Pages::page_text))]
    pub fn text(self) -> &'static str
        ensures value { result.now ≡ page_text self }
    {
        match self {
            Page::Overview => OVERVIEW,
            Page::Of(verb) => verb.row().page,
            Page::Help => HELP,
            Page::Version => VERSION_PAGE,
        }
    }
}
