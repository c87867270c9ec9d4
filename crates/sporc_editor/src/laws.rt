//! Laws over the definitions that contracts cite. Their functions do nothing.

ghost use Rattle.std.specs.Prelude.{◌≡◌, ◌+◌, ◌^◌, ℕ, List, [], fold, take};
ghost use Rattle.sporc_member.specs.declared.device.Device.{Device};
ghost use Rattle.sporc_editor.specs.AskedLines.{SpellsAsked};
ghost use Rattle.sporc_editor.specs.Authors.{authors_text, distinct, kept_with};
ghost use Rattle.sporc_editor.specs.declared.asked.Asked.{Asked};

use crate::limits::{MAX_AUTHORS, MAX_LINE};

/// The limits of a line: the bytes of one by which an editor asks, and the authors that one names.
pub fn limits()
    ensures line { MAX_LINE ≡ 2 ^ 20 + 2 ^ 16 }
    ensures authors { MAX_AUTHORS ≡ 4 }
{}

/// A line asks for one thing at most.
pub fn one_asked()
    ensures one { (line : List ℕ) (asked other : Asked) → SpellsAsked line asked
        → SpellsAsked line other → asked ≡ other }
{}

/// What is kept of authors as they come one by one is the first of all of them, and a line names
/// them by it as it would by all.
pub fn authors_are_named()
    ensures kept { (devices : List Device)
        → fold kept_with [] devices ≡ take (MAX_AUTHORS + 1) (distinct devices) }
    ensures named { (devices : List Device)
        → authors_text (fold kept_with [] devices) ≡ authors_text (distinct devices) }
{}
