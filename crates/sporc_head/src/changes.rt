//! The checks of a change at a roster.

ghost use Rattle.std.specs.Prelude.{◌≡◌, map, IfOk, Some};
ghost use Rattle.sporc_base.specs.FirstFault.{AnswersUnless, first_of};
ghost use Rattle.sporc_head.specs.HeadChecks.{roster_checks};

use crate::refusal::Refusal;
use sporc_base::Memory;
use sporc_entry::{ChangeBody, Wrap};
use sporc_member::Roster;
use std::alloc::Global;

/// The checks of a change at the roster before it: that this accepts it, and that its wraps name
/// exactly the members after it, in order.
pub fn check_change(alloc: Global, roster: &Roster, change: &ChangeBody) -> Result<(), Refusal>
    ensures fault { AnswersUnless Refusal.Memory result
        (first_of (roster_checks roster.now.roster (Some change.now))) }
{
    if let Err(fault) = roster.test(&change.change) {
        return Err(Refusal::BadChange(fault));
    }
    let numbers = roster.members_after(&change.change)?;
    let named = named_in(alloc, change.wraps.as_slice())?;
    if named.as_slice() != numbers.as_slice() {
        return Err(Refusal::WrongWraps);
    }
    Ok(())
}

// The members that wraps name.
fn named_in(alloc: Global, wraps: &[Wrap]) -> Result<Vec<u16>, Memory>
    ensures { IfOk result (λ named. named.items ≡ map (λ w. w.member) wraps.now) }
{
    wraps.iter().map(|w| w.member).collect(alloc)
}
