//! Hands of passes: for each session one pass of each lock.

ghost use Rattle.std.specs.Prelude.{◌≡◌, ◌∷◌, ℕ, [], None, length, replicate, IfOk};
ghost use Rattle.std.specs.List.{AllZip};
ghost use Rattle.sporc_turn.specs.declared.pass.Pass.{Pass};
ghost use Rattle.sporc_serve.specs.Crowds.{IsOther};
ghost use Rattle.sporc_docs.specs.Hands.{AllHands, HasFirst, HasRoom, HavePasses};
ghost use Rattle.sporc_docs.specs.Hands.{HaveRoom, IsEmpty, JoinsAt, SplitsAt, column, pass_at};

use sporc_base::Memory;
use sporc_order::Tail;
use sporc_serve::{Desk, Item};
use sporc_turn::{Pass, Turn};
use std::alloc::Global;

// For each lock a pass of it, or none before they are split.
#[derive(Drop)]
pub(crate) struct Hand {
    pub(crate) passes: Vec<Option<Pass<Item>>>,
}

impl Hand {
    // No pass, and places for so many.
    fn new(alloc: Global, len: usize) -> Result<Hand, Memory>
        ensures { IfOk result (λ hand. hand.passes.items ≡ replicate len None) }
    {
        let mut passes = Vec::with_capacity(alloc, len)?;
        for _ in 0..len {
            passes.push_reserved(None);
        }
        Ok(Hand { passes })
    }

    // Splits the passes, each from number 0 of its lock.
    fn split<T: Tail>(&mut self, turns: &[Turn<Desk<T>>], firsts: &mut [Option<Pass<Item>>])
        requires firsts { AllZip HasFirst turns.now firsts.old }
        requires room { HaveRoom 1 firsts.old }
        requires empty { AllZip IsEmpty turns.now self.old.passes.items }
        ensures firsts { AllZip HasFirst turns.now firsts.new }
        ensures hand { HavePasses turns.now self.new.passes.items }
        ensures splits { (i : ℕ) → SplitsAt (pass_at i firsts.old)
            (pass_at i self.new.passes.items ∷ []) (pass_at i firsts.new) }
    {
        split_each(turns, firsts, &mut self.passes);
    }

    // Joins the passes back, each to number 0 of its lock.
    fn join<T: Tail>(&mut self, turns: &[Turn<Desk<T>>], firsts: &mut [Option<Pass<Item>>])
        requires firsts { AllZip HasFirst turns.now firsts.old }
        requires hand { HavePasses turns.now self.old.passes.items }
        ensures firsts { AllZip HasFirst turns.now firsts.new }
        ensures joins { (i : ℕ) → JoinsAt (pass_at i firsts.old)
            (pass_at i self.old.passes.items ∷ []) (pass_at i firsts.new) }
    {
        join_each(turns, firsts, &mut self.passes);
    }
}

// So many hands without a pass, with places for so many locks.
pub(crate) fn empty_hands(alloc: Global, sessions: u32, len: usize) -> Result<Vec<Hand>, Memory>
    ensures len { IfOk result (λ hands. length hands.items ≡ sessions) }
    ensures empty { IfOk result
        (λ hands. AllHands (λ passes. passes ≡ replicate len None) hands.items) }
{
    let mut hands = Vec::with_capacity(alloc, sessions as usize)?;
    for _ in 0..sessions {
        let hand = Hand::new(alloc, len)?;
        hands.push_reserved(hand);
    }
    Ok(hands)
}

// Splits a pass from number 0.
fn split_at<T: Tail>(
    turn: &Turn<Desk<T>>,
    first: &mut Option<Pass<Item>>,
    place: &mut Option<Pass<Item>>,
)
    requires first { HasFirst turn.now first.old }
    requires room { HasRoom 1 first.old }
    requires empty { place.old ≡ None }
    ensures first { HasFirst turn.now first.new }
    ensures place { IsOther turn.now place.new }
    ensures splits { SplitsAt first.old (place.new ∷ []) first.new }
{
    let pass = first.take().unwrap();
    match turn.split(pass) {
        Ok((pass, other)) => {
            *first = Some(pass);
            *place = Some(other);
        }
        Err(_) => unreachable!(),
    }
}

// Splits a pass from each number 0.
fn split_each<T: Tail>(
    turns: &[Turn<Desk<T>>],
    firsts: &mut [Option<Pass<Item>>],
    hand: &mut [Option<Pass<Item>>],
)
    requires firsts { AllZip HasFirst turns.now firsts.old }
    requires room { HaveRoom 1 firsts.old }
    requires empty { AllZip IsEmpty turns.now hand.old }
    ensures firsts { AllZip HasFirst turns.now firsts.new }
    ensures hand { HavePasses turns.now hand.new }
    ensures splits { (i : ℕ)
        → SplitsAt (pass_at i firsts.old) (pass_at i hand.new ∷ []) (pass_at i firsts.new) }
{
    let Some((turn, turns)) = turns.split_first() else {
        return;
    };
    let Some((first, firsts)) = firsts.split_first_mut() else {
        return;
    };
    let Some((place, hand)) = hand.split_first_mut() else {
        return;
    };
    split_at(turn, first, place);
    split_each(turns, firsts, hand);
}

// Splits the passes of these hands.
pub(crate) fn split_hands<T: Tail>(
    turns: &[Turn<Desk<T>>],
    firsts: &mut [Option<Pass<Item>>],
    hands: &mut [Hand],
)
    requires firsts { AllZip HasFirst turns.now firsts.old }
    requires room { HaveRoom (length hands.old) firsts.old }
    requires empty { AllHands (AllZip IsEmpty turns.now) hands.old }
    ensures firsts { AllZip HasFirst turns.now firsts.new }
    ensures hands { AllHands (HavePasses turns.now) hands.new }
    ensures splits { (i : ℕ)
        → SplitsAt (pass_at i firsts.old) (column i hands.new) (pass_at i firsts.new) }
{
    let Some((hand, others)) = hands.split_first_mut() else {
        return;
    };
    hand.split(turns, firsts);
    split_hands(turns, firsts, others);
}

// Joins a pass back to number 0.
fn join_at<T: Tail>(
    turn: &Turn<Desk<T>>,
    first: &mut Option<Pass<Item>>,
    place: &mut Option<Pass<Item>>,
)
    requires first { HasFirst turn.now first.old }
    requires place { IsOther turn.now place.old }
    ensures first { HasFirst turn.now first.new }
    ensures joins { JoinsAt first.old (place.old ∷ []) first.new }
{
    let other = place.take().unwrap();
    let pass = first.take().unwrap();
    *first = Some(turn.join(pass, other));
}

// Joins passes back, each to number 0 of its lock.
fn join_each<T: Tail>(
    turns: &[Turn<Desk<T>>],
    firsts: &mut [Option<Pass<Item>>],
    hand: &mut [Option<Pass<Item>>],
)
    requires firsts { AllZip HasFirst turns.now firsts.old }
    requires hand { HavePasses turns.now hand.old }
    ensures firsts { AllZip HasFirst turns.now firsts.new }
    ensures joins { (i : ℕ)
        → JoinsAt (pass_at i firsts.old) (pass_at i hand.old ∷ []) (pass_at i firsts.new) }
{
    let Some((turn, turns)) = turns.split_first() else {
        return;
    };
    let Some((first, firsts)) = firsts.split_first_mut() else {
        return;
    };
    let Some((place, hand)) = hand.split_first_mut() else {
        return;
    };
    join_at(turn, first, place);
    join_each(turns, firsts, hand);
}

// Joins the passes of these hands back.
pub(crate) fn join_hands<T: Tail>(
    turns: &[Turn<Desk<T>>],
    firsts: &mut [Option<Pass<Item>>],
    hands: &mut [Hand],
)
    requires firsts { AllZip HasFirst turns.now firsts.old }
    requires hands { AllHands (HavePasses turns.now) hands.old }
    ensures firsts { AllZip HasFirst turns.now firsts.new }
    ensures joins { (i : ℕ)
        → JoinsAt (pass_at i firsts.old) (column i hands.old) (pass_at i firsts.new) }
{
    let Some((hand, others)) = hands.split_first_mut() else {
        return;
    };
    hand.join(turns, firsts);
    join_hands(turns, firsts, others);
}
