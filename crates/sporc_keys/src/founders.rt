//! The founders of a document.

ghost use Rattle.std.specs.Prelude.{◌≡◌, ◌++◌, [], ◌∷◌, IfOk, OnOk, filter_map};
ghost use Rattle.std.specs.List.{AllByRecursion};
ghost use Rattle.sporc_keys.specs.Founding.{IsKnownKey, founder_in, founders_in, genesis_of};

use crate::named::Named;
use sporc_base::Memory;
use sporc_entry::{Founders, Genesis};
use sporc_hash::commit;
use sporc_member::Founder;
use std::alloc::Global;

// The genesis of a document by the key of its epoch 0.
pub(crate) fn genesis_of(
    alloc: Global,
    document: [u8; 16],
    key: &[u8; 32],
    named: &[Named],
) -> Result<Genesis, Memory>
    ensures value { IfOk result (λ genesis. genesis ≡ genesis_of document key.now named.now) }
    ensures keys { IfOk result (λ genesis. AllByRecursion IsKnownKey genesis.founders) }
{
    let founders = founders_of(alloc, named)?;
    Ok(Genesis {
        document,
        commitment: commit(&document, 0, key),
        founders: Founders::new(founders),
    })
}

// The founders among those who are named.
fn founders_of(alloc: Global, named: &[Named]) -> Result<Vec<Founder>, Memory>
    ensures value { IfOk result (λ founders. founders.items ≡ founders_in named.now) }
    ensures keys { IfOk result (λ founders. AllByRecursion IsKnownKey founders.items) }
{
    let mut founders = Vec::new(alloc);
    for one in named {
        put_founder(&mut founders, one)?;
    }
    Ok(founders)
}

// Appends one who is named, if it is a founder.
fn put_founder(founders: &mut Vec<Founder>, one: &Named) -> Result<(), Memory>
    ensures value { OnOk result
        (founders.new.items ≡ founders.old.items ++ filter_map founder_in (one.now ∷ [])) }
    ensures keys { OnOk result (AllByRecursion IsKnownKey founders.old.items
        → AllByRecursion IsKnownKey founders.new.items) }
{
    match one.founder() {
        None => Ok(()),
        Some(founder) => {
            founders.push(founder)?;
            Ok(())
        }
    }
}
