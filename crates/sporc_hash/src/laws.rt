//! Laws of the chain.

ghost use Rattle.std.specs.Prelude.{◌≡◌, ℕ, List, ◌++◌, take};
ghost use Rattle.sporc_hash.specs.Chain.{last_value};
ghost use Rattle.sporc_hash.specs.Strings.{CollisionFree, chain_strings};

/// Two histories of one genesis whose chains end in one value are one history, if no two different
/// strings hashed for them have one digest.
pub fn one_value_one_history()
    ensures { (genesis : List ℕ) (a b : List (List ℕ))
        → CollisionFree (chain_strings genesis a ++ chain_strings genesis b)
        → last_value genesis a ≡ last_value genesis b → a ≡ b }
{}

/// Two prefixes of histories of one genesis whose chains end in one value are one prefix, if no two
/// different strings hashed for the histories have one digest.
pub fn one_value_one_prefix()
    ensures { (genesis : List ℕ) (a b : List (List ℕ)) (m n : ℕ)
        → CollisionFree (chain_strings genesis a ++ chain_strings genesis b)
        → last_value genesis (take m a) ≡ last_value genesis (take n b) → take m a ≡ take n b }
{}
