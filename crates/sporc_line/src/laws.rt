//! Laws of histories as members read them.

ghost use Rattle.std.specs.Prelude.{◌≡◌, ℕ, ◌^◌, List, [], ◌∷◌, ◌++◌};
ghost use Rattle.sporc_entry.specs.declared.genesis.Genesis.{Genesis};
ghost use Rattle.sporc_line.specs.Kit.{Kit};
ghost use Rattle.sporc_line.specs.Operations.{operations};
ghost use Rattle.sporc_delta.specs.Marks.{apply};
ghost use Rattle.sporc_line.specs.Document.{forms_of, next_form, text_of};
ghost use Rattle.sporc_line.specs.Good.{Good, GoodForBoth, HaveSameKeys, PassesNext};
ghost use Rattle.sporc_line.specs.Good.{RemovesNeither};
ghost use Rattle.sporc_line.specs.declared.limits.TheConstants.{MAX_COMMITTED_LEN};

/// The limit in numbers.
pub fn limits()
    ensures committed { MAX_COMMITTED_LEN ≡ 2 ^ 35 }
{}

/// Two members with one good history read the same operations, the same text and, where it removes
/// neither of them, the same key of each epoch, whatever keys they began with, where no two
/// different strings hashed for them have one digest.
pub fn one_history_is_read_alike()
    ensures operations { (genesis : Genesis) (mine yours : Kit) (entries : List (List ℕ))
        → GoodForBoth genesis mine yours entries
        → operations genesis mine entries ≡ operations genesis yours entries }
    ensures text { (genesis : Genesis) (mine yours : Kit) (entries : List (List ℕ))
        → GoodForBoth genesis mine yours entries
        → text_of genesis mine entries ≡ text_of genesis yours entries }
    ensures keys { (genesis : Genesis) (mine yours : Kit) (entries : List (List ℕ))
        → GoodForBoth genesis mine yours entries → RemovesNeither mine yours entries
        → HaveSameKeys genesis mine yours entries }
{}

/// A good history stays good with one entry more that fails no check, and has the entry's form at
/// the end of its forms and that form applied to its text.
pub fn one_entry_more()
    ensures good { (genesis : Genesis) (kit : Kit) (entries : List (List ℕ)) (bytes : List ℕ)
        → Good genesis kit entries → PassesNext genesis kit entries bytes
        → Good genesis kit (entries ++ bytes ∷ []) }
    ensures forms { (genesis : Genesis) (kit : Kit) (entries : List (List ℕ)) (bytes : List ℕ)
        → Good genesis kit (entries ++ bytes ∷ []) → forms_of genesis kit (entries ++ bytes ∷ [])
        ≡ forms_of genesis kit entries ++ next_form genesis kit entries bytes ∷ [] }
    ensures text { (genesis : Genesis) (kit : Kit) (entries : List (List ℕ)) (bytes : List ℕ)
        → Good genesis kit (entries ++ bytes ∷ []) → text_of genesis kit (entries ++ bytes ∷ [])
        ≡ apply (next_form genesis kit entries bytes) (text_of genesis kit entries) }
{}
