//! Laws over the lines that tell of a history. Their functions do nothing.

ghost use Rattle.std.specs.Prelude.{◌≡◌, ℕ, List, [], fold, take};
ghost use Rattle.sporc_entry.specs.declared.genesis.Genesis.{Genesis};
ghost use Rattle.sporc_line.specs.Kit.{Kit};
ghost use Rattle.sporc_line.specs.Document.{text_of};
ghost use Rattle.sporc_line.specs.Good.{Good};
ghost use Rattle.sporc_report.specs.EntryLines.{committed, followed};

/// The text of a good history can be followed by the lines of its entries alone: the deltas that
/// the first `n` of them name, applied in their order from the empty text on, make the text after
/// `n` entries.
pub fn lines_tell_the_text()
    ensures { (genesis : Genesis) (kit : Kit) (entries : List (List ℕ)) (n : ℕ)
        → Good genesis kit entries → fold followed [] (take n (committed genesis kit entries))
        ≡ text_of genesis kit (take n entries) }
{}
