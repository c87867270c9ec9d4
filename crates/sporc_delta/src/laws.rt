//! What holds of every delta and its bytes.

ghost use Rattle.std.specs.Prelude.{◌≡◌, ◌^◌, ℕ, List, Ok};
ghost use Rattle.sporc_base.specs.Bytes.{IsBytes};
ghost use Rattle.sporc_delta.specs.Format.{Spells, kind_byte};
ghost use Rattle.sporc_delta.specs.declared.limits.TheConstants.{MAX_COUNT, MAX_DELTA_BYTES};
ghost use Rattle.sporc_delta.specs.declared.limits.TheConstants.{MAX_TEXT_LEN};
ghost use Rattle.sporc_delta.specs.declared.part.Kind.TheVariants as kinds;
ghost use Rattle.sporc_delta.specs.Marks.{Mark};
ghost use Rattle.sporc_delta.specs.Parts.{AreRuns, marks_of, runs};
ghost use Rattle.sporc_delta.specs.declared.part.Part.{Part};
ghost use Rattle.sporc_delta.specs.Reading.{read_delta};

/// What is read is spelled so, each byte of it, and what is spelled so is read: a delta has one
/// spelling.
pub fn reading_undoes_spelling()
    ensures spelled { (bytes : List ℕ) (ms : List Mark) → IsBytes bytes → read_delta bytes ≡ Ok ms
        → Spells ms bytes }
    ensures read { (bytes : List ℕ) (ms : List Mark) → Spells ms bytes → read_delta bytes ≡ Ok ms }
{}

/// The runs of marks are a list of parts with these marks, in which no part is empty and no two
/// neighbours are of one kind, and no other list is.
pub fn one_list_of_parts_has_these_marks()
    ensures are_runs { (ms : List Mark) → AreRuns (runs ms) }
    ensures marks { (ms : List Mark) → marks_of (runs ms) ≡ ms }
    ensures no_other { (ps : List Part) → AreRuns ps → runs (marks_of ps) ≡ ps }
{}

/// The numbers of the format: the byte of each kind of part, and the limits.
pub fn numbers_of_the_format()
    ensures keep { kind_byte kinds.Keep ≡ 1 }
    ensures insert { kind_byte kinds.Insert ≡ 2 }
    ensures remove { kind_byte kinds.Remove ≡ 3 }
    ensures max_count { MAX_COUNT ≡ 2 ^ 40 }
    ensures max_text_len { MAX_TEXT_LEN ≡ 2 ^ 60 }
    ensures max_delta_bytes { MAX_DELTA_BYTES ≡ 4194304 }
{}
