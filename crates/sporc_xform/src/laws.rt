//! The laws of the transforms, over every delta and text.

ghost use Rattle.std.specs.Prelude.{◌≡◌, ℕ, List, length};
ghost use Rattle.sporc_delta.specs.Marks.{Mark, apply, base_len, keep_marks, out_len};
ghost use Rattle.sporc_delta.specs.Transforms.{compose, earlier, later, merge};

/// Two deltas over one text lead to one text in both orders, each restated behind the other: the
/// text of both merged. This is TP1 of operational transformation. TP2 isn't needed: a server puts
/// all entries in one order, so that no delta passes two others in different orders.
pub fn both_orders_lead_to_one_text()
    ensures later { (p q : List Mark) (s : List ℕ) → base_len p ≡ length s → base_len q ≡ length s
        → apply (later q p) (apply p s) ≡ merge p q s }
    ensures earlier { (p q : List Mark) (s : List ℕ) → base_len p ≡ length s → base_len q ≡ length s
        → apply (earlier p q) (apply q s) ≡ merge p q s }
    ensures same { (p q : List Mark) (s : List ℕ) → base_len p ≡ length s → base_len q ≡ length s
        → apply (later q p) (apply p s) ≡ apply (earlier p q) (apply q s) }
{}

/// A composition leads where its two deltas lead in turn.
pub fn a_composition_leads_like_both_deltas()
    ensures value { (p q : List Mark) (s : List ℕ) → base_len p ≡ length s → out_len p ≡ base_len q
        → apply (compose p q) s ≡ apply q (apply p s) }
{}

/// A delta restated behind two in one is that delta restated behind each of them in turn.
pub fn a_composition_is_passed_like_both_deltas()
    ensures same { (p r q : List Mark) → out_len p ≡ base_len r
        → later q (compose p r) ≡ later (later q p) r }
{}

/// Of three deltas that follow one another it doesn't matter which two are put together first. It
/// holds mark by mark, and not of the texts alone.
pub fn compositions_are_associative()
    ensures same { (p q r : List Mark) → out_len p ≡ base_len q → out_len q ≡ base_len r
        → compose (compose p q) r ≡ compose p (compose q r) }
{}

/// A delta that keeps all characters adds nothing to one that follows it, or to one before it.
pub fn a_kept_text_adds_nothing()
    ensures before { (q : List Mark) → compose (keep_marks (base_len q)) q ≡ q }
    ensures after { (p : List Mark) → compose p (keep_marks (out_len p)) ≡ p }
{}
