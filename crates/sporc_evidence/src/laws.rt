//! Laws of summaries: what is written reads back, what reads is written so, and what a judgment
//! shows of the histories.

ghost use Rattle.std.specs.Prelude.{◌≡◌, ◌^◌, ◌<◌, ℕ, List, length, Ok};
ghost use Rattle.sporc_base.specs.Bytes.{IsBytes};
ghost use Rattle.sporc_hash.specs.Chain.{chain};
ghost use Rattle.sporc_hash.specs.Verdict.{IsVerdictOn};
ghost use Rattle.sporc_hash.specs.declared.verdict.Verdict.{Verdict};
ghost use Rattle.sporc_member.specs.declared.device.Device.{Device};
ghost use Rattle.sporc_entry.specs.declared.genesis.Genesis.{Genesis};
ghost use Rattle.sporc_entry.specs.Genesis.{genesis_bytes};
ghost use Rattle.sporc_client.specs.Run.{Move, Setup};
ghost use Rattle.sporc_evidence.specs.declared.judging.Judged.TheVariants.{Consistent, Forked};
ghost use Rattle.sporc_evidence.specs.Forks.{AreApart, IsChainPrefix, PartAfter};
ghost use Rattle.sporc_evidence.specs.Genuine.{IsGenuine};
ghost use Rattle.sporc_evidence.specs.Judging.{judged};
ghost use Rattle.sporc_evidence.specs.Summary.{IsSummary, SummaryModel};
ghost use Rattle.sporc_evidence.specs.SummaryBytes.{summary_file, summary_in};

/// Each summary in range is read again from its file, with its signature, and bytes that read are
/// the file of the summary and the signature that were read.
pub fn summary_and_its_bytes()
    ensures read_again { (x : SummaryModel) (signature : List ℕ) → IsSummary x
        → length signature < 2 ^ 32 → summary_in (summary_file x signature) ≡ Ok (x, signature) }
    ensures written_so { (bytes : List ℕ) (x : SummaryModel) (signature : List ℕ) → IsBytes bytes
        → summary_in bytes ≡ Ok (x, signature)
        → IsSummary x × (bytes ≡ summary_file x signature) }
{}

/// What a judgment on two summaries shows of the histories behind them.
pub fn forks_are_shown()
    // Where it is `Forked`, no history's chain has both lists of values as prefixes.
    ensures no_history { (genesis : Genesis) (entries a b : List (List ℕ)) (after : ℕ)
        (left right : List ℕ) → judged a b ≡ Forked after left right
        → IsChainPrefix genesis entries a → IsChainPrefix genesis entries b → ⊥ }
    // If clients of a run made both, two entries were offered for one position.
    ensures two_entries { (s : Setup) (moves : List Move) (i j : Device) (x y : SummaryModel)
        (after : ℕ) (left right : List ℕ) → (p : IsGenuine s moves i x)
        → (q : IsGenuine s moves j y) → AreApart s.genesis p.client.entries q.client.entries
        → judged x.hashes y.hashes ≡ Forked after left right
        → PartAfter after p.client.entries q.client.entries }
    // Where it is `Consistent` then, one history is a prefix of the other, as the verdict says.
    ensures one_history { (s : Setup) (moves : List Move) (i j : Device) (x y : SummaryModel)
        (verdict : Verdict) → (p : IsGenuine s moves i x) → (q : IsGenuine s moves j y)
        → AreApart s.genesis p.client.entries q.client.entries
        → judged x.hashes y.hashes ≡ Consistent verdict
        → IsVerdictOn p.client.entries q.client.entries verdict }
    // Whoever signed: if each list is the chain of a history, two entries were offered as well. So
    // else one of the two who signed signed a list that it never held.
    ensures whoever_signed { (genesis : Genesis) (p q a b : List (List ℕ)) (after : ℕ)
        (left right : List ℕ) → a ≡ chain (genesis_bytes genesis) p
        → b ≡ chain (genesis_bytes genesis) q → AreApart genesis p q
        → judged a b ≡ Forked after left right → PartAfter after p q }
{}
