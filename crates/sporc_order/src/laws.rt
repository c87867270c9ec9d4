//! What holds of orders.

ghost use Rattle.std.specs.Prelude.{◌≡◌, ◌≤◌, ℕ, List, length, take, drop};
ghost use Rattle.std.specs.List.{flat_map};
ghost use Rattle.sporc_bytes.specs.Fields.{counted};
ghost use Rattle.sporc_wire.specs.declared.to_client.TheConstants.{MAX_PULLED};
ghost use Rattle.sporc_order.specs.Batches.{batch_after};
ghost use Rattle.sporc_order.specs.declared.order.TheConstants.{MAX_PULLED_BYTES};

/// The limit on the bytes of one answer, in numbers.
pub fn limits()
    ensures bytes { MAX_PULLED_BYTES ≡ 4194298 }
{}

/// What one answer holds is a prefix of the entries after the first `from`, within the limits on
/// their number and on their bytes, and the longest of those.
pub fn batches_are_longest()
    ensures prefix { (entries : List (List ℕ)) (from : ℕ)
        → batch_after entries from ≡ take (length (batch_after entries from)) (drop from entries) }
    ensures number_within { (entries : List (List ℕ)) (from : ℕ)
        → length (batch_after entries from) ≤ MAX_PULLED }
    ensures bytes_within { (entries : List (List ℕ)) (from : ℕ)
        → length (flat_map counted (batch_after entries from)) ≤ MAX_PULLED_BYTES }
    ensures longest { (entries : List (List ℕ)) (from n : ℕ) → n ≤ length (drop from entries)
        → n ≤ MAX_PULLED → length (flat_map counted (take n (drop from entries))) ≤ MAX_PULLED_BYTES
        → n ≤ length (batch_after entries from) }
{}
