//! Laws of sealed keys.

ghost use Rattle.std.specs.Prelude.{◌≡◌, ◌≢◌, ℕ, ◌+◌, ◌-◌, ◌<◌, ◌≤◌, ◌^◌, map, Ok, Some, Contains};
ghost use Rattle.std.specs.FinMap.{get};
ghost use Rattle.sporc_member.specs.declared.device.Device.{Device};
ghost use Rattle.sporc_entry.specs.declared.change.ChangeBody.{ChangeBody};
ghost use Rattle.sporc_entry.specs.ChangeBody.{IsChangeBody};
ghost use Rattle.sporc_epoch.specs.declared.streams.TheConstants.{MAX_EPOCH};
ghost use Rattle.sporc_epoch.specs.Keys.{Keys};
ghost use Rattle.sporc_epoch.specs.Sealing.{IsSealing, Sealing, change_sealed};
ghost use Rattle.sporc_epoch.specs.Streams.{entry_stream, previous_stream};
ghost use Rattle.sporc_epoch.specs.Wraps.{previous_opened, wrap_opened};

/// The limit in numbers.
pub fn limits()
    ensures epoch { MAX_EPOCH ≡ 2 ^ 32 - 1 }
{}

/// No two entries have one stream, by the devices that sign them and their leaves, nor has an entry
/// the stream of a sealed key of an epoch that ended; and each stream has a number of 64 bits.
pub fn streams_do_not_meet()
    ensures entries { (a b : Device) (l m : ℕ) → a.number < 2 ^ 8 → b.number < 2 ^ 8 → l < 2 ^ 32
        → m < 2 ^ 32 → entry_stream a l ≡ entry_stream b m → (a ≡ b) × (l ≡ m) }
    ensures epochs { (e f : ℕ) → previous_stream e ≡ previous_stream f → e ≡ f }
    ensures apart { (d : Device) (l e : ℕ) → d.member < 2 ^ 16 → d.number < 2 ^ 8 → l < 2 ^ 32
        → entry_stream d l ≢ previous_stream e }
    ensures entry_fits { (d : Device) (l : ℕ) → d.member < 2 ^ 16 → d.number < 2 ^ 8 → l < 2 ^ 32
        → entry_stream d l < 2 ^ 64 }
    ensures epoch_fits { (e : ℕ) → e ≤ MAX_EPOCH → previous_stream e < 2 ^ 64 }
{}

/// What the author of a change seals, each member opens who holds the same pairwise key, and the
/// new key opens the key of the epoch before.
pub fn sealed_keys_open()
    ensures new { (s : Sealing) (pairs mine : Keys) (body : ChangeBody) (author m : ℕ)
        → change_sealed s pairs ≡ Ok body → Contains s.members m → get mine author ≡ get pairs m
        → wrap_opened body author s.stream m mine ≡ Some s.new }
    ensures previous { (s : Sealing) (pairs : Keys) (body : ChangeBody)
        → change_sealed s pairs ≡ Ok body → previous_opened body (s.epoch + 1) s.new ≡ s.old }
{}

/// The wraps of a sealed change name exactly the members that it was sealed for, in their order.
pub fn wraps_name_the_members()
    ensures value { (s : Sealing) (pairs : Keys) (body : ChangeBody)
        → change_sealed s pairs ≡ Ok body → map (λ w. w.member) body.wraps ≡ s.members }
{}

/// The body of a sealed change has a spelling in each version that has its kind, which is read
/// again, if the change has one, its keys have 32 bytes, and it is sealed for at most as many
/// members as a document can have.
pub fn sealed_changes_are_spelled()
    ensures spelled { (version : ℕ) (s : Sealing) (pairs : Keys) (body : ChangeBody)
        → change_sealed s pairs ≡ Ok body → IsSealing version s → IsChangeBody version body }
{}
