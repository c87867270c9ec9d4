//! Laws of the files, and of what a document begins with.

ghost use Rattle.std.specs.Prelude.{◌≡◌, ℕ, List, length, Contains, Err, Ok, false};
ghost use Rattle.std.specs.List.Sorted.{IsStrictlyIncreasing};
ghost use Rattle.sporc_base.specs.Bytes.{IsBytes};
ghost use Rattle.sporc_member.specs.Device.{same_device};
ghost use Rattle.sporc_member.specs.declared.device.Device.{Device};
ghost use Rattle.sporc_keys.specs.declared.key_file.KeyFile.{KeyFile};
ghost use Rattle.sporc_keys.specs.declared.ring_file.RingFile.{RingFile};
ghost use Rattle.sporc_keys.specs.declared.pair.SharedKey.{SharedKey};
ghost use Rattle.sporc_keys.specs.Founding.{key_with, pair_keys_of, pairs_of, shared_keys};
ghost use Rattle.sporc_keys.specs.KeyFile.{IsKeyFile, key_file_bytes, key_file_of, place_of_other};
ghost use Rattle.sporc_keys.specs.RingFile.{IsRingFile, members_of, ring_file_in, ring_file_bytes};

/// Each key file in range is read again from its bytes as that of its device, and bytes that read
/// are those of the file read. The key file of another device is malformed: at 0 if the one device
/// is a member's first and the other is not, at 4 if they are of different members, else at 6.
pub fn key_file_and_its_bytes()
    ensures read_again { (k : KeyFile) → IsKeyFile k
        → key_file_of k.device (key_file_bytes k) ≡ Ok k }
    ensures written_so { (device : Device) (bytes : List ℕ) (k : KeyFile) → IsBytes bytes
        → key_file_of device bytes ≡ Ok k
        → IsKeyFile k × (k.device ≡ device) × (bytes ≡ key_file_bytes k) }
    ensures others { (device : Device) (k : KeyFile) → IsKeyFile k
        → same_device device k.device ≡ false
        → key_file_of device (key_file_bytes k) ≡ Err (place_of_other device k.device) }
{}

/// Each ring file in range is read again from its bytes, and bytes that read are those of the file
/// read.
pub fn ring_file_and_its_bytes()
    ensures read_again { (f : RingFile) → IsRingFile f → ring_file_in (ring_file_bytes f) ≡ Ok f }
    ensures written_so { (bytes : List ℕ) (f : RingFile) → IsBytes bytes → ring_file_in bytes ≡ Ok f
        → IsRingFile f × (bytes ≡ ring_file_bytes f) }
{}

/// The key that two have of some pairs is one: each has it under the other's number.
pub fn two_share_one_key()
    ensures one { (one other : ℕ) (shared : List SharedKey)
        → key_with other (pair_keys_of one shared) ≡ key_with one (pair_keys_of other shared) }
{}

/// Who is among ascending numbers has a key with each of them, in their order, and no other.
pub fn rings_name_all()
    ensures members { (all : List ℕ) (words : List (List ℕ)) (member : ℕ)
        → IsStrictlyIncreasing all → length words ≡ length (pairs_of all) → Contains all member
        → members_of (pair_keys_of member (shared_keys all words)) ≡ all }
{}
