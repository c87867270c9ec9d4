//! Laws of the formats: what is written reads back, what reads is written so, and where faults are;
//! the limits and kinds in numbers.

ghost use Rattle.std.specs.Prelude.{◌≡◌, ℕ, ◌+◌, ◌≤◌, List, length, Some, Ok, Err};
ghost use Rattle.sporc_base.specs.Bytes.{IsBytes};
ghost use Rattle.sporc_entry.specs.declared.header.TheConstants.{EDIT, CHANGE};
ghost use Rattle.sporc_entry.specs.declared.limits.TheConstants.{HIGHEST_MEMBER, MAX_EDIT_BODY};
ghost use Rattle.sporc_entry.specs.declared.limits.TheConstants.{MAX_CHANGE_BODY, MAX_SIGNATURE};
ghost use Rattle.sporc_entry.specs.declared.limits.TheConstants.{MAX_ENTRY};
ghost use Rattle.sporc_entry.specs.declared.version.TheConstants.{FIRST_VERSION, DEVICES_VERSION};
ghost use Rattle.sporc_entry.specs.declared.change.ChangeBody.{ChangeBody};
ghost use Rattle.sporc_entry.specs.declared.entry.Entry.{Entry};
ghost use Rattle.sporc_entry.specs.declared.genesis.Genesis.{Genesis};
ghost use Rattle.sporc_entry.specs.ChangeBody.{change_body_from, change_body_bytes, IsChangeBody};
ghost use Rattle.sporc_entry.specs.Entry.{entry_of, entry_bytes, change_of, IsEntry};
ghost use Rattle.sporc_entry.specs.Genesis.{genesis_of, genesis_bytes, IsGenesis};
ghost use Rattle.sporc_entry.specs.Version.{body_place};

use crate::fault::GenesisFault;

/// Each entry in range is read again from its bytes, and bytes that read are those of the entry
/// read.
pub fn entry_and_its_bytes()
    ensures read_again { (e : Entry) → IsEntry e → entry_of (entry_bytes e) ≡ Ok e }
    ensures written_so { (bytes : List ℕ) (e : Entry) → IsBytes bytes
        → entry_of bytes ≡ Ok e → IsEntry e × (bytes ≡ entry_bytes e) }
{}

/// Each body of a change in range is read again from its bytes in an entry of a version that has
/// its kind, wherever they stand, and bytes that read are those of the body read.
pub fn change_and_its_bytes()
    ensures read_again { (version at : ℕ) (c : ChangeBody) → IsChangeBody version c
        → change_body_from version at (change_body_bytes c) ≡ Ok c }
    ensures written_so { (version at : ℕ) (bytes : List ℕ) (c : ChangeBody) → IsBytes bytes
        → change_body_from version at bytes ≡ Ok c
        → IsChangeBody version c × (bytes ≡ change_body_bytes c) }
{}

/// Each genesis in range is read again from its bytes, and bytes that read are those of the genesis
/// read.
pub fn genesis_and_its_bytes()
    ensures read_again { (g : Genesis) → IsGenesis g → genesis_of (genesis_bytes g) ≡ Ok g }
    ensures written_so { (bytes : List ℕ) (g : Genesis) → IsBytes bytes
        → genesis_of bytes ≡ Ok g → IsGenesis g × (bytes ≡ genesis_bytes g) }
{}

/// An entry in range that is a change has the body of one.
pub fn change_of_an_entry()
    ensures { (e : Entry) → IsEntry e → e.header.kind ≡ 2
        → (c : ChangeBody) × IsChangeBody e.header.version c × (change_of e ≡ Some c) }
{}

/// The place of a fault is within the bytes that are read, or just behind them.
pub fn place_of_a_fault()
    ensures entry { (bytes : List ℕ) (at : ℕ) → entry_of bytes ≡ Err at → at ≤ length bytes }
    ensures change { (version first : ℕ) (bytes : List ℕ) (at : ℕ)
        → change_body_from version first bytes ≡ Err at → at ≤ first + length bytes }
    ensures genesis { (bytes : List ℕ) (at : ℕ) → genesis_of bytes ≡ Err (GenesisFault.Malformed at)
        → at ≤ length bytes }
{}

/// The limits and the kinds of entries, in numbers.
pub fn limits()
    ensures member { HIGHEST_MEMBER ≡ 65535 }
    ensures body { (body_place FIRST_VERSION ≡ 72) × (body_place DEVICES_VERSION ≡ 73) }
    ensures edit { MAX_EDIT_BODY ≡ 1048576 }
    ensures change { MAX_CHANGE_BODY ≡ 65536 }
    ensures signature { MAX_SIGNATURE ≡ 9324 }
    ensures whole { MAX_ENTRY ≡ 1057977 }
    ensures edit_kind { EDIT ≡ 1 }
    ensures change_kind { CHANGE ≡ 2 }
    ensures versions { (FIRST_VERSION ≡ 1) × (DEVICES_VERSION ≡ 2) }
{}
