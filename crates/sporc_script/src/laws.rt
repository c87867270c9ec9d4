//! Laws over the definitions that contracts cite. Their functions do nothing.

ghost use Rattle.std.specs.Prelude.{◌≡◌, ◌^◌, ◌⊎◌, ℕ, List, Some};
ghost use Rattle.sporc_member.specs.declared.device.Device.{Device};
ghost use Rattle.sporc_script.specs.Grammar.{IsEditorFault, IsEditorScript, IsPlayFault};
ghost use Rattle.sporc_script.specs.Grammar.{IsPlayScript};
ghost use Rattle.sporc_script.specs.Readers.{device_of};
ghost use Rattle.sporc_script.specs.Spelling.{DeviceInRange, device_text};
ghost use Rattle.sporc_script.specs.declared.editor_line.EditorLine.{EditorLine};
ghost use Rattle.sporc_script.specs.declared.play_line.PlayLine.{PlayLine};

use crate::declared::MAX_DECLARED;
use crate::editor_line::KEY_BYTES;
use crate::limits::{MAX_EDITORS, MAX_GENERATED, MAX_SCRIPT_BYTES};

/// The limits of a script: its bytes, those whom it declares, and the bytes of a key; of a session
/// and of a generated run.
pub fn limits()
    ensures bytes { MAX_SCRIPT_BYTES ≡ 2 ^ 30 }
    ensures declared { MAX_DECLARED ≡ 64 }
    ensures key { KEY_BYTES ≡ 56 }
    ensures editors { MAX_EDITORS ≡ 8 }
    ensures generated { MAX_GENERATED ≡ 3000 }
{}

/// A word is read as a device exactly if it is how that device is printed.
pub fn devices_are_words()
    ensures read_again { (device : Device) → DeviceInRange device
        → device_of (device_text device) ≡ Some device }
    ensures written_so { (word : List ℕ) (device : Device) → device_of word ≡ Some device
        → DeviceInRange device × (word ≡ device_text device) }
{}

/// A text is a play script, or has a first line outside the grammar.
pub fn play_script_or_fault()
    ensures either { (text : List ℕ) → ((script : List PlayLine) × IsPlayScript text script)
        ⊎ ((line : ℕ) × IsPlayFault text line) }
{}

/// A text is one play script.
pub fn one_play_script()
    ensures one { (text : List ℕ) (script other : List PlayLine) → IsPlayScript text script
        → IsPlayScript text other → script ≡ other }
{}

/// A text has one first line outside the grammar of play scripts, and none if it is one.
pub fn one_play_fault()
    ensures one { (text : List ℕ) (line other : ℕ) → IsPlayFault text line → IsPlayFault text other
        → line ≡ other }
    ensures none { (text : List ℕ) (script : List PlayLine) (line : ℕ) → IsPlayScript text script
        → ¬ IsPlayFault text line }
{}

/// A text is an editor script, or has a first line outside the grammar.
pub fn editor_script_or_fault()
    ensures either { (text : List ℕ) → ((script : List EditorLine) × IsEditorScript text script)
        ⊎ ((line : ℕ) × IsEditorFault text line) }
{}

/// A text is one editor script.
pub fn one_editor_script()
    ensures one { (text : List ℕ) (script other : List EditorLine) → IsEditorScript text script
        → IsEditorScript text other → script ≡ other }
{}

/// A text has one first line outside the grammar of editor scripts, and none if it is one.
pub fn one_editor_fault()
    ensures one { (text : List ℕ) (line other : ℕ) → IsEditorFault text line
        → IsEditorFault text other → line ≡ other }
    ensures none { (text : List ℕ) (script : List EditorLine) (line : ℕ)
        → IsEditorScript text script → ¬ IsEditorFault text line }
{}
