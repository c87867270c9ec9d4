//! Laws over what the commands did. Their functions do nothing.

ghost use Rattle.std.specs.Prelude.{◌≡◌, ℕ, List, Some};
ghost use Rattle.sporc_outside.specs.declared.named_file.NamedFile.{NamedFile};
ghost use Rattle.sporc_keys.specs.declared.new_key.NewKey.{NewKey};
ghost use Rattle.sporc_words.specs.declared.public.Public.{Public};
ghost use Rattle.sporc_commands.specs.KeyMaking.{key_line};
ghost use Rattle.sporc_commands.specs.KeyShowing.{HasNewKey, IsLineOf};

/// Where the key file of a new key stands, the line that `public` prints is the one that `keygen`
/// printed of the key.
pub fn public_prints_the_line_of_keygen()
    ensures line { (asked : Public) (key : NewKey) (told : List NamedFile) (line : List ℕ)
        → HasNewKey told asked key → IsLineOf asked (Some told) line
        → line ≡ key_line key.public }
{}
