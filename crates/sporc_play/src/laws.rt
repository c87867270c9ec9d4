//! Laws over the definitions that contracts cite. Their functions do nothing.

ghost use Rattle.std.specs.Prelude.{◌≡◌, ◌≤◌, ℕ, List, true};
ghost use Rattle.sporc_script.specs.Grammar.{IsPlayScript};
ghost use Rattle.sporc_script.specs.declared.play_line.PlayLine.{PlayLine};
ghost use Rattle.sporc_client.specs.Genuine.{Genuine};
ghost use Rattle.sporc_client.specs.Typed.{IsTypedRun};
ghost use Rattle.sporc_play.specs.Cast.{has_admin, setup_of};
ghost use Rattle.sporc_play.specs.Generated.{generated_cast, generated_commands};
ghost use Rattle.sporc_play.specs.Moves.{IsOneRun, moves_of};
ghost use Rattle.sporc_play.specs.OwnPlays.{AreByClients};
ghost use Rattle.sporc_play.specs.Scene.{commands_of};

use crate::playing::MAX_SCRIPT;
use sporc_script::MAX_GENERATED;

/// The limit of a script, in bytes.
pub fn limits()
    ensures script { MAX_SCRIPT ≡ 16777216 }
{}

/// A script's play is a run of the clients, who agree at any two of its moments. The values of its
/// moves have their types.
pub fn each_play_is_one_run()
    ensures run { (text : List ℕ) (script : List PlayLine) → IsPlayScript text script
        → has_admin script ≡ true → IsOneRun script (commands_of script) }
    ensures typed { (text : List ℕ) (script : List PlayLine) → IsPlayScript text script
        → has_admin script ≡ true
        → IsTypedRun (setup_of script) (moves_of script (commands_of script)) }
{}

/// No one forges in the play of a script with an admin and without `sign`, `flip` and `cut`: what a
/// client accepts under the key of a device of the run, a client with that key has signed.
pub fn each_play_of_clients_is_genuine()
    ensures genuine { (text : List ℕ) (script : List PlayLine) → IsPlayScript text script
        → has_admin script ≡ true → AreByClients script
        → Genuine (setup_of script) (moves_of script (commands_of script)) }
{}

/// The generated run is a run as well, and no one forges in it.
pub fn the_generated_run_is_one()
    ensures run { (n : ℕ) → n ≤ MAX_GENERATED → IsOneRun generated_cast (generated_commands n) }
    ensures typed { (n : ℕ) → n ≤ MAX_GENERATED
        → IsTypedRun (setup_of generated_cast) (moves_of generated_cast (generated_commands n)) }
    ensures genuine { (n : ℕ) → n ≤ MAX_GENERATED
        → Genuine (setup_of generated_cast) (moves_of generated_cast (generated_commands n)) }
{}
