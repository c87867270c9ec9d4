//! Random words.

ghost use Rattle.std.specs.Prelude.{◌≡◌, IfOk, OnErr};
ghost use Rattle.sporc_outside.specs.Chances.{ChanceTold};
ghost use Rattle.sporc_outside.specs.Counts.{CountsFaults};
ghost use Rattle.sporc_outside.specs.Told.{AppendsItem};

use crate::counted::{Counted, Failed};

/// Gives random words of 32 bytes.
pub trait Chance: Counted {
    // What it tells.
    ghost told: { Self → ChanceTold };

    /// A random word.
    fn fill32(&mut self) -> Result<[u8; 32], Failed>
        ensures ok { IfOk result
            (λ word. AppendsItem (told self.old).given (told self.new).given word) }
        ensures err { OnErr result ((told self.new).given ≡ (told self.old).given) }
        ensures count { CountsFaults (told self.old).faults (told self.new).faults result };

    // The faults that it tells are those that it counts.
    ghost faults_are_told: { (chance : Self) → (told chance).faults ≡ Self.faults chance };
}
