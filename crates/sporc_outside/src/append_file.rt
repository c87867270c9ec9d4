//! Files that are appended to, and what a crash leaves of them.

ghost use Rattle.std.specs.Prelude.{◌≡◌, ◌++◌, ◌≤◌, ℕ, List, Some, length, take, option_map, IfOk};
ghost use Rattle.std.specs.Prelude.{IfErr, IfSome, IsSome, OnOk, OnErr};
ghost use Rattle.sporc_outside.specs.Counts.{CountsFaults};
ghost use Rattle.sporc_outside.specs.AppendFile.{AppendTold, FileSteps, GrowsBy, IsWholeFault};
ghost use Rattle.sporc_outside.specs.AppendFile.{MayBeCut, file_images};
ghost use Rattle.sporc_outside.specs.LeafDisk.{IsSame, TakesTime};
ghost use Rattle.sporc_outside.specs.Told.{GoesTold};
ghost use Rattle.sporc_outside.specs.Uses.{use_of};
ghost use Rattle.sporc_outside.specs.declared.file_fault.TheConstants.{MAX_FILE};

use crate::counted::{Counted, Failed};
use crate::file_fault::FileFault;
use std::alloc::Global;

/// A file that is appended to: what a read gives, and what a crash may leave. A crash takes away
/// nothing that was there at the last sync that succeeded; of the bytes that were appended since it
/// may leave any prefix.
///
/// A file may tell contracts its bytes, or not tell them, as a real one does. Its time goes by as
/// that of a [`LeafDisk`](crate::LeafDisk) does.
pub trait AppendFile: Counted {
    // What it tells.
    ghost told: { Self → AppendTold };

    /// All of its bytes.
    fn read_whole(&mut self, alloc: Global) -> Result<Vec<u8>, FileFault>
        ensures bytes { IfOk result
            (λ bytes. IfSome (told self.old).stored (λ stored. bytes.items ≡ stored)) }
        ensures within { IfOk result (λ bytes. length bytes.items ≤ MAX_FILE) }
        ensures err { IfErr result
            (IsWholeFault (told self.old).stored (told self.old).faults (told self.new).faults) }
        ensures stored { (told self.new).stored ≡ (told self.old).stored }
        ensures name { (told self.new).name ≡ (told self.old).name }
        ensures images { FileSteps (use_of told self.old self.new) IsSame }
        ensures kept { (told self.old).faults ≤ (told self.new).faults };

    /// Writes the bytes behind the last one, if the file then has no more than
    /// [`MAX_FILE`](crate::MAX_FILE); else it fails.
    fn append(&mut self, bytes: &[u8]) -> Result<(), Failed>
        ensures appended { OnOk result
            ((told self.new).stored ≡ option_map (λ old. old ++ bytes.now) (told self.old).stored) }
        ensures within { OnOk result
            (IfSome (told self.new).stored (λ new. length new ≤ MAX_FILE)) }
        ensures prefix { OnErr result
            (GoesTold (GrowsBy bytes.now) (told self.old).stored (told self.new).stored) }
        ensures name { (told self.new).name ≡ (told self.old).name }
        ensures images { FileSteps (use_of told self.old self.new) (GrowsBy bytes.now) }
        ensures time { OnOk result
            (TakesTime (told self.old).stored (told self.old).moment (told self.new).moment) }
        ensures count { CountsFaults (told self.old).faults (told self.new).faults result };

    /// Takes away all bytes but the first `len`.
    fn cut(&mut self, len: u64) -> Result<(), Failed>
        requires { IfSome (told self.old).stored (λ bytes. len ≤ length bytes) }
        ensures cut { OnOk result
            ((told self.new).stored ≡ option_map (λ old. take len old) (told self.old).stored) }
        ensures uncut { OnErr result
            (GoesTold (MayBeCut len) (told self.old).stored (told self.new).stored) }
        ensures name { (told self.new).name ≡ (told self.old).name }
        ensures images { FileSteps (use_of told self.old self.new) (MayBeCut len) }
        ensures time { OnOk result
            (TakesTime (told self.old).stored (told self.old).moment (told self.new).moment) }
        ensures count { CountsFaults (told self.old).faults (told self.new).faults result };

    /// Brings what was appended and cut to where no crash undoes it.
    fn sync(&mut self) -> Result<(), Failed>
        ensures durable { OnOk result ((image : List ℕ) → file_images (told self.new) image
            → (told self.new).stored ≡ Some image) }
        ensures stored { (told self.new).stored ≡ (told self.old).stored }
        ensures name { (told self.new).name ≡ (told self.old).name }
        ensures images { FileSteps (use_of told self.old self.new) IsSame }
        ensures time { OnOk result
            (TakesTime (told self.old).stored (told self.old).moment (told self.new).moment) }
        ensures count { CountsFaults (told self.old).faults (told self.new).faults result };

    // What a read gives is one of the images.
    ghost stored_is_image: { (file : Self) → IfSome (told file).stored (file_images (told file)) };

    // A file that tells no bytes tells no images.
    ghost images_are_told: { (file : Self) (image : List ℕ)
        → file_images (told file) image → IsSome (told file).stored };

    // The faults that it tells are those that it counts.
    ghost faults_are_told: { (file : Self) → (told file).faults ≡ Self.faults file };
}
