//! Disks of leaf files, and what a crash leaves of them.

ghost use Rattle.std.specs.Prelude.{◌≡◌, ◌+◌, ◌≤◌, ℕ, List, Some, length, take, drop, option_map};
ghost use Rattle.std.specs.Prelude.{IfOk, IfSome, IsSome, OnOk};
ghost use Rattle.sporc_outside.specs.Counts.{CountsFaults};
ghost use Rattle.sporc_outside.specs.LeafDisk.{DiskTold, overwrite, IsSame, IsSameOutside};
ghost use Rattle.sporc_outside.specs.LeafDisk.{KeepsOutside, DiskSteps, TakesTime, disk_images};
ghost use Rattle.sporc_outside.specs.Uses.{use_of};

use crate::counted::{Counted, Failed};

/// A file of fixed length, as one that numbers its leaves sees it: what a read gives, and what a
/// crash may leave. Bytes that were written since the last sync that succeeded may be anything
/// after a crash; all others stay.
///
/// A disk may tell contracts its bytes, or not tell them, as a real file does. Time goes by in
/// moments, of which a call has one or more, so that contracts can speak of a crash inside a call.
/// A call that succeeds ends at a later moment than it began, so that contracts can say which of
/// two calls came first.
pub trait LeafDisk: Counted {
    // What it tells.
    ghost told: { Self → DiskTold };

    /// The length in bytes, which no call changes.
    fn len(&mut self) -> Result<u64, Failed>
        ensures value { IfOk result
            (λ n. IfSome (told self.old).stored (λ bytes. n ≡ length bytes)) }
        ensures stored { (told self.new).stored ≡ (told self.old).stored }
        ensures images { DiskSteps (use_of told self.old self.new) IsSame }
        ensures time { OnOk result
            (TakesTime (told self.old).stored (told self.old).moment (told self.new).moment) }
        ensures count { CountsFaults (told self.old).faults (told self.new).faults result };

    /// Fills the buffer with the bytes from `at` on.
    fn read(&mut self, at: u64, buf: &mut [u8]) -> Result<(), Failed>
        requires { IfSome (told self.old).stored (λ bytes. at + length buf.old ≤ length bytes) }
        ensures bytes { OnOk result (IfSome (told self.old).stored (λ bytes.
            buf.new ≡ take (length buf.old) (drop at bytes))) }
        ensures stored { (told self.new).stored ≡ (told self.old).stored }
        ensures images { DiskSteps (use_of told self.old self.new) IsSame }
        ensures time { OnOk result
            (TakesTime (told self.old).stored (told self.old).moment (told self.new).moment) }
        ensures count { CountsFaults (told self.old).faults (told self.new).faults result };

    /// Writes the bytes over those from `at` on. After a write that failed a read may give anything
    /// there.
    fn write_at(&mut self, at: u64, bytes: &[u8]) -> Result<(), Failed>
        requires { IfSome (told self.old).stored (λ old. at + length bytes.now ≤ length old) }
        ensures written { OnOk result ((told self.new).stored
            ≡ option_map (λ old. overwrite old at bytes.now) (told self.old).stored) }
        ensures others { KeepsOutside at (length bytes.now) (told self.old).stored
            (told self.new).stored }
        ensures images { DiskSteps (use_of told self.old self.new)
            (IsSameOutside at (length bytes.now)) }
        ensures time { OnOk result
            (TakesTime (told self.old).stored (told self.old).moment (told self.new).moment) }
        ensures count { CountsFaults (told self.old).faults (told self.new).faults result };

    /// Brings what was written to where no crash takes it away.
    fn sync(&mut self) -> Result<(), Failed>
        ensures durable { OnOk result ((image : List ℕ) → disk_images (told self.new) image
            → (told self.new).stored ≡ Some image) }
        ensures stored { (told self.new).stored ≡ (told self.old).stored }
        ensures images { DiskSteps (use_of told self.old self.new) IsSame }
        ensures time { OnOk result
            (TakesTime (told self.old).stored (told self.old).moment (told self.new).moment) }
        ensures count { CountsFaults (told self.old).faults (told self.new).faults result };

    // What a read gives is one of the images.
    ghost stored_is_image: { (disk : Self) → IfSome (told disk).stored (disk_images (told disk)) };

    // A disk that tells no bytes tells no images.
    ghost images_are_told: { (disk : Self) (image : List ℕ)
        → disk_images (told disk) image → IsSome (told disk).stored };

    // The faults that it tells are those that it counts.
    ghost faults_are_told: { (disk : Self) → (told disk).faults ≡ Self.faults disk };
}
