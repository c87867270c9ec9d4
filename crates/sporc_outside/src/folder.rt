//! Files by name.

ghost use Rattle.std.specs.Prelude.{◌≡◌, ◌≤◌, ◌⊎◌, ◌∷◌, length, drop, option_map, IfOk, IfErr};
ghost use Rattle.std.specs.Prelude.{IfSome, OnOk, OnErr};
ghost use Rattle.sporc_outside.specs.Counts.{CountsFaults, count_of_both};
ghost use Rattle.sporc_outside.specs.Folders.{Asks, FolderTold};
ghost use Rattle.sporc_outside.specs.Files.{HasFile, HasNoFile, made_in, with_file, ChangesFile};
ghost use Rattle.sporc_outside.specs.Files.{IsReadFault, IsDiskFault, IsNewFault, IsDiskOf, IsLent};
ghost use Rattle.sporc_outside.specs.Files.{TakesBack, IsAppendFault, IsAppendedTo, RemovesFile};
ghost use Rattle.sporc_outside.specs.Files.{TakesFile};
ghost use Rattle.sporc_outside.specs.Told.{AppendsItem, MayAppend};
ghost use Rattle.sporc_outside.specs.Uses.{use_of};
ghost use Rattle.sporc_outside.specs.declared.file_fault.TheConstants.{MAX_FILE};

use crate::append_file::AppendFile;
use crate::counted::{Counted, Failed};
use crate::file_fault::FileFault;
use crate::leaf_disk::LeafDisk;
use std::alloc::Global;

/// Files by name, disks over them, which are taken back in the reverse of the order in which they
/// were handed out, and files that are appended to.
///
/// A folder may tell contracts its files and the names asked for, or not tell them, as a real one
/// does.
pub trait Folder: Counted {
    type Disk: LeafDisk;

    type Appended: AppendFile;

    // What it tells.
    ghost told: { Self → FolderTold };

    /// The bytes of a file.
    fn read_file(&mut self, alloc: Global, name: &str) -> Result<Vec<u8>, FileFault>
        ensures ok { IfOk result (λ bytes. HasFile (told self.old).files name.now bytes.items) }
        ensures within { IfOk result (λ bytes. length bytes.items ≤ MAX_FILE) }
        ensures err { IfErr result (IsReadFault (told self.old).files name.now
            (told self.old).faults (told self.new).faults) }
        ensures files { (told self.new).files ≡ (told self.old).files }
        ensures lent { (told self.new).lent ≡ (told self.old).lent }
        ensures asks { Asks (use_of told self.old self.new) name.now result };

    /// Writes a file, in place of the one with this name if there is one. After a call that failed,
    /// that one may have changed.
    fn write_file(&mut self, name: &str, bytes: &[u8]) -> Result<(), Failed>
        ensures ok { OnOk result ((told self.new).files
            ≡ option_map (λ old. with_file old name.now bytes.now) (told self.old).files) }
        ensures changes { OnErr result
            (ChangesFile (told self.old).files (told self.new).files name.now) }
        ensures lent { (told self.new).lent ≡ (told self.old).lent }
        ensures asked { OnOk result
            (AppendsItem (told self.old).asked (told self.new).asked name.now) }
        ensures may_ask { MayAppend (told self.old).asked (told self.new).asked name.now }
        ensures count { CountsFaults (told self.old).faults (told self.new).faults result };

    /// Writes a file, unless there is one with this name. After a call that failed there may be
    /// one.
    fn write_new(&mut self, name: &str, bytes: &[u8]) -> Result<(), FileFault>
        ensures was_new { OnOk result (HasNoFile (told self.old).files name.now) }
        ensures ok { OnOk result ((told self.new).files
            ≡ option_map (λ old. with_file old name.now bytes.now) (told self.old).files) }
        ensures err { IfErr result (IsNewFault (told self.old).files name.now (told self.old).faults
            (told self.new).faults) }
        ensures changes { OnErr result
            (ChangesFile (told self.old).files (told self.new).files name.now) }
        ensures exists { result ≡ Err FileFault.Exists
            → (told self.new).files ≡ (told self.old).files }
        ensures lent { (told self.new).lent ≡ (told self.old).lent }
        ensures asks { Asks (use_of told self.old self.new) name.now result };

    /// A disk over the bytes of a file.
    fn leaf_disk(&mut self, name: &str) -> Result<Self::Disk, FileFault>
        ensures ok { IfOk result
            (λ disk. IsDiskOf (told self.old).files name.now (Self.Disk.told disk).stored) }
        ensures fresh { IfOk result (λ disk. (Self.Disk.told disk).faults ≡ 0) }
        ensures err { IfErr result (IsDiskFault (told self.old).files name.now
            (told self.old).faults (told self.new).faults) }
        ensures files { (told self.new).files ≡ (told self.old).files }
        ensures lent { OnOk result
            ((told self.new).lent ≡ option_map (λ names. name.now ∷ names) (told self.old).lent) }
        ensures lent_unchanged { OnErr result ((told self.new).lent ≡ (told self.old).lent) }
        ensures asks { Asks (use_of told self.old self.new) name.now result };

    /// Takes back the disk that it handed out last of those that are out. Its bytes are the file's.
    fn take_back(&mut self, disk: Self::Disk)
        requires { IsLent (told self.old).lent }
        ensures lent { (told self.new).lent
            ≡ option_map (λ names. drop 1 names) (told self.old).lent }
        ensures back { TakesBack (told self.old).lent (told self.old).files (told self.new).files
            (Self.Disk.told disk).stored }
        ensures asked { (told self.new).asked ≡ (told self.old).asked }
        ensures kept { count_of_both (told self.old).faults (Self.Disk.told disk).faults
            ≤ (told self.new).faults };

    /// The file with this name, to be appended to. If there is none, it is made, with no bytes.
    /// After a call that failed there may be one. A file that another program has is a call that
    /// fails.
    fn append_to(&mut self, name: &str) -> Result<Self::Appended, FileFault>
        ensures ok { IfOk result
            (λ file. IsAppendedTo (told self.old).files name.now (Self.Appended.told file).stored) }
        ensures made { OnOk result ((told self.new).files
            ≡ option_map (λ files. made_in files name.now) (told self.old).files) }
        ensures name { IfOk result
            (λ file. IfSome (Self.Appended.told file).name (λ named. named ≡ name.now)) }
        ensures fresh { IfOk result (λ file. (Self.Appended.told file).faults ≡ 0) }
        ensures err { IfErr result (IsAppendFault (told self.old).files name.now
            (told self.old).faults (told self.new).faults) }
        ensures changes { OnErr result
            (ChangesFile (told self.old).files (told self.new).files name.now) }
        ensures lent { (told self.new).lent ≡ (told self.old).lent }
        ensures asks { Asks (use_of told self.old self.new) name.now result };

    /// Takes back a file that it handed out by this name. Its bytes are those of the file with the
    /// name.
    fn take_file(&mut self, name: &str, file: Self::Appended)
        ensures back { TakesFile name.now (Self.Appended.told file).stored (told self.old).files
            (told self.new).files }
        ensures lent { (told self.new).lent ≡ (told self.old).lent }
        ensures asked { (told self.new).asked ≡ (told self.old).asked }
        ensures kept { count_of_both (told self.old).faults (Self.Appended.told file).faults
            ≤ (told self.new).faults };

    /// Takes back a file that it handed out by this name, and removes it. Nobody else gets it
    /// before it is gone. After a call that failed it is gone or as it was.
    fn remove(&mut self, name: &str, file: Self::Appended) -> Result<(), Failed>
        ensures gone { OnOk result
            (RemovesFile name.now (told self.old).files (told self.new).files) }
        ensures err { OnErr result
            (RemovesFile name.now (told self.old).files (told self.new).files ⊎ TakesFile name.now
            (Self.Appended.told file).stored (told self.old).files (told self.new).files) }
        ensures lent { (told self.new).lent ≡ (told self.old).lent }
        ensures asked { (told self.new).asked ≡ (told self.old).asked }
        ensures count { CountsFaults
            (count_of_both (told self.old).faults (Self.Appended.told file).faults)
            (told self.new).faults result };

    // The faults that it tells are those that it counts.
    ghost faults_are_told: { (folder : Self) → (told folder).faults ≡ Self.faults folder };
}
