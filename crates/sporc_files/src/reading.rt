//! Files that are read.

ghost use Rattle.std.specs.Prelude.{◌≡◌, ◌≢◌, [], ◌∷◌, Err, IfOk, IfErr, option_map};
ghost use Rattle.lms_leaf.specs.LeafFile.{IsLeafHeight};
ghost use Rattle.lms_tree.specs.LmsType.{height_of};
ghost use Rattle.sporc_bytes.specs.Fields.{fault_as};
ghost use Rattle.sporc_entry.specs.Genesis.{IsGenesis};
ghost use Rattle.sporc_outside.specs.Uses.{use_of};
ghost use Rattle.sporc_keys.specs.KeyFile.{IsKeyWidth};
ghost use Rattle.sporc_keys.specs.RingFile.{IsRingFile, ring_file_of_member};
ghost use Rattle.sporc_files.specs.declared.file.File.{File};
ghost use Rattle.sporc_files.specs.Faults.{AnswersUnlessOutside, fault_of_file};
ghost use Rattle.sporc_files.specs.Names.{file_name};
ghost use Rattle.sporc_files.specs.Reading.{IsFileFault, SaysFile, SaysFileIfThere, any_bytes};
ghost use Rattle.sporc_files.specs.Reading.{founder_of, founder_with, genesis_file, is_key_of};
ghost use Rattle.sporc_files.specs.Reading.{key_file, own_key_file};
ghost use Rattle.sporc_files.specs.Uses.{OnlyReads};

use crate::fault::Fault;
use crate::file::File;
use crate::names::Names;
use lms_tree::{LmsPublic, Tree};
use sporc_base::is_same;
use sporc_entry::{Genesis, GenesisFault, read_genesis};
use sporc_keys::{Malformed, RingFile, RingFileFault, key_of_device, ring_of_member};
use sporc_member::{Device, FIRST_DEVICE, Founder};
use sporc_outside::{FileFault, Folder};
use std::alloc::Global;
use std::thread::Threads;

// What a fault of a folder's call on this file is.
pub(crate) fn fault_of_file(file: File, fault: FileFault) -> Fault
    ensures value { result ≡ fault_of_file file fault }
{
    match fault {
        FileFault::Missing => Fault::Missing(file),
        FileFault::Failed => Fault::Outside,
        FileFault::TooLong(_) => Fault::TooLong(file),
        FileFault::Exists => Fault::Exists(file),
        FileFault::Memory => Fault::Memory,
    }
}

/// The bytes of a file.
pub fn read_bytes<F: Folder>(
    alloc: Global,
    files: &mut F,
    names: &Names<'_>,
    file: File,
) -> Result<Vec<u8>, Fault>
    ensures ok { IfOk result (λ bytes. SaysFile any_bytes (F.told files.old).files
        (file_name names.now file) bytes.items) }
    ensures err { IfErr result
        (IsFileFault any_bytes (use_of F.told files.old files.new) names.now file) }
    ensures reads { OnlyReads names.now (file ∷ []) (use_of F.told files.old files.new) }
{
    let name = file.name(alloc, names)?;
    match files.read_file(alloc, name.as_str()) {
        Ok(bytes) => Ok(bytes),
        Err(fault) => Err(fault_of_file(file, fault)),
    }
}

/// The bytes of a file, if there is such a file.
pub fn read_if_there<F: Folder>(
    alloc: Global,
    files: &mut F,
    names: &Names<'_>,
    file: File,
) -> Result<Option<Vec<u8>>, Fault>
    ensures ok { IfOk result (λ found. SaysFileIfThere any_bytes (F.told files.old).files
        (file_name names.now file) (option_map (λ bytes. bytes.items) found)) }
    ensures err { IfErr result
        (IsFileFault any_bytes (use_of F.told files.old files.new) names.now file) }
    ensures there { (other : File) → result ≢ Err (Fault.Missing other) }
    ensures reads { OnlyReads names.now (file ∷ []) (use_of F.told files.old files.new) }
{
    match read_bytes(alloc, files, names, file) {
        Ok(bytes) => Ok(Some(bytes)),
        Err(Fault::Missing(_)) => Ok(None),
        Err(fault) => Err(fault),
    }
}

/// What the document begins with. A genesis without an admin, or with a key of no known type, is
/// malformed at 0.
pub fn read_genesis_file<F: Folder>(
    alloc: Global,
    files: &mut F,
    names: &Names<'_>,
) -> Result<Genesis, Fault>
    ensures ok { IfOk result
        (SaysFile genesis_file (F.told files.old).files (file_name names.now File.Genesis)) }
    ensures genesis { IfOk result IsGenesis }
    ensures err { IfErr result
        (IsFileFault genesis_file (use_of F.told files.old files.new) names.now File.Genesis) }
    ensures reads { OnlyReads names.now (File.Genesis ∷ []) (use_of F.told files.old files.new) }
{
    let bytes = read_bytes(alloc, files, names, File::Genesis)?;
    genesis_in(alloc, bytes.as_slice())
}

// The genesis that the bytes of its file spell.
fn genesis_in(alloc: Global, bytes: &[u8]) -> Result<Genesis, Fault>
    ensures value { AnswersUnlessOutside (λ genesis. genesis) ⊥ result
        (fault_as (Fault.Malformed File.Genesis) (genesis_file bytes.now)) }
    ensures genesis { IfOk result IsGenesis }
{
    match read_genesis(alloc, bytes) {
        Ok(genesis) => Ok(genesis),
        Err(GenesisFault::Malformed(at)) => Err(Fault::Malformed(File::Genesis, at as u64)),
        Err(GenesisFault::NoAdmin) | Err(GenesisFault::BadKey(_)) => {
            Err(Fault::Malformed(File::Genesis, 0))
        }
        Err(GenesisFault::Memory) => Err(Fault::Memory),
    }
}

/// The private key of a device, with its tree, which takes as long as building it. The file of
/// another device is malformed, as [`key_of_device`] says.
pub fn read_key_file<R: Threads + Sync, F: Folder>(
    rt: &R,
    alloc: Global,
    files: &mut F,
    names: &Names<'_>,
    device: Device,
) -> Result<Tree, Fault>
    ensures ok { IfOk result (SaysFile (key_file device) (F.told files.old).files
        (file_name names.now (File.Key device))) }
    ensures height { IfOk result (λ key. IsLeafHeight (height_of key.lms)) }
    ensures width { IfOk result (λ key. IsKeyWidth key.ots) }
    ensures err { IfErr result
        (IsFileFault (key_file device) (use_of F.told files.old files.new)
        names.now (File.Key device)) }
    ensures reads { OnlyReads names.now (File.Key device ∷ []) (use_of F.told files.old files.new) }
{
    let bytes = read_bytes(alloc, files, names, File::Key(device))?;
    tree_in(rt, alloc, bytes.as_slice(), device)
}

// The private key that the bytes of a device's key file spell, with its tree.
fn tree_in<R: Threads + Sync>(
    rt: &R,
    alloc: Global,
    bytes: &[u8],
    device: Device,
) -> Result<Tree, Fault>
    ensures value { AnswersUnlessOutside (λ key. key) ⊥ result
        (fault_as (Fault.Malformed (File.Key device)) (key_file device bytes.now)) }
    ensures height { IfOk result (λ key. IsLeafHeight (height_of key.lms)) }
    ensures width { IfOk result (λ key. IsKeyWidth key.ots) }
{
    match key_of_device(bytes, device) {
        Ok(file) => {
            let tree = file.tree(rt, alloc)?;
            Ok(tree)
        }
        Err(Malformed(at)) => Err(Fault::Malformed(File::Key(device), at as u64)),
    }
}

/// The private key of a device in a document, with its tree. The file of another device is
/// malformed, as [`key_of_device`] says; that of a founder's first device with another key than the
/// founder's is malformed at 4. The genesis says nothing of a further device's key.
pub fn read_own_key<R: Threads + Sync, F: Folder>(
    rt: &R,
    alloc: Global,
    files: &mut F,
    names: &Names<'_>,
    device: Device,
    genesis: &Genesis,
) -> Result<Tree, Fault>
    ensures ok { IfOk result (SaysFile (own_key_file genesis.now.founders device)
        (F.told files.old).files (file_name names.now (File.Key device))) }
    ensures height { IfOk result (λ key. IsLeafHeight (height_of key.lms)) }
    ensures width { IfOk result (λ key. IsKeyWidth key.ots) }
    ensures err { IfErr result
        (IsFileFault (own_key_file genesis.now.founders device)
        (use_of F.told files.old files.new) names.now (File.Key device)) }
    ensures reads { OnlyReads names.now (File.Key device ∷ []) (use_of F.told files.old files.new) }
{
    let tree = read_key_file(rt, alloc, files, names, device)?;
    let founder = founder_of(genesis.founders.as_slice(), device);
    if !is_key_of(founder, &tree.public()) {
        return Err(Fault::Malformed(File::Key(device), 4));
    }
    Ok(tree)
}

// The founder whose key a device has, which is its member's first.
fn founder_of(founders: &[Founder], device: Device) -> Option<Founder>
    ensures value { result ≡ founder_of device founders.now }
{
    if device.number == FIRST_DEVICE {
        founder_with(founders, device.member)
    } else {
        None
    }
}

// The founder with this number.
fn founder_with(founders: &[Founder], member: u16) -> Option<Founder>
    ensures value { result ≡ founder_with member founders.now }
{
    founders.iter().copied().find(|f| f.member == member)
}

// Whether this is the key of a founder, if there is one.
fn is_key_of(founder: Option<Founder>, key: &LmsPublic) -> bool
    ensures value { result ≡ is_key_of founder key.now }
{
    match founder {
        Some(founder) => is_same(&founder.key, &key.to_bytes()),
        None => true,
    }
}

/// The keys that a member has from the beginning. The file of another member is malformed at 4.
pub fn read_ring_file<F: Folder>(
    alloc: Global,
    files: &mut F,
    names: &Names<'_>,
    member: u16,
) -> Result<RingFile, Fault>
    ensures ok { IfOk result (SaysFile (ring_file_of_member member) (F.told files.old).files
        (file_name names.now (File.Ring member))) }
    ensures ring { IfOk result IsRingFile }
    ensures err { IfErr result
        (IsFileFault (ring_file_of_member member) (use_of F.told files.old files.new)
        names.now (File.Ring member)) }
    ensures reads { OnlyReads names.now (File.Ring member ∷ [])
        (use_of F.told files.old files.new) }
{
    let bytes = read_bytes(alloc, files, names, File::Ring(member))?;
    ring_in(alloc, bytes.as_slice(), member)
}

// The keys that the bytes of a member's ring file spell.
fn ring_in(alloc: Global, bytes: &[u8], member: u16) -> Result<RingFile, Fault>
    ensures value { AnswersUnlessOutside (λ ring. ring) ⊥ result
        (fault_as (Fault.Malformed (File.Ring member)) (ring_file_of_member member bytes.now)) }
    ensures ring { IfOk result IsRingFile }
{
    match ring_of_member(alloc, bytes, member) {
        Ok(ring) => Ok(ring),
        Err(RingFileFault::Malformed(at)) => Err(Fault::Malformed(File::Ring(member), at as u64)),
        Err(RingFileFault::Memory) => Err(Fault::Memory),
    }
}
