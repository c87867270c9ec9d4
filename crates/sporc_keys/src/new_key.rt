//! New keys.

ghost use Rattle.std.specs.Prelude.{◌≡◌, ◌≤◌, Err, IfOk, OnErr};
ghost use Rattle.lms_leaf.specs.LeafFile.{IsLeafHeight};
ghost use Rattle.lms_tree.specs.LmsType.{height_of};
ghost use Rattle.sporc_outside.specs.Counts.{Rose};
ghost use Rattle.sporc_keys.specs.Drawn.{DrawsWordsUpTo};
ghost use Rattle.sporc_keys.specs.KeyFile.{IsKeyFile, IsKeyWidth};
ghost use Rattle.sporc_keys.specs.NewKey.{IsKeygen, made_of};

use crate::draw::prefix_of;
use crate::fault::DrawFault;
use crate::key_file::KeyFile;
use lms_leaf::blank;
use lms_ots::OtsType;
use lms_tree::{LmsPublic, LmsType};
use sporc_base::{Bytes, Memory};
use sporc_member::Device;
use sporc_outside::Chance;
use std::alloc::Global;
use std::thread::Threads;

/// A key that is new: its file, its public key, and the bytes of its leaf file, of which no leaf is
/// taken.
#[derive(Drop)]
pub struct NewKey {
    pub file: KeyFile,
    pub public: LmsPublic,
    pub leaves: Bytes,
}

/// A new key of a device, made of two words of the chance: `I` is the first 16 bytes of the one,
/// `SEED` the other. Its tree is built, as [`KeyFile::tree`] builds it.
pub fn keygen<R: Threads + Sync, C: Chance>(
    rt: &R,
    alloc: Global,
    chance: &mut C,
    device: Device,
    lms: LmsType,
    ots: OtsType,
) -> Result<NewKey, DrawFault>
    requires height { IsLeafHeight (height_of lms) }
    requires width { IsKeyWidth ots }
    ensures ok { IfOk result
        (λ key. IsKeygen (C.told chance.old).given (C.told chance.new).given device lms ots key) }
    ensures spelled { IfOk result (λ key. IsKeyFile key.file) }
    ensures chance { result ≡ Err DrawFault.Chance
        → Rose (C.told chance.old).faults (C.told chance.new).faults }
    ensures drawn { OnErr result
        (DrawsWordsUpTo 2 (C.told chance.old).given (C.told chance.new).given) }
    ensures kept { (C.told chance.old).faults ≤ (C.told chance.new).faults }
{
    let first = chance.fill32()?;
    let seed = chance.fill32()?;
    let file = KeyFile {
        device,
        lms,
        ots,
        id: prefix_of(&first),
        seed,
    };
    let key = key_of(rt, alloc, file)?;
    Ok(key)
}

// The key of a key file that is new.
fn key_of<R: Threads + Sync>(rt: &R, alloc: Global, file: KeyFile) -> Result<NewKey, Memory>
    requires { IsLeafHeight (height_of file.lms) }
    ensures { IfOk result (λ key. key ≡ made_of file) }
{
    let leaves = blank(alloc, file.lms.height())?;
    let tree = file.tree(rt, alloc)?;
    Ok(NewKey {
        file,
        public: tree.public(),
        leaves: Bytes::new(leaves),
    })
}
