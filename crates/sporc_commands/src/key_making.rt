//! `keygen NAME M HEIGHT W`.

ghost use Rattle.std.specs.Prelude.{◌≡◌, ◌≤◌, IfOk, IfErr, OnOk, string_bytes};
ghost use Rattle.sporc_outside.specs.Uses.{use_of};
ghost use Rattle.lms_leaf.specs.LeafFile.{IsLeafHeight};
ghost use Rattle.lms_tree.specs.LmsType.{height_of};
ghost use Rattle.sporc_keys.specs.KeyFile.{IsKeyFile, IsKeyWidth};
ghost use Rattle.sporc_keys.specs.NewKey.{IsKeygen};
ghost use Rattle.sporc_files.specs.Names.{names_of_document};
ghost use Rattle.sporc_files.specs.Uses.{AsksOnly};
ghost use Rattle.sporc_files.specs.Faults.{IsOutsideFault};
ghost use Rattle.sporc_commands.specs.KeyMaking.{IsFilesFault, KeygenOutcome, StoresKey, key_line};
ghost use Rattle.sporc_commands.specs.KeyMaking.{key_names};

use crate::printing::print;
use lms_tree::LmsPublic;
use sporc_base::Memory;
use sporc_files::{Fault, File, Names, write_new_file};
use sporc_keys::{NewKey, write_key_file};
use sporc_outside::{Chance, Folder, Sink};
use sporc_words::Keygen;
use std::alloc::Global;
use std::thread::Threads;

/// Makes a device's key of two words of the chance, writes its files, and prints its public key. No
/// file is overwritten: if there is a key file, nothing is written, and if there is a leaf file
/// alone, the key file is.
pub fn keygen<R: Threads + Sync, F: Folder, C: Chance, O: Sink>(
    rt: &R,
    alloc: Global,
    files: &mut F,
    chance: &mut C,
    out: &mut O,
    asked: &Keygen,
) -> Result<(), Fault>
    requires height { IsLeafHeight (height_of asked.now.height) }
    requires width { IsKeyWidth asked.now.width }
    ensures outcome { KeygenOutcome asked.now (use_of F.told files.old files.new)
        (use_of C.told chance.old chance.new) (use_of O.told out.old out.new) result }
    ensures may_ask { AsksOnly (key_names (names_of_document asked.now.name) asked.now.device)
        (F.told files.old).asked (F.told files.new).asked }
    ensures lent { (F.told files.new).lent ≡ (F.told files.old).lent }
    ensures files_kept { (F.told files.old).faults ≤ (F.told files.new).faults }
    ensures chance_kept { (C.told chance.old).faults ≤ (C.told chance.new).faults }
    ensures out_kept { (O.told out.old).faults ≤ (O.told out.new).faults }
{
    let key = make_key(rt, alloc, chance, asked)?;
    let line = key_line(alloc, &key.public)?;
    let names = Names::of_document(asked.name.as_str());
    write_files(alloc, files, &names, &key)?;
    print(out, line.as_str())
}

// The key, before anything is written.
fn make_key<R: Threads + Sync, C: Chance>(
    rt: &R,
    alloc: Global,
    chance: &mut C,
    asked: &Keygen,
) -> Result<NewKey, Fault>
    requires height { IsLeafHeight (height_of asked.now.height) }
    requires width { IsKeyWidth asked.now.width }
    ensures ok { IfOk result (λ key. IsKeygen (C.told chance.old).given (C.told chance.new).given
        asked.now.device asked.now.height asked.now.width key) }
    ensures spelled { IfOk result (λ key. IsKeyFile key.file) }
    ensures err { IfErr result
        (IsOutsideFault (C.told chance.old).faults (C.told chance.new).faults) }
    ensures kept { (C.told chance.old).faults ≤ (C.told chance.new).faults }
{
    let key = sporc_keys::keygen(rt, alloc, chance, asked.device, asked.height, asked.width)?;
    Ok(key)
}

// The line that is printed of a key.
pub(crate) fn key_line(alloc: Global, public: &LmsPublic) -> Result<String, Memory>
    ensures { IfOk result (λ line. string_bytes line ≡ key_line public.now) }
{
    let digits = hex::encode(alloc, &public.to_bytes())?;
    let mut line = String::from_str(alloc, "key ")?;
    line.push_str(digits.as_str())?;
    line.push('\n')?;
    Ok(line)
}

// Writes the key file, and then the leaf file.
fn write_files<F: Folder>(
    alloc: Global,
    files: &mut F,
    names: &Names<'_>,
    key: &NewKey,
) -> Result<(), Fault>
    requires { IsKeyFile key.now.file }
    ensures ok { OnOk result
        (StoresKey names.now key.now (F.told files.old).files (F.told files.new).files) }
    ensures err { IfErr result
        (IsFilesFault names.now key.now (use_of F.told files.old files.new)) }
    ensures may_ask { AsksOnly (key_names names.now key.now.file.device) (F.told files.old).asked
        (F.told files.new).asked }
    ensures lent { (F.told files.new).lent ≡ (F.told files.old).lent }
    ensures kept { (F.told files.old).faults ≤ (F.told files.new).faults }
{
    let bytes = write_key_file(alloc, &key.file)?;
    let device = key.file.device;
    write_new_file(alloc, files, names, File::Key(device), bytes.as_slice())?;
    write_new_file(
        alloc,
        files,
        names,
        File::Leaf(device),
        key.leaves.as_slice(),
    )
}
