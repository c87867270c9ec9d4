//! The files that say who a member's device is and what its editors do.

ghost use Rattle.std.specs.Prelude.{[], ◌∷◌, IfErr, IfOk};
ghost use Rattle.lms_leaf.specs.LeafFile.{IsLeafHeight};
ghost use Rattle.lms_tree.specs.LmsType.{height_of};
ghost use Rattle.sporc_outside.specs.Uses.{use_of};
ghost use Rattle.sporc_entry.specs.Genesis.{IsGenesis};
ghost use Rattle.sporc_files.specs.declared.file.File.{File};
ghost use Rattle.sporc_files.specs.Names.{file_name};
ghost use Rattle.sporc_files.specs.Uses.{OnlyReads};
ghost use Rattle.sporc_device.specs.MemberFiles.{IsFirstScriptFault, IsMemberFault, IsScriptFault};
ghost use Rattle.sporc_device.specs.MemberFiles.{SayAllScripts, SayMember, SaysScript, own_files};
ghost use Rattle.sporc_device.specs.MemberFiles.{script_files};

use lms_tree::Tree;
use sporc_base::Items;
use sporc_entry::Genesis;
use sporc_files::{
    Fault, File, Names, read_bytes, read_genesis_file, read_own_key, read_ring_file,
};
use sporc_keys::RingFile;
use sporc_member::Device;
use sporc_outside::Folder;
use sporc_script::{EditorScript, LineFault, read_editor};
use std::alloc::Global;
use std::thread::Threads;

/// What the files of a member's device say, and its editors' scripts.
#[derive(Drop)]
pub struct MemberFiles {
    pub genesis: Genesis,
    /// The private key of the device, with its tree.
    pub tree: Tree,
    pub ring: RingFile,
    pub editors: Items<EditorScript>,
}

/// Reads the files of a device and the scripts of so many editors: the genesis, its key, its
/// member's ring, and then the scripts. The first that fails decides.
pub fn read_member<R: Threads + Sync, F: Folder>(
    rt: &R,
    alloc: Global,
    files: &mut F,
    names: &Names<'_>,
    device: Device,
    editors: u32,
) -> Result<MemberFiles, Fault>
    ensures ok { IfOk result (SayMember (F.told files.old).files names.now device editors) }
    ensures genesis { IfOk result (λ m. IsGenesis m.genesis) }
    ensures height { IfOk result (λ m. IsLeafHeight (height_of m.tree.lms)) }
    ensures err { IfErr result
        (IsMemberFault (use_of F.told files.old files.new) names.now device) }
    ensures reads { OnlyReads names.now (own_files device editors)
        (use_of F.told files.old files.new) }
{
    let genesis = read_genesis_file(alloc, files, names)?;
    let tree = read_own_key(rt, alloc, files, names, device, &genesis)?;
    let ring = read_ring_file(alloc, files, names, device.member)?;
    let editors = read_scripts(alloc, files, names, editors)?;
    Ok(MemberFiles {
        genesis,
        tree,
        ring,
        editors: Items::new(editors),
    })
}

// Reads the scripts of so many editors.
fn read_scripts<F: Folder>(
    alloc: Global,
    files: &mut F,
    names: &Names<'_>,
    editors: u32,
) -> Result<Vec<EditorScript>, Fault>
    ensures ok { IfOk result
        (λ scripts. SayAllScripts (F.told files.old).files names.now editors scripts.items) }
    ensures err { IfErr result
        (IsFirstScriptFault (use_of F.told files.old files.new) names.now) }
    ensures reads { OnlyReads names.now (script_files editors) (use_of F.told files.old files.new) }
{
    let mut scripts = Vec::new(alloc);
    for read in 0..editors {
        let script = read_script(alloc, files, names, read + 1)?;
        scripts.push(script)?;
    }
    Ok(scripts)
}

// Reads the script of an editor.
fn read_script<F: Folder>(
    alloc: Global,
    files: &mut F,
    names: &Names<'_>,
    editor: u32,
) -> Result<EditorScript, Fault>
    ensures ok { IfOk result
        (SaysScript (F.told files.old).files (file_name names.now (File.Script editor))) }
    ensures err { IfErr result
        (IsScriptFault (use_of F.told files.old files.new) names.now editor) }
    ensures reads { OnlyReads names.now (File.Script editor ∷ [])
        (use_of F.told files.old files.new) }
{
    let text = read_bytes(alloc, files, names, File::Script(editor))?;
    match read_editor(alloc, text.as_slice()) {
        Ok(script) => Ok(script),
        Err(LineFault::Line { line }) => Err(Fault::EditorLine(editor, line)),
        Err(LineFault::Memory) => Err(Fault::Memory),
    }
}
