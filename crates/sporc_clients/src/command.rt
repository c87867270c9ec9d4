//! The command.

ghost use Rattle.std.specs.Prelude.{◌≡◌, ◌+◌, ◌≤◌, [], ◌∷◌, length, map, option_map, string_bytes};
ghost use Rattle.std.specs.Prelude.{IfErr, IfOk};
ghost use Rattle.sporc_outside.specs.Uses.{use_of};
ghost use Rattle.sporc_outside.specs.Nets.{AreShutBehind};
ghost use Rattle.lms_leaf.specs.LeafFile.{IsLeafHeight};
ghost use Rattle.lms_tree.specs.LmsType.{height_of};
ghost use Rattle.sporc_entry.specs.Genesis.{IsGenesis};
ghost use Rattle.sporc_script.specs.declared.limits.TheConstants.{MAX_EDITORS};
ghost use Rattle.sporc_files.specs.declared.file.File.{File};
ghost use Rattle.sporc_files.specs.Names.{file_name};
ghost use Rattle.sporc_files.specs.Reading.{IsFileFault, SaysFileIfThere, any_bytes};
ghost use Rattle.sporc_files.specs.Uses.{AsksAtMost, AsksOnly, OnlyReads};
ghost use Rattle.sporc_device.specs.Opening.{links_for_hints};
ghost use Rattle.sporc_clients.specs.Outcome.{ClientOutcome, DiskOutcome, client_files, names_of};
ghost use Rattle.sporc_clients.specs.Outcome.{uses};

use crate::attending::attend;
use crate::causes::end;
use crate::concluding::{Concluded, conclude};
use crate::session::Wanted;
use lms_sign::Signer;
use sporc_device::{Member, MemberFiles, Platform, open_signer, read_member};
use sporc_files::{Fault, File, Names, lend_disk, read_if_there};
use sporc_member::Device;
use sporc_outside::{Chance, Counted, Dial, Folder, Gate, LeafDisk, Sink};
use sporc_words::Client as Words;
use std::alloc::Global;
use std::sync::Wait;
use std::thread::Threads;

// What the files of a device say, and the disk of its leaf file.
struct OwnFiles<D> {
    says: MemberFiles,
    disk: D,
}

/// Has a member's device work with the server at an address, beside its editors, then saves its
/// history, and prints its journal and report.
pub fn client<
    R: Threads + Wait + Sync,
    O: Sink,
    F: Folder,
    N: Dial,
    C: Chance + Send,
    G: Gate + Sync,
>(
    platform: &Platform<'_, R, G>,
    words: &Words,
    out: &mut O,
    files: &mut F,
    net: &mut N,
    chance: &mut C,
) -> Result<(), Fault>
where
    F::Disk: Send,
    N::Link: Send,
    requires limit { length words.now.scripts ≤ MAX_EDITORS }
    ensures outcome { ClientOutcome F.Disk.told words.now (uses (use_of O.told out.old out.new)
        (use_of F.told files.old files.new) (use_of N.told net.old net.new)
        (use_of C.told chance.old chance.new)) result }
    ensures files_may_ask { AsksOnly (map (file_name (names_of words.now))
        (client_files words.now.device (length words.now.scripts)))
        (F.told files.old).asked (F.told files.new).asked }
    ensures lent { (F.told files.new).lent ≡ (F.told files.old).lent }
    ensures files_kept { (F.told files.old).faults ≤ (F.told files.new).faults }
    ensures net_may_ask { AsksAtMost 2 (N.told net.old).asked
        (N.told net.new).asked words.now.address }
    ensures out_kept { (O.told out.old).faults ≤ (O.told out.new).faults }
    ensures shut { AreShutBehind (N.told net.old).returned (N.told net.new).returned }
    ensures links_out { (N.told net.new).out ≡ (N.told net.old).out }
    ensures net_kept { (N.told net.old).faults ≤ (N.told net.new).faults }
    ensures links_kept { (N.told net.old).link_faults ≤ (N.told net.new).link_faults }
    ensures chance_kept { (C.told chance.old).faults ≤ (C.told chance.new).faults }
{
    let alloc = platform.alloc;
    let names = names_of(words);
    let editors = words.scripts.as_slice().len() as u32;
    let member = read_member(platform.rt, alloc, files, &names, words.device, editors)?;
    let disk = lend_disk(alloc, files, &names, File::Leaf(words.device))?;
    let own = OwnFiles { says: member, disk };
    let (result, disk) = with_disk(platform, words, own, out, files, net, chance);
    // Not called for its answer: that the folder's count can be told here is what `files_kept`
    // rests on.
    let _faults = files.faults();
    files.take_back(disk);
    result
}

// Has a member's device work, over the disk of its leaf file, which comes back.
fn with_disk<
    R: Threads + Wait + Sync,
    D: LeafDisk + Send,
    O: Sink,
    F: Folder,
    N: Dial,
    C: Chance + Send,
    G: Gate + Sync,
>(
    platform: &Platform<'_, R, G>,
    words: &Words,
    own: OwnFiles<D>,
    out: &mut O,
    files: &mut F,
    net: &mut N,
    chance: &mut C,
) -> (Result<(), Fault>, D)
where
    N::Link: Send,
    requires limit { length own.says.editors ≤ MAX_EDITORS }
    requires genesis { IsGenesis own.says.genesis }
    requires height { IsLeafHeight (height_of own.says.tree.lms) }
    ensures outcome { DiskOutcome D.told words.now own.says (uses (use_of O.told out.old out.new)
        (use_of F.told files.old files.new) (use_of N.told net.old net.new)
        (use_of C.told chance.old chance.new)) own.disk result.1 result.0 }
    ensures files_may_ask { AsksOnly
        (file_name (names_of words.now) (File.History words.now.device) ∷ [])
        (F.told files.old).asked (F.told files.new).asked }
    ensures lent { (F.told files.new).lent ≡ (F.told files.old).lent }
    ensures files_kept { (F.told files.old).faults ≤ (F.told files.new).faults }
    ensures net_may_ask { AsksAtMost (links_for_hints own.says.ring + 1) (N.told net.old).asked
        (N.told net.new).asked words.now.address }
    ensures out_kept { (O.told out.old).faults ≤ (O.told out.new).faults }
    ensures shut { AreShutBehind (N.told net.old).returned (N.told net.new).returned }
    ensures links_out { (N.told net.new).out ≡ (N.told net.old).out }
    ensures net_kept { (N.told net.old).faults ≤ (N.told net.new).faults }
    ensures links_kept { (N.told net.old).link_faults ≤ (N.told net.new).link_faults }
    ensures chance_kept { (C.told chance.old).faults ≤ (C.told chance.new).faults }
{
    let OwnFiles { says, disk } = own;
    let MemberFiles {
        genesis,
        tree,
        ring,
        editors,
    } = says;
    let alloc = platform.alloc;
    let signer = match open_signer(alloc, disk, tree, words.device) {
        Ok(signer) => signer,
        Err((fault, disk)) => return (Err(fault), disk),
    };
    let (saved, name) = match history_of(alloc, files, &names_of(words), words.device) {
        Ok(both) => both,
        Err(fault) => return (Err(fault), signer.close()),
    };
    let member = Member {
        genesis,
        device: words.device,
        ring,
        saved,
    };
    let wanted = Wanted {
        rounds: words.rounds,
        until: words.until,
        editors,
    };
    let address = words.address.as_str();
    match attend(platform, member, signer, net, address, chance, &wanted) {
        Ok(ended) => {
            let Concluded {
                session,
                saved,
                printed,
                disk,
            } = conclude(alloc, ended, out, files, name.as_str());
            (end(session, saved, printed), disk)
        }
        Err((fault, signer)) => (Err(fault), signer.close()),
    }
}

// The names of the command's files.
fn names_of(words: &Words) -> Names<'_>
    ensures value { result ≡ names_of words.now }
{
    Names::new(words.name.as_str(), words.scripts.as_slice())
}

// The bytes of a device's saved history, if there is such a file, and its name.
fn history_of<F: Folder>(
    alloc: Global,
    files: &mut F,
    names: &Names<'_>,
    device: Device,
) -> Result<(Option<Vec<u8>>, String), Fault>
    ensures ok { IfOk result (λ both. SaysFileIfThere any_bytes (F.told files.old).files
        (file_name names.now (File.History device)) (option_map (λ bytes. bytes.items) both.0)) }
    ensures name { IfOk result
        (λ both. string_bytes both.1 ≡ file_name names.now (File.History device)) }
    ensures err { IfErr result (IsFileFault any_bytes
        (use_of F.told files.old files.new) names.now (File.History device)) }
    ensures reads { OnlyReads names.now (File.History device ∷ [])
        (use_of F.told files.old files.new) }
{
    let file = File::History(device);
    let saved = read_if_there(alloc, files, names, file)?;
    let name = file.name(alloc, names)?;
    Ok((saved, name))
}
