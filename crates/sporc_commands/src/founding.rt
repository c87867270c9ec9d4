//! `found NAME M:ROLE ..`.

ghost use Rattle.std.specs.Prelude.{◌≡◌, ◌≤◌, IfOk, IfErr, OnOk, map};
ghost use Rattle.std.specs.List.{AllByRecursion};
ghost use Rattle.sporc_outside.specs.Uses.{use_of};
ghost use Rattle.sporc_entry.specs.Genesis.{IsGenesis};
ghost use Rattle.sporc_member.specs.Device.{first_device};
ghost use Rattle.sporc_keys.specs.Founding.{CanFound, IsFounding, in_order};
ghost use Rattle.sporc_keys.specs.RingFile.{IsRingFile};
ghost use Rattle.sporc_files.specs.declared.fault.Fault.TheVariants as faults;
ghost use Rattle.sporc_files.specs.declared.file.File.TheVariants as kinds;
ghost use Rattle.sporc_files.specs.Names.{file_name, names_of_document};
ghost use Rattle.sporc_files.specs.Reading.{IsFileFault, key_file};
ghost use Rattle.sporc_files.specs.Uses.{AsksOnly, OnlyReads};
ghost use Rattle.sporc_files.specs.Writing.{Stores};
ghost use Rattle.sporc_commands.specs.Founding.{AreNamed, FirstBadKey, FoundOutcome, IsNamed};
ghost use Rattle.sporc_commands.specs.Founding.{IsStoreFault, MayFound, found_files};
ghost use Rattle.sporc_commands.specs.Founding.{founding_files, key_read, keys_read, names_in};
ghost use Rattle.sporc_commands.specs.Founding.{ring_of_founding};
ghost use Rattle.sporc_files.specs.Faults.{IsOutsideFault};

use sporc_entry::write_genesis;
use sporc_files::{Fault, File, Names, read_key_file, write_whole_file};
use sporc_keys::{Founding, Named, RingFile, write_ring_file};
use sporc_member::Device;
use sporc_outside::{Chance, Folder};
use sporc_words::{Found, Participant, Standing};
use std::alloc::Global;
use std::thread::Threads;

/// Makes a document of its founders' keys and of words of the chance, and writes its genesis and
/// the ring of each who is named, in ascending order of their numbers, in place of files with these
/// names. The key files of the founders' first devices are read in the order of the words; those of
/// joiners are not.
pub fn found<R: Threads + Sync, F: Folder, C: Chance>(
    rt: &R,
    alloc: Global,
    files: &mut F,
    chance: &mut C,
    asked: &Found,
) -> Result<(), Fault>
    requires { MayFound asked.now }
    ensures outcome { FoundOutcome asked.now (use_of F.told files.old files.new)
        (use_of C.told chance.old chance.new) result }
    ensures may_ask { AsksOnly
        (map (file_name (names_of_document asked.now.name)) (found_files asked.now.participants))
        (F.told files.old).asked (F.told files.new).asked }
    ensures lent { (F.told files.new).lent ≡ (F.told files.old).lent }
    ensures files_kept { (F.told files.old).faults ≤ (F.told files.new).faults }
    ensures chance_kept { (C.told chance.old).faults ≤ (C.told chance.new).faults }
{
    let names = Names::of_document(asked.name.as_str());
    let named = read_founders(rt, alloc, files, &names, asked.participants.as_slice())?;
    let founding = make_founding(alloc, chance, named.as_slice())?;
    write_founding(alloc, files, &names, &founding)?;
    Ok(())
}

// Those who are named, the founders by their key files.
fn read_founders<R: Threads + Sync, F: Folder>(
    rt: &R,
    alloc: Global,
    files: &mut F,
    names: &Names<'_>,
    participants: &[Participant],
) -> Result<Vec<Named>, Fault>
    ensures ok { IfOk result
        (λ named. AreNamed (F.told files.old).files names.now participants.now named.items) }
    ensures err { IfErr result
        (FirstBadKey (use_of F.told files.old files.new) names.now participants.now) }
    ensures reads { OnlyReads names.now (keys_read participants.now)
        (use_of F.told files.old files.new) }
{
    let mut named = Vec::new(alloc);
    for participant in participants {
        let one = read_named(rt, alloc, files, names, participant)?;
        named.push(one)?;
    }
    Ok(named)
}

// One who is named.
fn read_named<R: Threads + Sync, F: Folder>(
    rt: &R,
    alloc: Global,
    files: &mut F,
    names: &Names<'_>,
    participant: &Participant,
) -> Result<Named, Fault>
    ensures ok { IfOk result (IsNamed
        (F.told files.old).files names.now participant.now.member participant.now.standing) }
    ensures err { IfErr result (IsFileFault (key_file (first_device participant.now.member))
        (use_of F.told files.old files.new) names.now
        (kinds.Key (first_device participant.now.member))) }
    ensures reads { OnlyReads names.now (key_read participant.now.member participant.now.standing)
        (use_of F.told files.old files.new) }
{
    let member = participant.member;
    match participant.standing {
        Standing::Joiner => Ok(Named::Joiner { member }),
        Standing::Founder(role) => {
            let tree = read_key_file(rt, alloc, files, names, Device::first(member))?;
            let key = tree.public();
            Ok(Named::Founder { member, role, key })
        }
    }
}

// The document, before anything is written.
fn make_founding<C: Chance>(
    alloc: Global,
    chance: &mut C,
    named: &[Named],
) -> Result<Founding, Fault>
    requires { CanFound named.now }
    ensures ok { IfOk result (λ founding. IsFounding (C.told chance.old).given
        (C.told chance.new).given (in_order named.now) founding) }
    ensures genesis { IfOk result (λ founding. IsGenesis founding.genesis) }
    ensures rings { IfOk result (λ founding. AllByRecursion IsRingFile founding.rings) }
    ensures err { IfErr result
        (IsOutsideFault (C.told chance.old).faults (C.told chance.new).faults) }
    ensures kept { (C.told chance.old).faults ≤ (C.told chance.new).faults }
{
    let founding = sporc_keys::found(alloc, chance, named)?;
    Ok(founding)
}

// Writes the files of a document.
fn write_founding<F: Folder>(
    alloc: Global,
    files: &mut F,
    names: &Names<'_>,
    founding: &Founding,
) -> Result<(), Fault>
    requires genesis { IsGenesis founding.now.genesis }
    requires rings { AllByRecursion IsRingFile founding.now.rings }
    ensures ok { OnOk result (Stores (founding_files names.now founding.now)
        (F.told files.old).files (F.told files.new).files) }
    ensures err { IfErr result (IsStoreFault (founding_files names.now founding.now)
        (use_of F.told files.old files.new)) }
    ensures may_ask { AsksOnly (names_in (founding_files names.now founding.now))
        (F.told files.old).asked (F.told files.new).asked }
    ensures lent { (F.told files.new).lent ≡ (F.told files.old).lent }
    ensures kept { (F.told files.old).faults ≤ (F.told files.new).faults }
{
    let bytes = write_genesis(alloc, &founding.genesis)?;
    write_whole_file(alloc, files, names, File::Genesis, bytes.as_slice())?;
    write_rings(alloc, files, names, founding.rings.as_slice())
}

// Writes ring files, one after another.
fn write_rings<F: Folder>(
    alloc: Global,
    files: &mut F,
    names: &Names<'_>,
    rings: &[RingFile],
) -> Result<(), Fault>
    requires { AllByRecursion IsRingFile rings.now }
    ensures ok { OnOk result (Stores (map (ring_of_founding names.now) rings.now)
        (F.told files.old).files (F.told files.new).files) }
    ensures err { IfErr result (IsStoreFault (map (ring_of_founding names.now) rings.now)
        (use_of F.told files.old files.new)) }
    ensures may_ask { AsksOnly (names_in (map (ring_of_founding names.now) rings.now))
        (F.told files.old).asked (F.told files.new).asked }
    ensures lent { (F.told files.new).lent ≡ (F.told files.old).lent }
    ensures kept { (F.told files.old).faults ≤ (F.told files.new).faults }
{
    for ring in rings {
        let bytes = write_ring_file(alloc, ring)?;
        write_whole_file(
            alloc,
            files,
            names,
            File::Ring(ring.member),
            bytes.as_slice(),
        )?;
    }
    Ok(())
}
