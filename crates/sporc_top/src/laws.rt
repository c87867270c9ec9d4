//! Laws over what a run did, whatever its links and disks tell. Their functions do nothing.

ghost use Rattle.std.specs.Prelude.{◌≡◌, ◌<◌, ◌≤◌, ℕ, List, None, Some, length};
ghost use Rattle.sporc_member.specs.declared.device.Device.{Device};
ghost use Rattle.sporc_script.specs.Grammar.{IsPlayFault, IsPlayScript};
ghost use Rattle.sporc_script.specs.Spelling.{DeviceInRange};
ghost use Rattle.sporc_script.specs.declared.play_line.PlayLine.{PlayLine};
ghost use Rattle.sporc_play.specs.declared.playing.TheConstants.{MAX_SCRIPT};
ghost use Rattle.sporc_play.specs.Playing.{PlaysGenerated};
ghost use Rattle.sporc_words.specs.declared.command.Command.TheVariants.{Generate, Play};
ghost use Rattle.sporc_words.specs.Commands.{command_of};
ghost use Rattle.sporc_files.specs.declared.fault.Fault.TheVariants as faults;
ghost use Rattle.sporc_files.specs.Faults.{WritesFaultLine};
ghost use Rattle.sporc_top.specs.LeafFiles.{IsTold, LeavesLeafFile, ProgramRun, SignOnceOverRuns};
ghost use Rattle.sporc_top.specs.LeafFiles.{leaf_name, over_leaf_file};
ghost use Rattle.sporc_top.specs.Outcome.{RunOutcome, UnlessCutOff};
ghost use Rattle.sporc_top.specs.Performing.{no_files};
ghost use Rattle.sporc_top.specs.Plays.{IsPlayed, PlayOf, WritesReport};
ghost use Rattle.sporc_top.specs.Uses.{OutsideUse};

use sporc_outside::LeafDisk;

/// If `play` answers 0 for a text that the source tells, the text is a script, which it played; if
/// that has an admin, its clients agree at any two moments. docs/HEADLINE.md says more.
pub fn plays_agree<D: LeafDisk>()
    ensures { (words : List (List ℕ)) (did : OutsideUse) → RunOutcome D.told words did 0
        → command_of words ≡ Some Play → (text : List ℕ) → did.source.before.left ≡ Some text
        → (script : List PlayLine) × IsPlayed text script did }
{}

/// Of a source that tells a script, `play` writes the report, unless memory runs out or the source
/// or the sink fails.
pub fn scripts_are_played<D: LeafDisk>()
    ensures { (text : List ℕ) (did : OutsideUse) (status : ℕ) → PlayOf D.told text did status
        → length text ≤ MAX_SCRIPT → (script : List PlayLine) → IsPlayScript text script
        → UnlessCutOff status ((status ≡ 0) × WritesReport script did.out) }
{}

/// Of a source that tells a text with a line outside the grammar, it writes the number of the first
/// one, unless the same.
pub fn fault_lines_are_told<D: LeafDisk>()
    ensures { (text : List ℕ) (did : OutsideUse) (status : ℕ) → PlayOf D.told text did status
        → length text ≤ MAX_SCRIPT → (line : ℕ) → IsPlayFault text line
        → UnlessCutOff status ((status ≡ 3) × WritesFaultLine did.out no_files (faults.Line line)) }
{}

/// Of a source that tells more bytes than a script may have, it writes that, unless the same.
pub fn long_scripts_are_told<D: LeafDisk>()
    ensures { (text : List ℕ) (did : OutsideUse) (status : ℕ) → PlayOf D.told text did status
        → MAX_SCRIPT < length text
        → UnlessCutOff status ((status ≡ 3) × WritesFaultLine did.out no_files faults.LongScript) }
{}

/// If the words ask for a generated run, `play` writes its summary, unless memory runs out or the
/// sink fails.
pub fn generated_runs_are_played<D: LeafDisk>()
    ensures { (words : List (List ℕ)) (did : OutsideUse) (status n : ℕ)
        → RunOutcome D.told words did status → command_of words ≡ Some (Generate n)
        → UnlessCutOff status ((status ≡ 0) × PlaysGenerated n did.out) }
{}

/// Behind a run of the program that did not have the disk of a device's leaf file handed out,
/// whatever its words and its end, that file stands as before. Or the run is a `keygen` that makes
/// it, where there was none, or where something outside failed.
///
/// This speaks of a folder that tells its files, and which disks are out.
pub fn leaf_files_stay<D: LeafDisk>()
    ensures { (document : List ℕ) (device : Device) (run : ProgramRun D.told) → IsTold D.told run
        → over_leaf_file D.told (leaf_name document device) run ≡ None
        → LeavesLeafFile D.told (leaf_name document device) run }
{}

/// Over runs of the program one behind another, whatever their words and their ends, the leaves
/// that sign over one device's leaf file rise, so none signs twice. Between two runs that file
/// stays as it was, or a crash leaves of it what it may leave of its disk; as long as it is there
/// no `keygen` that makes it meets a call outside that fails. A run that a crash cuts off answers
/// nothing, and is none of these.
///
/// This speaks of a folder that tells its files, and of disks that tell their bytes and behave as
/// [`LeafDisk`] says. Two devices of a document have two leaf files.
pub fn no_leaf_signs_twice_over_runs<D: LeafDisk>()
    ensures own { (document : List ℕ) (one other : Device) → DeviceInRange one → DeviceInRange other
        → leaf_name document one ≡ leaf_name document other → one ≡ other }
    ensures rise { (document : List ℕ) (device : Device)
        → SignOnceOverRuns D.told (leaf_name document device) }
{}
