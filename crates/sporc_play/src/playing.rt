//! Plays: a script is read and performed, and its report is written.

ghost use Rattle.std.specs.Prelude.{◌≡◌, ◌≢◌, ◌+◌, ◌≤◌, List, IfErr, OnOk, OnErr};
ghost use Rattle.sporc_outside.specs.Uses.{use_of};
ghost use Rattle.sporc_outside.specs.Reading.{ConsumesAtMost};
ghost use Rattle.sporc_play.specs.Cast.{setup_of};
ghost use Rattle.sporc_play.specs.Lines.{WritesLine, WritesPrefix};
ghost use Rattle.sporc_play.specs.Playing.{IsShortScript, IsWriteCause, PlayOutcome};
ghost use Rattle.sporc_play.specs.Report.{Reports, ReportsPrefix};
ghost use Rattle.sporc_play.specs.Scene.{Scene};
ghost use Rattle.sporc_play.specs.Stage.{Becomes, CanPerform, StandsFor};

use crate::fault::PlayFault;
use crate::state::PlayState;
use sporc_outside::{Sink, Source, read_all, write_all};
use sporc_script::{Command, PlayLine, read_play};
use std::alloc::Global;

/// The most bytes of a script.
pub const MAX_SCRIPT: usize = 16_777_216;

/// Reads a script to its end, performs it, and writes its report, line by line.
///
/// | Answer | The source | The sink |
/// |---|---|---|
/// | `Ok` | was read to its end as a script | got the script's report |
/// | `Memory` | | got nothing, or a prefix of that report |
/// | `ReadFault` | counted a fault | got nothing |
/// | `WriteFault` | was read to its end as a script | counted a fault, after a prefix of that report |
/// | `LineFault(k)` | was read to its end, and `k` is its first line outside the grammar | got nothing |
/// | `TooLong` | gave more than [`MAX_SCRIPT`] bytes | got nothing |
pub fn play<S: Source, O: Sink>(alloc: Global, source: &mut S, out: &mut O) -> Result<(), PlayFault>
    ensures outcome { PlayOutcome (use_of S.told source.old source.new)
        (use_of O.told out.old out.new) result }
    ensures taken { ConsumesAtMost (MAX_SCRIPT + 1) (S.told source.old).left
        (S.told source.new).left }
    ensures unchanged { IfErr result
        (λ fault. fault ≢ PlayFault.WriteFault → fault ≢ PlayFault.Memory → out.new ≡ out.old) }
    ensures source_kept { (S.told source.old).faults ≤ (S.told source.new).faults }
    ensures out_kept { (O.told out.old).faults ≤ (O.told out.new).faults }
{
    let text = read_all(alloc, source, MAX_SCRIPT)?;
    let script = read_play(alloc, text.as_slice())?;
    write_report(alloc, script.lines(), out)
}

// Performs the lines, and writes their report. Fails only by memory or the sink.
fn write_report<O: Sink>(alloc: Global, lines: &[PlayLine], out: &mut O) -> Result<(), PlayFault>
    requires { IsShortScript lines.now }
    ensures ok { OnOk result (Reports lines.now (O.told out.old).written (O.told out.new).written) }
    ensures err { OnErr result
        (ReportsPrefix lines.now (O.told out.old).written (O.told out.new).written) }
    ensures causes { IfErr result (IsWriteCause (O.told out.old).faults (O.told out.new).faults) }
    ensures kept { (O.told out.old).faults ≤ (O.told out.new).faults }
{
    let mut state = PlayState::new(alloc, lines)?;
    for line in lines {
        if let Err(fault) = write_line(alloc, &mut state, &line.command, out) {
            drop(state);
            return Err(fault);
        }
    }
    drop(state);
    Ok(())
}

// Performs a command, and writes its line.
fn write_line<O: Sink>(
    alloc: Global,
    state: &mut PlayState,
    command: &Command,
    out: &mut O,
) -> Result<(), PlayFault>
    requires { CanPerform state.old command.now }
    ensures state { OnOk result (Becomes state.old command.now state.new) }
    ensures ok { OnOk result
        ((script : List PlayLine) (scene : Scene) → StandsFor script scene state.old → WritesLine
        (setup_of script) scene command.now (O.told out.old).written (O.told out.new).written) }
    ensures memory { result ≡ Err PlayFault.Memory → out.new ≡ out.old }
    ensures prefix { result ≡ Err PlayFault.WriteFault → (script : List PlayLine) (scene : Scene)
        → StandsFor script scene state.old → WritesPrefix (setup_of script) scene command.now
        (O.told out.old).written (O.told out.new).written }
    ensures causes { IfErr result (IsWriteCause (O.told out.old).faults (O.told out.new).faults) }
    ensures kept { (O.told out.old).faults ≤ (O.told out.new).faults }
{
    let mut line = String::new(alloc);
    state.perform(alloc, command, &mut line)?;
    write_all(out, line.as_bytes())?;
    Ok(())
}
