//! The program `sporc`, over the outside as the system gives it.
#![tactic(auto)]

use sporc_files::{Fault, Names};
use sporc_outside::OpenGate;
use sporc_real::{RandomWords, RealFolder, StandardInput, StandardOutput, TcpNet};
use sporc_top::run;
use std::alloc::AllocError;
use std::env;
use std::fs::File;
use std::io::ErrorKind;
use std::process::ExitCode;
use std::time::Duration;

// How long a peer may say nothing, or take nothing, before its connection is given up, in seconds.
const PEER_LIMIT: u64 = 60;

fn main(rt: HostRuntime) -> ExitCode {
    let _held = hold_streams(&rt);
    let mut source = StandardInput::new(rt.stdin());
    let mut out = StandardOutput::new(rt.stdout());
    let mut files = RealFolder::new(&rt);
    let mut net = TcpNet::with_limit(&rt, Duration::from_secs(PEER_LIMIT));
    let mut chance = RandomWords::new(&rt);
    match words(&rt) {
        Ok(words) => ExitCode::from(run(
            &rt,
            rt.alloc(),
            words.as_slice(),
            &mut source,
            &mut out,
            &mut files,
            &mut net,
            &mut chance,
            &OpenGate,
        )),
        Err(_) => {
            Fault::Memory.tell(&Names::of_document(""), &mut out);
            ExitCode::from(Fault::Memory.status())
        }
    }
}

// Files that stand, to the program's end, in the place of standard streams that are closed: the
// system gives the lowest free number to each file that is opened, and what is written to standard
// output must reach no other file or link.
fn hold_streams(rt: &HostRuntime) -> [Option<File>; 3] {
    [hold_stream(rt), hold_stream(rt), hold_stream(rt)]
}

// A file that has nothing to read and takes nothing.
fn hold_stream(rt: &HostRuntime) -> Option<File> {
    File::open(rt, "/dev/null").ok()
}

// The words after the program's name. Where one is not UTF-8 there are none, which is no command.
fn words(rt: &HostRuntime) -> Result<Vec<String>, AllocError> {
    match env::args(rt) {
        Ok(args) => args.skip(1).collect(rt.alloc()),
        Err(error) if error.kind() == ErrorKind::OutOfMemory => Err(AllocError),
        Err(_) => Ok(Vec::new(rt.alloc())),
    }
}
