//! A history of four entries, and what is done with it once it is saved.

use examines::each_failing_call_is_told;
use many::histories_are_loaded_by_many;
use sporc_samples::{Cast, History, short_history};
use std::alloc::Global;
use std::process::Abort;
use std::sync::Wait;
use std::thread::Threads;

mod examines;
mod files;
mod folder;
mod many;
mod tells;

fn is_used<R: Threads + Wait + Sync + Abort>(rt: &R, alloc: Global, cast: &Cast, sample: &History) {
    histories_are_loaded_by_many(rt, alloc, cast, sample);
    each_failing_call_is_told(rt, alloc, cast);
}

fn short_history_is_used<R: Threads + Wait + Sync + Abort>(rt: &R, alloc: Global, cast: &Cast) {
    let sample = short_history(alloc, cast).expect(rt, "a history");
    is_used(rt, alloc, cast, &sample);
    drop(sample);
}

#[test]
fn a_history_is_loaded_and_examined(rt: HostRuntime) {
    let cast = Cast::new(rt.alloc()).expect(&rt, "a cast");
    short_history_is_used(&rt, rt.alloc(), &cast);
}
