//! Sample histories, each in a box: a function that owns a history itself is slow to prove.

use sporc_member::Change;
use sporc_samples::{Cast, History, short_history};
use std::alloc::Global;
use std::process::Abort;

/// The empty history of the sample document.
pub(crate) fn empty_sample(rt: &impl Abort, alloc: Global, cast: &Cast) -> Box<History> {
    let genesis = cast.genesis(alloc).expect(rt, "a genesis");
    let sample = History::new(alloc, &genesis).expect(rt, "a history");
    Box::new(alloc, sample).expect(rt, "memory")
}

/// The short history: edits by 2 and 4, a change by 1 that removes 4, and an edit by 5.
pub(crate) fn short_sample(rt: &impl Abort, alloc: Global, cast: &Cast) -> Box<History> {
    let sample = short_history(alloc, cast).expect(rt, "a history");
    Box::new(alloc, sample).expect(rt, "memory")
}

/// The short history, the document's Upgrade by 1, and another edit by 5.
pub(crate) fn upgraded_sample(rt: &impl Abort, alloc: Global, cast: &Cast) -> Box<History> {
    let mut sample = short_sample(rt, alloc, cast);
    sample
        .change(alloc, cast, 1, Change::Upgrade, &[1, 2, 3, 5])
        .expect(rt, "a change");
    sample.insert(alloc, cast, 5, 4, b"e").expect(rt, "an edit");
    sample
}
