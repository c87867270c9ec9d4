//! A short history.

use crate::cast::Cast;
use crate::fault::SampleFault;
use crate::history::History;
use sporc_member::Change;
use std::alloc::Global;

/// A history of four entries whose text is `abcd`: edits by 2 and 4, a change by 1 that removes 4,
/// and an edit by 5.
pub fn short_history(alloc: Global, cast: &Cast) -> Result<History, SampleFault> {
    let genesis = cast.genesis(alloc)?;
    let mut sample = History::new(alloc, &genesis)?;
    append_four(alloc, cast, &mut sample)?;
    Ok(sample)
}

fn append_four(alloc: Global, cast: &Cast, sample: &mut History) -> Result<(), SampleFault> {
    sample.insert(alloc, cast, 2, 0, b"ab")?;
    sample.insert(alloc, cast, 4, 2, b"c")?;
    sample.change(alloc, cast, 1, Change::Remove { member: 4 }, &[1, 2, 3, 5])?;
    sample.insert(alloc, cast, 5, 3, b"d")
}
