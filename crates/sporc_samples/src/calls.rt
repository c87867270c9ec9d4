//! Runs of which one call of an object fails.

// The most calls of one object that a run is tried with.
const MOST: u64 = 100;

/// How many calls of an object a run makes, so that each of them was let fail: `ends_without` has a
/// run in which the call with this number is to fail, from 1 on, shows how it ends, and answers
/// whether it ended well, since it makes no such call. None if it makes a hundred or more.
pub fn count_calls<F: Fn(u64) -> bool>(ends_without: F) -> Option<u64>
    requires callable { F.IsAlwaysCallable ends_without }
{
    for made in 0..MOST {
        if ends_without(made + 1) {
            return Some(made);
        }
    }
    None
}
