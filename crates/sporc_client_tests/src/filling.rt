//! A journal that is full.

use crate::checks::check;
use crate::room::Room;
use crate::scene::MemoryClient;
use sporc_client::MAX_EVENTS;
use sporc_samples::Cast;
use std::process::Abort;

// Gives up what is pending, which is nothing, until there is no room for an event.
fn fill(rt: &impl Abort, client: &mut MemoryClient) {
    for _ in 0..MAX_EVENTS {
        check(rt, "one event more", client.discard(1).is_ok());
    }
}

// Then no event is taken, and the checks of an entry come before that.
const FULL: &str = "
2 discard -> JournalFull
2 insert 0 x -> JournalFull
1 insert 0 y -> event 1
1 submit -> entry
2 give 1 1 -> JournalFull
2 give 2 1 -> Refused(WrongPosition)
1 give 1 1 -> event 3
2 show -> [] []
";

#[test]
fn a_full_journal_takes_no_event(rt: HostRuntime) {
    let cast = Cast::new(rt.alloc()).expect(&rt, "a cast");
    let mut room = Room::new(&rt, rt.alloc(), &cast, 2);
    fill(&rt, room.client(&rt, 2));
    room.tries(&rt, rt.alloc(), FULL);
}
