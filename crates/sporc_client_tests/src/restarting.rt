//! Clients that go back, and clients that begin with a history.

use crate::checks::check;
use crate::room::{ABC, Room};
use crate::scene::{MemoryClient, founder_ring, paired};
use sporc_line::Line;
use sporc_member::FIRST_DEVICE;
use sporc_samples::{Cast, epoch_key};
use std::alloc::Global;
use std::process::Abort;

// Member 2 holds "abc", a change and "d" behind it, and has sent an edit of its own.
const TWO_EPOCHS: &str = "
1 edits 3 -> event 4
1 submit -> entry
1 give 2 2 -> event 6
2 give 2 2 -> event 2
1 insert 3 d -> event 7
1 submit -> entry
1 give 3 3 -> event 9
2 give 3 3 -> event 3
2 insert 0 q -> event 4
2 submit -> entry
2 show -> [abcd] [qabcd]
";

// It goes back to the end, which gives up what is pending; and to the first entry.
const BACK: &str = "
2 restart 4 -> Ahead(3)
2 show -> [abcd] [qabcd]
2 restart 3 -> back
2 show -> [abcd] [abcd]
2 submit -> nothing
2 restart 1 -> back
2 show -> [abc] [abc]
";

// It learns the key of the next epoch once more, and its own entry comes as any other's.
const FORTH: &str = "
2 give 2 3 -> Refused(BaseAhead)
2 give 2 2 -> event 2
2 give 3 3 -> event 3
2 show -> [abcd] [abcd]
2 give 4 4 -> event 4
2 show -> [qabcd] [qabcd]
";

// It begins anew, under further leaves.
const ANEW: &str = "
2 restart 0 -> back
2 show -> [] []
2 insert 0 z -> event 1
2 submit -> entry
2 give 1 5 -> event 3
2 show -> [z] [z]
";

fn knows(rt: &impl Abort, room: &mut Room, key: [u8; 32]) {
    let client = room.client(rt, 2);
    check(rt, "key", client.key().copied() == Some(key));
}

// The second half of a submission's random bytes is the key of the next epoch.
fn goes_back(rt: &impl Abort, alloc: Global, room: &mut Room) {
    room.tries(rt, alloc, ABC);
    room.tries(rt, alloc, TWO_EPOCHS);
    knows(rt, room, [5; 32]);
    room.tries(rt, alloc, BACK);
    knows(rt, room, epoch_key(0));
    room.tries(rt, alloc, FORTH);
    knows(rt, room, [5; 32]);
    room.tries(rt, alloc, ANEW);
}

fn restarts(rt: &impl Abort, alloc: Global, cast: &Cast) {
    let mut room = Room::new(rt, alloc, cast, 2);
    goes_back(rt, alloc, &mut room);
}

// ---- with a history

// Its journal has an accept for each entry, and nothing is pending.
const GOES_ON: &str = "
2 show -> [abcd] [abcd]
2 submit -> nothing
2 insert 4 e -> event 4
2 submit -> entry
2 give 4 5 -> event 6
2 show -> [abcde] [abcde]
";

// The empty line of member 2, in a box: a function that owns a line itself is slow to prove.
fn empty_line(rt: &impl Abort, alloc: Global, cast: &Cast) -> Box<Line> {
    let genesis = cast.genesis(alloc).expect(rt, "a genesis");
    let ring = founder_ring(rt, alloc);
    let pairs = paired(rt, alloc, 2, 5);
    let line = Line::open(alloc, genesis, 2, FIRST_DEVICE, ring, pairs).expect(rt, "a line");
    Box::new(alloc, line).expect(rt, "memory")
}

fn accept_all(rt: &impl Abort, line: &mut Line, entries: &[Vec<u8>]) {
    for entry in entries {
        line.accept(line.len().wrapping_add(1), entry.as_slice())
            .expect(rt, "an entry");
    }
}

// The history that a client accepted, once more.
fn accepted_again(rt: &impl Abort, alloc: Global, cast: &Cast, client: &MemoryClient) -> Box<Line> {
    let mut line = empty_line(rt, alloc, cast);
    accept_all(rt, &mut line, client.entries());
    line
}

fn goes_on(rt: &impl Abort, alloc: Global, cast: &Cast, room: &mut Room) {
    room.tries(rt, alloc, ABC);
    room.tries(rt, alloc, TWO_EPOCHS);
    let line = accepted_again(rt, alloc, cast, room.client(rt, 2));
    room.resumes(rt, alloc, line);
    room.tries(rt, alloc, GOES_ON);
}

fn resumes(rt: &impl Abort, alloc: Global, cast: &Cast) {
    let mut room = Room::new(rt, alloc, cast, 2);
    goes_on(rt, alloc, cast, &mut room);
}

#[test]
fn a_client_goes_back_or_begins_with_a_history(rt: HostRuntime) {
    let cast = Cast::new(rt.alloc()).expect(&rt, "a cast");
    restarts(&rt, rt.alloc(), &cast);
    resumes(&rt, rt.alloc(), &cast);
}
