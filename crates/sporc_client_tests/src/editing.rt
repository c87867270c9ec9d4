//! Edits of texts that were shown before, giving up what is pending, and how much may be.

use crate::checks::check;
use crate::room::{Room, edit, plays, shown_len};
use crate::scene::{MemoryClient, insertion};
use sporc_client::EditFault;
use sporc_samples::Cast;
use std::alloc::Global;
use std::process::Abort;

// Edits of the text shown now and of older ones: each is restated behind what came since, and at
// one place comes behind it.
const REBASED: &str = "
1 insert 0 z -> event 4
1 append 3 3 d -> event 5
1 show -> [abc] [zabcd]
1 append 9 3 q -> SeenAhead(5)
1 append 3 4 q -> WrongLength
1 append 5 4 q -> WrongLength
1 append 0 0 y -> event 6
1 show -> [abc] [zabcdy]
";

// What is given up takes the entry on its way with it, which then comes as any other's.
const GIVEN_UP: &str = "
1 insert 3 d -> event 4
1 insert 4 e -> event 5
1 submit -> entry
1 submit -> waiting
1 discard -> event 7
1 show -> [abc] [abc]
1 submit -> nothing
1 give 2 2 -> event 8
1 show -> [abcd] [abcd]
";

// ---- how much may be pending

// Inserts a text in front of the one that is shown: why that is refused, if it is.
fn inserts(
    rt: &impl Abort,
    alloc: Global,
    client: &mut MemoryClient,
    text: &str,
) -> Option<EditFault> {
    let delta = insertion(rt, alloc, shown_len(client), 0, text);
    edit(client, &delta).err()
}

// Whether that is refused for this.
fn is_refused(
    rt: &impl Abort,
    alloc: Global,
    client: &mut MemoryClient,
    text: &str,
    fault: EditFault,
) -> bool {
    inserts(rt, alloc, client, text) == Some(fault)
}

// The bytes of an edit are nine and its text's.
fn length_is_limited(rt: &impl Abort, alloc: Global, client: &mut MemoryClient) {
    let mut text = "a".repeat(alloc, 65_528).expect(rt, "memory");
    let refused = is_refused(rt, alloc, client, text.as_str(), EditFault::TooLong(65_537));
    check(rt, "too long", refused);
    let _ = text.pop();
    check(
        rt,
        "longest",
        inserts(rt, alloc, client, text.as_str()).is_none(),
    );
}

// 1,024 edits are pending, and no more may be.
fn number_is_limited(rt: &impl Abort, alloc: Global, client: &mut MemoryClient) {
    for _ in 1..1_024 {
        check(rt, "one more", inserts(rt, alloc, client, "b").is_none());
    }
    check(
        rt,
        "too many",
        is_refused(rt, alloc, client, "c", EditFault::PendingFull),
    );
    check(rt, "number pending", client.pending() == 1_024);
}

fn is_limited(rt: &impl Abort, alloc: Global, client: &mut MemoryClient) {
    length_is_limited(rt, alloc, client);
    number_is_limited(rt, alloc, client);
}

// Another inserted at the same place, and comes first: the edits above stand behind it.
const PASSED: &str = "
1 insert 0 c -> event 1
1 submit -> entry
2 give 1 1 -> event 1025
";

// The character at a place of what is then shown.
fn passed_at(place: usize) -> u8 {
    match place {
        0 => b'c',
        1..1_024 => b'b',
        _ => b'a',
    }
}

// Whether that is the text.
fn is_passed(text: &[u8]) -> bool {
    text.len() == 66_551 && text.iter().enumerate().all(|(i, c)| *c == passed_at(i))
}

fn shows_all(rt: &impl Abort, client: &MemoryClient) {
    let shown = client.shown().expect(rt, "memory");
    check(rt, "behind another", is_passed(shown.as_bytes()));
}

fn pending_is_limited(rt: &impl Abort, alloc: Global, cast: &Cast) {
    let mut room = Room::new(rt, alloc, cast, 2);
    is_limited(rt, alloc, room.client(rt, 2));
    room.tries(rt, alloc, PASSED);
    shows_all(rt, room.client(rt, 2));
}

// Edits are of the text that was shown, only few and short ones may be pending, and all of them
// pass what another made.
#[test]
fn edits_are_pending(rt: HostRuntime) {
    let cast = Cast::new(rt.alloc()).expect(&rt, "a cast");
    plays(&rt, rt.alloc(), &cast, REBASED);
    plays(&rt, rt.alloc(), &cast, GIVEN_UP);
    pending_is_limited(&rt, rt.alloc(), &cast);
}
