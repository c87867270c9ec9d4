//! Clients of the sample document that act by rows, one a line: the place of a client, which is its
//! member's number unless it is of a further device, what it is told, and what it answers.
//!
//! | Row | Answer |
//! |---|---|
//! | `M insert AT TEXT` | edits the shown text: `event N` |
//! | `M append SEEN LEN TEXT` | inserts at the end of a text of LEN characters, as shown after SEEN events: `event N` |
//! | `M remove AT COUNT` | edits the shown text: `event N` |
//! | `M edits N`, `M reads N` | changes the role of member N: `event K` |
//! | `M upgrade`, `M device N D`, `M drops-device N D` | upgrades the document, adds or drops a device of member N: `event K` |
//! | `M submit` | `entry`, `waiting`, `nothing` or `dropped FAULT`. Entries are counted from 1 |
//! | `M give POSITION ENTRY` | accepts an entry at a position: `event N` |
//! | `M examined POSITION ENTRY OTHER` | accepts an entry, examined under the key for another: `good event N`, `bad event N` |
//! | `M discard` | `event N` |
//! | `M restart K` | `back` |
//! | `M show` | the committed and the shown text: `[TEXT] [TEXT]` |
//!
//! A call that is refused answers its fault.

use crate::checks::check_answer;
use crate::scene::{MemoryClient, RANDOM, insertion, joined, opened, removal, resumed};
use sporc_base::Bytes;
use sporc_client::{EditFault, Submitted};
use sporc_delta::Delta;
use sporc_head::Examined;
use sporc_line::Line;
use sporc_member::{Change, Device, Role};
use sporc_memory::Calls;
use sporc_samples::{Cast, Member};
use std::alloc::Global;
use std::fmt::Debug;
use std::process::Abort;
use std::str::SplitWhitespace;

// Members 1 and 2 come to hold "abc".
pub(crate) const ABC: &str = "
1 insert 0 abc -> event 1
1 submit -> entry
1 give 1 1 -> event 3
2 give 1 1 -> event 1
";

/// The clients of the members 1, 2, .. by their first devices and of further devices behind them,
/// and the entries that they made. A function that owns a room is quick to prove.
#[derive(Drop)]
pub(crate) struct Room {
    clients: Vec<Box<MemoryClient>>,
    entries: Vec<Bytes>,
}

impl Room {
    /// Clients of the first members, just opened, each with the keys that it shares with all.
    pub(crate) fn new(rt: &impl Abort, alloc: Global, cast: &Cast, members: u16) -> Room {
        let mut clients = Vec::new(alloc);
        for i in 0..members {
            let client = joined(rt, alloc, cast, Device::first(i.wrapping_add(1)));
            clients.push(client).expect(rt, "memory");
        }
        Room {
            clients,
            entries: Vec::new(alloc),
        }
    }

    /// The client of one founder alone, opened as [`opened`] says.
    pub(crate) fn alone(
        rt: &impl Abort,
        alloc: Global,
        cast: &Cast,
        me: u16,
        last: u16,
        calls: Calls,
    ) -> Room {
        let mut clients = Vec::new(alloc);
        let client = opened(rt, alloc, cast, Device::first(me), last, calls);
        clients.push(client).expect(rt, "memory");
        Room {
            clients,
            entries: Vec::new(alloc),
        }
    }

    /// The client of a further device, just opened, behind all others.
    pub(crate) fn joins(&mut self, rt: &impl Abort, alloc: Global, cast: &Cast, device: Device) {
        let client = joined(rt, alloc, cast, device);
        self.clients.push(client).expect(rt, "memory");
    }

    /// The client of the member at this place, from 1 on.
    pub(crate) fn client(&mut self, rt: &impl Abort, member: u32) -> &mut MemoryClient {
        client_of(rt, self.clients.as_mut_slice(), member)
    }

    /// The last client closes, and another begins with its signer and this line.
    pub(crate) fn resumes(&mut self, rt: &impl Abort, alloc: Global, line: Box<Line>) {
        let client = self.clients.pop().expect(rt, "a client");
        let signer = Box::into_inner(client).close();
        let client = resumed(rt, alloc, line, signer);
        self.clients.push(client).expect(rt, "memory");
    }

    /// Does what the rows say, one after the other, and compares what is answered.
    pub(crate) fn tries(&mut self, rt: &impl Abort, alloc: Global, rows: &str) {
        for row in rows.lines() {
            if !row.is_empty() {
                self.tries_row(rt, alloc, row);
            }
        }
    }

    fn tries_row(&mut self, rt: &impl Abort, alloc: Global, row: &str) {
        let (told, answer) = row.split_once(" -> ").expect(rt, "an answer");
        let found = self.answer(rt, alloc, &mut told.split_whitespace());
        check_answer(rt, row, found.as_str(), answer);
    }

    // What a client answers.
    fn answer(
        &mut self,
        rt: &impl Abort,
        alloc: Global,
        words: &mut SplitWhitespace<'_>,
    ) -> String {
        let member = number(rt, words);
        match word(rt, words) {
            "submit" => self.submit(rt, alloc, member),
            "give" => self.give(rt, alloc, member, words),
            "examined" => self.give_examined(rt, alloc, member, words),
            act => answer_to(rt, alloc, self.client(rt, member), act, words),
        }
    }

    fn submit(&mut self, rt: &impl Abort, alloc: Global, member: u32) -> String {
        match self.client(rt, member).submit(1, &RANDOM) {
            Ok(Submitted::Waiting) => text(rt, alloc, "waiting"),
            Ok(Submitted::Nothing) => text(rt, alloc, "nothing"),
            Ok(Submitted::Dropped(fault)) => {
                format!(in alloc; "dropped {fault:?}").expect(rt, "memory")
            }
            Ok(Submitted::Entry(entry)) => {
                self.entries.push(entry).expect(rt, "memory");
                text(rt, alloc, "entry")
            }
            Err(fault) => format!(in alloc; "{fault:?}").expect(rt, "memory"),
        }
    }

    fn give(
        &mut self,
        rt: &impl Abort,
        alloc: Global,
        member: u32,
        words: &mut SplitWhitespace<'_>,
    ) -> String {
        let position = number(rt, words);
        let entry = entry_at(rt, self.entries.as_slice(), number(rt, words));
        let client = client_of(rt, self.clients.as_mut_slice(), member);
        told(rt, alloc, client.accept(1, position, entry))
    }

    fn give_examined(
        &mut self,
        rt: &impl Abort,
        alloc: Global,
        member: u32,
        words: &mut SplitWhitespace<'_>,
    ) -> String {
        let position = number(rt, words);
        let entry = entry_at(rt, self.entries.as_slice(), number(rt, words));
        let key_of = entry_at(rt, self.entries.as_slice(), number(rt, words));
        let client = client_of(rt, self.clients.as_mut_slice(), member);
        let key = client.key_for(key_of).expect(rt, "a key");
        let examined = examined(rt, alloc, &key, entry);
        let found = told(rt, alloc, client.accept_examined(1, position, &examined));
        let verdict = if examined.verdict() { "good" } else { "bad" };
        format!(in alloc; "{verdict} {found}").expect(rt, "memory")
    }
}

// The bytes of an entry, examined under a key.
fn examined(rt: &impl Abort, alloc: Global, key: &[u8; 56], entry: &[u8]) -> Box<Examined> {
    let bytes = Vec::from_slice(alloc, entry).expect(rt, "memory");
    let examined = Examined::of(key, bytes).ok().expect(rt, "memory");
    Box::new(alloc, examined).expect(rt, "memory")
}

// The client at this place, from 1 on.
fn client_of<'a>(
    rt: &impl Abort,
    clients: &'a mut [Box<MemoryClient>],
    member: u32,
) -> &'a mut MemoryClient {
    let place = (member as usize).wrapping_sub(1);
    clients.get_mut(place).expect(rt, "a client")
}

// The entry at this place, from 1 on.
fn entry_at<'a>(rt: &impl Abort, entries: &'a [Bytes], number: u32) -> &'a [u8] {
    let place = (number as usize).wrapping_sub(1);
    entries.get(place).expect(rt, "an entry").as_slice()
}

/// Opens the clients of members 1 and 2, who come to hold "abc", and does what the rows say.
pub(crate) fn plays(rt: &impl Abort, alloc: Global, cast: &Cast, rows: &str) {
    let mut room = Room::new(rt, alloc, cast, 2);
    room.tries(rt, alloc, ABC);
    room.tries(rt, alloc, rows);
}

// What a client answers that needs no entry of the others.
fn answer_to(
    rt: &impl Abort,
    alloc: Global,
    client: &mut MemoryClient,
    act: &str,
    words: &mut SplitWhitespace<'_>,
) -> String {
    match act {
        "insert" => insert(rt, alloc, client, words),
        "append" => append(rt, alloc, client, words),
        "remove" => remove(rt, alloc, client, words),
        "discard" => told(rt, alloc, client.discard(1)),
        "restart" => restart(rt, alloc, client, words),
        "show" => show(rt, alloc, client),
        change => changes(rt, alloc, client, change, words),
    }
}

fn word<'a>(rt: &impl Abort, words: &mut SplitWhitespace<'a>) -> &'a str {
    words.next().expect(rt, "a word")
}

fn number(rt: &impl Abort, words: &mut SplitWhitespace<'_>) -> u32 {
    word(rt, words).parse::<u32>().expect(rt, "a number")
}

fn text(rt: &impl Abort, alloc: Global, text: &str) -> String {
    String::from_str(alloc, text).expect(rt, "memory")
}

// The answer of a call that gives the length of the journal.
fn told<E: Debug + Drop>(rt: &impl Abort, alloc: Global, outcome: Result<u64, E>) -> String {
    match outcome {
        Ok(events) => format!(in alloc; "event {events}").expect(rt, "memory"),
        Err(fault) => format!(in alloc; "{fault:?}").expect(rt, "memory"),
    }
}

/// Edits the text that is shown now.
pub(crate) fn edit(client: &mut MemoryClient, delta: &Delta) -> Result<u64, EditFault> {
    let seen = client.journal().len() as u64;
    client.edit(1, seen, delta)
}

/// The length of the text that is shown now.
pub(crate) fn shown_len(client: &MemoryClient) -> u64 {
    client
        .shown_len_at(client.journal().len() as u64)
        .unwrap_or(0)
}

fn insert(
    rt: &impl Abort,
    alloc: Global,
    client: &mut MemoryClient,
    words: &mut SplitWhitespace<'_>,
) -> String {
    let at = u64::from(number(rt, words));
    let delta = insertion(rt, alloc, shown_len(client), at, word(rt, words));
    told(rt, alloc, edit(client, &delta))
}

fn append(
    rt: &impl Abort,
    alloc: Global,
    client: &mut MemoryClient,
    words: &mut SplitWhitespace<'_>,
) -> String {
    let seen = u64::from(number(rt, words));
    let len = u64::from(number(rt, words));
    let delta = insertion(rt, alloc, len, len, word(rt, words));
    told(rt, alloc, client.edit(1, seen, &delta))
}

fn remove(
    rt: &impl Abort,
    alloc: Global,
    client: &mut MemoryClient,
    words: &mut SplitWhitespace<'_>,
) -> String {
    let at = u64::from(number(rt, words));
    let count = u64::from(number(rt, words));
    let delta = removal(rt, alloc, shown_len(client), at, count);
    told(rt, alloc, edit(client, &delta))
}

fn changes(
    rt: &impl Abort,
    alloc: Global,
    client: &mut MemoryClient,
    act: &str,
    words: &mut SplitWhitespace<'_>,
) -> String {
    let change = match act {
        "upgrade" => Change::Upgrade,
        "device" | "drops-device" => change_of_device(rt, alloc, act, words),
        _ => change_of_member(rt, act, words),
    };
    told(rt, alloc, client.change(1, change))
}

fn member(rt: &impl Abort, words: &mut SplitWhitespace<'_>) -> u16 {
    u16::try_from(number(rt, words)).expect(rt, "a member")
}

fn change_of_member(rt: &impl Abort, act: &str, words: &mut SplitWhitespace<'_>) -> Change {
    let member = member(rt, words);
    match act {
        "edits" => Change::SetRole {
            member,
            role: Role::Editor,
        },
        "reads" => Change::SetRole {
            member,
            role: Role::Reader,
        },
        _ => panic!(rt; "no such act"),
    }
}

fn change_of_device(
    rt: &impl Abort,
    alloc: Global,
    act: &str,
    words: &mut SplitWhitespace<'_>,
) -> Change {
    let member = member(rt, words);
    let device = u8::try_from(number(rt, words)).expect(rt, "a device");
    if act == "drops-device" {
        return Change::DropDevice { member, device };
    }
    let number = device;
    let keys = Member::by_device(alloc, Device { member, number }, Role::Editor);
    Change::AddDevice {
        member,
        device,
        key: keys.expect(rt, "memory").key(),
    }
}

fn restart(
    rt: &impl Abort,
    alloc: Global,
    client: &mut MemoryClient,
    words: &mut SplitWhitespace<'_>,
) -> String {
    match client.restart(number(rt, words)) {
        Ok(()) => text(rt, alloc, "back"),
        Err(fault) => format!(in alloc; "{fault:?}").expect(rt, "memory"),
    }
}

fn show(rt: &impl Abort, alloc: Global, client: &MemoryClient) -> String {
    let committed = client.committed().expect(rt, "memory");
    let shown = client.shown().expect(rt, "memory");
    format!(in alloc; "[{committed}] [{shown}]").expect(rt, "memory")
}
