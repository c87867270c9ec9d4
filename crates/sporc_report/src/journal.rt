//! The lines of a journal.

ghost use Rattle.std.specs.Prelude.{◌≡◌, ◌++◌, codes, OnErr, OnOk, flat_map, string_bytes};
ghost use Rattle.std.specs.Fmt.{decimal};
ghost use Rattle.hex.specs.Hex.{encode_lower};
ghost use Rattle.sporc_base.specs.Lists.{StartsWith};
ghost use Rattle.sporc_client.specs.declared.event.Event.TheVariants as events;
ghost use Rattle.sporc_member.specs.Role.{role_name};
ghost use Rattle.sporc_report.specs.JournalLines.{change_text, delta_text, event_text};
ghost use Rattle.sporc_report.specs.JournalLines.{journal_lines, part_text, spaced_part};

use crate::appending::{push_between, push_counted, push_role_name, push_word};
use crate::quoted::push_quoted;
use crate::showing::push_digits;
use sporc_base::Memory;
use sporc_client::Event;
use sporc_delta::{Delta, Part};
use sporc_member::{Change, ChangeFault, Role};
use std::alloc::Global;

/// Appends a line for each event.
pub fn push_journal(alloc: Global, out: &mut String, journal: &[Event]) -> Result<(), Memory>
    ensures ok { OnOk result
        (string_bytes out.new ≡ string_bytes out.old ++ journal_lines journal.now) }
    ensures memory { OnErr result (StartsWith (string_bytes out.new) (string_bytes out.old)) }
{
    for event in journal {
        push_event(alloc, out, event)?;
        push_word(out, "\n")?;
    }
    Ok(())
}

fn push_event(alloc: Global, out: &mut String, event: &Event) -> Result<(), Memory>
    ensures ok { OnOk result (string_bytes out.new ≡ string_bytes out.old ++ event_text event.now) }
    ensures memory { OnErr result (StartsWith (string_bytes out.new) (string_bytes out.old)) }
{
    match event {
        Event::Edit { by, seen, delta } => push_edit(out, *by, *seen, delta),
        Event::Change { by, change } => push_asked(alloc, out, *by, change),
        Event::Submit { by, entry } => push_submitted(alloc, out, *by, entry.as_slice()),
        Event::Dropped { by, fault } => push_dropped(out, *by, *fault),
        Event::Accept { by, place } => push_accepted(out, *by, *place),
        Event::Discard { by } => push_counted(out, "discard ", u64::from(*by)),
    }
}

fn push_edit(out: &mut String, by: u32, seen: u64, delta: &Delta) -> Result<(), Memory>
    ensures ok { OnOk result (string_bytes out.new
        ≡ string_bytes out.old ++ event_text (events.Edit by seen delta.now)) }
    ensures memory { OnErr result (StartsWith (string_bytes out.new) (string_bytes out.old)) }
{
    push_counted(out, "edit ", u64::from(by))?;
    push_stated(out, seen, delta)
}

// How many events its editor had seen, and its delta.
fn push_stated(out: &mut String, seen: u64, delta: &Delta) -> Result<(), Memory>
    ensures ok { OnOk result (string_bytes out.new ≡ string_bytes out.old
        ++ (codes " " ++ (decimal seen ++ (codes " " ++ delta_text delta.now)))) }
    ensures memory { OnErr result (StartsWith (string_bytes out.new) (string_bytes out.old)) }
{
    push_between(out, " ", seen, " ")?;
    push_delta(out, delta)
}

fn push_asked(alloc: Global, out: &mut String, by: u32, change: &Change) -> Result<(), Memory>
    ensures ok { OnOk result
        (string_bytes out.new ≡ string_bytes out.old ++ event_text (events.Change by change.now)) }
    ensures memory { OnErr result (StartsWith (string_bytes out.new) (string_bytes out.old)) }
{
    push_between(out, "change ", u64::from(by), " ")?;
    push_change(alloc, out, change)
}

fn push_submitted(alloc: Global, out: &mut String, by: u32, entry: &[u8]) -> Result<(), Memory>
    ensures ok { OnOk result
        (string_bytes out.new ≡ string_bytes out.old ++ event_text (events.Submit by entry.now)) }
    ensures memory { OnErr result (StartsWith (string_bytes out.new) (string_bytes out.old)) }
{
    push_between(out, "submit ", u64::from(by), " ")?;
    push_digits(alloc, out, entry)
}

fn push_dropped(out: &mut String, by: u32, fault: ChangeFault) -> Result<(), Memory>
    ensures ok { OnOk result
        (string_bytes out.new ≡ string_bytes out.old ++ event_text (events.Dropped by fault)) }
    ensures memory { OnErr result (StartsWith (string_bytes out.new) (string_bytes out.old)) }
{
    push_between(out, "dropped ", u64::from(by), " ")?;
    push_word(out, fault.name())
}

fn push_accepted(out: &mut String, by: u32, place: u32) -> Result<(), Memory>
    ensures ok { OnOk result
        (string_bytes out.new ≡ string_bytes out.old ++ event_text (events.Accept by place)) }
    ensures memory { OnErr result (StartsWith (string_bytes out.new) (string_bytes out.old)) }
{
    push_counted(out, "accept ", u64::from(by))?;
    push_counted(out, " ", u64::from(place))
}

pub(crate) fn push_change(alloc: Global, out: &mut String, change: &Change) -> Result<(), Memory>
    ensures ok { OnOk result
        (string_bytes out.new ≡ string_bytes out.old ++ change_text change.now) }
    ensures memory { OnErr result (StartsWith (string_bytes out.new) (string_bytes out.old)) }
{
    match change {
        Change::Add { member, role, key } => {
            push_role(out, "add ", *member, *role)?;
            push_key(alloc, out, key)
        }
        Change::Remove { member } => push_counted(out, "remove ", u64::from(*member)),
        Change::SetRole { member, role } => push_role(out, "role ", *member, *role),
        Change::AddDevice {
            member,
            device,
            key,
        } => {
            push_device_words(out, "device ", *member, *device)?;
            push_key(alloc, out, key)
        }
        Change::DropDevice { member, device } => {
            push_device_words(out, "drop-device ", *member, *device)
        }
        Change::Upgrade => push_word(out, "upgrade"),
    }
}

// A key, with a space before it.
fn push_key(alloc: Global, out: &mut String, key: &[u8]) -> Result<(), Memory>
    ensures ok { OnOk result
        (string_bytes out.new ≡ string_bytes out.old ++ (codes " " ++ encode_lower key.now)) }
    ensures memory { OnErr result (StartsWith (string_bytes out.new) (string_bytes out.old)) }
{
    push_word(out, " ")?;
    push_digits(alloc, out, key)
}

// A word, a member and a role.
fn push_role(out: &mut String, word: &str, member: u16, role: Role) -> Result<(), Memory>
    ensures ok { OnOk result (string_bytes out.new
        ≡ string_bytes out.old ++ (word.now ++ (decimal member ++ (codes " " ++ role_name role)))) }
    ensures memory { OnErr result (StartsWith (string_bytes out.new) (string_bytes out.old)) }
{
    push_between(out, word, u64::from(member), " ")?;
    push_role_name(out, role)
}

// A word, and a device as two words.
fn push_device_words(out: &mut String, word: &str, member: u16, device: u8) -> Result<(), Memory>
    ensures ok { OnOk result (string_bytes out.new
        ≡ string_bytes out.old ++ (word.now ++ (decimal member ++ (codes " " ++ decimal device)))) }
    ensures memory { OnErr result (StartsWith (string_bytes out.new) (string_bytes out.old)) }
{
    push_counted(out, word, u64::from(member))?;
    push_counted(out, " ", u64::from(device))
}

/// Appends the parts of a delta, with a space between them, or `-` if there is none.
pub fn push_delta(out: &mut String, delta: &Delta) -> Result<(), Memory>
    ensures ok { OnOk result (string_bytes out.new ≡ string_bytes out.old ++ delta_text delta.now) }
    ensures memory { OnErr result (StartsWith (string_bytes out.new) (string_bytes out.old)) }
{
    let parts = delta.parts();
    if parts.is_empty() {
        return push_word(out, "-");
    }
    push_part(out, &parts[0])?;
    push_spaced(out, &parts[1..])
}

// Parts with a space before each.
fn push_spaced(out: &mut String, parts: &[Part]) -> Result<(), Memory>
    ensures ok { OnOk result
        (string_bytes out.new ≡ string_bytes out.old ++ flat_map spaced_part parts.now) }
    ensures memory { OnErr result (StartsWith (string_bytes out.new) (string_bytes out.old)) }
{
    for part in parts {
        push_word(out, " ")?;
        push_part(out, part)?;
    }
    Ok(())
}

fn push_part(out: &mut String, part: &Part) -> Result<(), Memory>
    ensures ok { OnOk result (string_bytes out.new ≡ string_bytes out.old ++ part_text part.now) }
    ensures memory { OnErr result (StartsWith (string_bytes out.new) (string_bytes out.old)) }
{
    match part {
        Part::Keep(count) => push_counted(out, "k", *count),
        Part::Insert(text) => {
            push_word(out, "i")?;
            push_quoted(out, text.as_str())
        }
        Part::Remove(count) => push_counted(out, "r", *count),
    }
}
