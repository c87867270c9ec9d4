//! The lines that show a client.

ghost use Rattle.std.specs.Prelude.{◌≡◌, ◌∷◌, ◌++◌, codes, OnErr, OnOk, flat_map, string_bytes};
ghost use Rattle.std.specs.Fmt.{decimal};
ghost use Rattle.hex.specs.Hex.{encode_lower};
ghost use Rattle.sporc_base.specs.Lists.{StartsWith};
ghost use Rattle.sporc_client.specs.ClientModel.{state_of};
ghost use Rattle.sporc_client.specs.PlainClient.{shown_of};
ghost use Rattle.sporc_head.specs.History.{hash_of, roster_of};
ghost use Rattle.sporc_member.specs.Role.{role_name};
ghost use Rattle.sporc_member.specs.Roster.{member_at};
ghost use Rattle.sporc_script.specs.Spelling.{device_text};
ghost use Rattle.sporc_report.specs.ClientLines.{compare_line, devices_text, further_text};
ghost use Rattle.sporc_report.specs.ClientLines.{hash_line, if_removed, members_line, members_text};
ghost use Rattle.sporc_report.specs.ClientLines.{place_text, show_line, text_of_member};
ghost use Rattle.sporc_script.specs.Quoted.{quoted};

use crate::appending::{push_between, push_counted, push_decimal, push_role_name, push_word};
use crate::quoted::push_quoted;
use sporc_base::Memory;
use sporc_client::Client;
use sporc_hash::{Digest32, Verdict};
use sporc_member::{Device, FIRST_DEVICE, Role, Roster};
use sporc_outside::LeafDisk;
use std::alloc::Global;

/// Appends what a client shows.
pub fn push_show<D: LeafDisk>(out: &mut String, client: &Client<D>) -> Result<(), Memory>
    ensures ok { OnOk result (string_bytes out.new
        ≡ string_bytes out.old ++ show_line client.now.opening.kit.me (state_of client.now)) }
    ensures memory { OnErr result (StartsWith (string_bytes out.new) (string_bytes out.old)) }
{
    push_place(out, client)?;
    push_text(out, client)?;
    push_end(out, client.removed())
}

// Appends how many entries a client has accepted, and how many of its items are pending.
fn push_place<D: LeafDisk>(out: &mut String, client: &Client<D>) -> Result<(), Memory>
    ensures ok { OnOk result (string_bytes out.new
        ≡ string_bytes out.old ++ place_text client.now.opening.kit.me (state_of client.now)) }
    ensures memory { OnErr result (StartsWith (string_bytes out.new) (string_bytes out.old)) }
{
    push_device(out, device_of(client))?;
    push_counted(out, " at ", client.entries().len() as u64)?;
    push_counted(out, " pending ", u64::from(client.pending()))
}

// Appends that the text follows, and the text.
fn push_text<D: LeafDisk>(out: &mut String, client: &Client<D>) -> Result<(), Memory>
    ensures ok { OnOk result (string_bytes out.new
        ≡ string_bytes out.old ++ (codes " text " ++ quoted (shown_of (state_of client.now)))) }
    ensures memory { OnErr result (StartsWith (string_bytes out.new) (string_bytes out.old)) }
{
    push_word(out, " text ")?;
    push_shown(out, client)
}

// Appends the text that a client shows, in quotes.
fn push_shown<D: LeafDisk>(out: &mut String, client: &Client<D>) -> Result<(), Memory>
    ensures ok { OnOk result
        (string_bytes out.new ≡ string_bytes out.old ++ quoted (shown_of (state_of client.now))) }
    ensures memory { OnErr result (StartsWith (string_bytes out.new) (string_bytes out.old)) }
{
    let text = client.shown()?;
    push_quoted(out, text.as_str())
}

// Appends whether a member is removed, and ends the line.
fn push_end(out: &mut String, removed: bool) -> Result<(), Memory>
    ensures ok { OnOk result
        (string_bytes out.new ≡ string_bytes out.old ++ (if_removed removed ++ codes "\n")) }
    ensures memory { OnErr result (StartsWith (string_bytes out.new) (string_bytes out.old)) }
{
    if removed {
        push_word(out, " removed\n")
    } else {
        push_word(out, "\n")
    }
}

/// Appends a device as a word: `M`, its member's number, for the first one; `M.D` for a further
/// one.
pub fn push_device(out: &mut String, device: Device) -> Result<(), Memory>
    ensures ok { OnOk result (string_bytes out.new ≡ string_bytes out.old ++ device_text device) }
    ensures memory { OnErr result (StartsWith (string_bytes out.new) (string_bytes out.old)) }
{
    push_decimal(out, u64::from(device.member))?;
    if device.number == FIRST_DEVICE {
        return Ok(());
    }
    push_counted(out, ".", u64::from(device.number))
}

/// Appends what a client's line starts with.
pub fn push_start(out: &mut String, device: Device, words: &str) -> Result<(), Memory>
    ensures ok { OnOk result
        (string_bytes out.new ≡ string_bytes out.old ++ (device_text device ++ words.now)) }
    ensures memory { OnErr result (StartsWith (string_bytes out.new) (string_bytes out.old)) }
{
    push_device(out, device)?;
    push_word(out, words)
}

/// Appends a client's line that ends in a number.
pub fn push_number(out: &mut String, device: Device, words: &str, number: u64) -> Result<(), Memory>
    ensures ok { OnOk result (string_bytes out.new ≡ string_bytes out.old
        ++ (device_text device ++ (words.now ++ (decimal number ++ codes "\n")))) }
    ensures memory { OnErr result (StartsWith (string_bytes out.new) (string_bytes out.old)) }
{
    push_device(out, device)?;
    push_between(out, words, number, "\n")
}

// The device that a client is of.
fn device_of<D: LeafDisk>(client: &Client<D>) -> Device
    ensures { result ≡ client.now.opening.kit.me }
{
    Device {
        member: client.me(),
        number: client.device(),
    }
}

/// Appends the members, in ascending order of their numbers, with their roles and live devices.
pub fn push_members<D: LeafDisk>(out: &mut String, client: &Client<D>) -> Result<(), Memory>
    ensures ok { OnOk result (string_bytes out.new
        ≡ string_bytes out.old ++ members_line client.now.opening.kit.me (state_of client.now)) }
    ensures memory { OnErr result (StartsWith (string_bytes out.new) (string_bytes out.old)) }
{
    push_start(out, device_of(client), " members")?;
    push_roster(out, client)?;
    push_word(out, "\n")
}

// Appends each member with its role and devices.
fn push_roster<D: LeafDisk>(out: &mut String, client: &Client<D>) -> Result<(), Memory>
    ensures ok { OnOk result (string_bytes out.new ≡ string_bytes out.old
        ++ members_text (roster_of client.now.opening.genesis (state_of client.now).entries)) }
    ensures memory { OnErr result (StartsWith (string_bytes out.new) (string_bytes out.old)) }
{
    let roster = client.roster();
    for number in roster.members() {
        push_numbered(out, roster, *number)?;
    }
    Ok(())
}

// Appends the member with this number, if there is one.
fn push_numbered(out: &mut String, roster: &Roster, number: u16) -> Result<(), Memory>
    ensures ok { OnOk result (string_bytes out.new ≡ string_bytes out.old
        ++ text_of_member roster.now.roster (member_at roster.now.roster number)) }
    ensures memory { OnErr result (StartsWith (string_bytes out.new) (string_bytes out.old)) }
{
    match roster.member(number) {
        Some(member) => {
            push_member(out, member.member, member.role)?;
            push_devices(out, roster.devices(member.member))
        }
        None => Ok(()),
    }
}

fn push_member(out: &mut String, number: u16, role: Role) -> Result<(), Memory>
    ensures ok { OnOk result (string_bytes out.new ≡ string_bytes out.old
        ++ (codes " " ++ (decimal number ++ (codes "=" ++ role_name role)))) }
    ensures memory { OnErr result (StartsWith (string_bytes out.new) (string_bytes out.old)) }
{
    push_between(out, " ", u64::from(number), "=")?;
    push_role_name(out, role)
}

// Appends the numbers of a member's live devices, unless there is the first one alone.
fn push_devices(out: &mut String, devices: &[u8]) -> Result<(), Memory>
    ensures ok { OnOk result
        (string_bytes out.new ≡ string_bytes out.old ++ devices_text devices.now) }
    ensures memory { OnErr result (StartsWith (string_bytes out.new) (string_bytes out.old)) }
{
    match devices {
        [] => Ok(()),
        [first, more @ ..] => push_listed(out, *first, more),
    }
}

fn push_listed(out: &mut String, first: u8, more: &[u8]) -> Result<(), Memory>
    ensures ok { OnOk result
        (string_bytes out.new ≡ string_bytes out.old ++ devices_text (first ∷ more.now)) }
    ensures memory { OnErr result (StartsWith (string_bytes out.new) (string_bytes out.old)) }
{
    if first == FIRST_DEVICE && more.is_empty() {
        return Ok(());
    }
    push_counted(out, ":", u64::from(first))?;
    push_further(out, more)
}

fn push_further(out: &mut String, numbers: &[u8]) -> Result<(), Memory>
    ensures ok { OnOk result
        (string_bytes out.new ≡ string_bytes out.old ++ flat_map further_text numbers.now) }
    ensures memory { OnErr result (StartsWith (string_bytes out.new) (string_bytes out.old)) }
{
    for number in numbers {
        push_counted(out, ",", u64::from(*number))?;
    }
    Ok(())
}

/// Appends the last value of the chain.
pub fn push_hash<D: LeafDisk>(
    alloc: Global,
    out: &mut String,
    client: &Client<D>,
) -> Result<(), Memory>
    ensures ok { OnOk result (string_bytes out.new
        ≡ string_bytes out.old ++ hash_line client.now.opening.kit.me (state_of client.now)) }
    ensures memory { OnErr result (StartsWith (string_bytes out.new) (string_bytes out.old)) }
{
    push_start(out, device_of(client), " hash ")?;
    push_digits(alloc, out, &last_hash(client))?;
    push_word(out, "\n")
}

/// The last value of the chain.
pub fn last_hash<D: LeafDisk>(client: &Client<D>) -> Digest32
    ensures value { result ≡ hash_of client.now.opening.genesis (state_of client.now).entries }
{
    let heads = client.heads();
    heads.hash_at(heads.len())
}

/// Appends bytes as hexadecimal digits.
pub fn push_digits(alloc: Global, out: &mut String, bytes: &[u8]) -> Result<(), Memory>
    ensures ok { OnOk result
        (string_bytes out.new ≡ string_bytes out.old ++ encode_lower bytes.now) }
    ensures memory { OnErr result (StartsWith (string_bytes out.new) (string_bytes out.old)) }
{
    let digits = hex::encode(alloc, bytes)?;
    push_word(out, digits.as_str())
}

/// Appends how the history of one client stands to another's.
pub fn push_verdict(
    out: &mut String,
    first: Device,
    second: Device,
    verdict: Verdict,
) -> Result<(), Memory>
    ensures ok { OnOk result (string_bytes out.new ≡ string_bytes out.old
        ++ compare_line (record { first = first; second = second }) verdict) }
    ensures memory { OnErr result (StartsWith (string_bytes out.new) (string_bytes out.old)) }
{
    push_start(out, first, " ")?;
    match verdict {
        Verdict::Same => push_start(out, second, " same\n"),
        Verdict::Prefix => push_start(out, second, " prefix\n"),
        Verdict::Longer => push_start(out, second, " longer\n"),
        Verdict::ForkedAfter(count) => push_number(out, second, " forked after ", count as u64),
    }
}
