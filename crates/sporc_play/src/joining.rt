//! Clients that open by what others committed.

ghost use Rattle.std.specs.Prelude.{◌≡◌, ◌≢◌, ◌++◌, map, None, Ok, OnOk, IsSome, string_bytes};
ghost use Rattle.sporc_base.specs.Outcome.{GivesUnless};
ghost use Rattle.sporc_client.specs.Run.{Setup};
ghost use Rattle.sporc_entry.specs.Genesis.{IsGenesis};
ghost use Rattle.sporc_epoch.specs.Hints.{hints_of};
ghost use Rattle.sporc_play.specs.Joined.{seat_joined, seat_joining};
ghost use Rattle.sporc_play.specs.Report.{join_line};
ghost use Rattle.sporc_play.specs.Scene.{NoHints, NotOpened, joining_by, joining_from};
ghost use Rattle.sporc_play.specs.Stage.{IsCastOf};

use crate::cast::Cast;
use crate::made::{Found, entries_at, push_no_entry};
use crate::seat::{Seat, open_seat};
use sporc_base::Memory;
use sporc_entry::Genesis;
use sporc_epoch::{HintFault, Ring, hints_from};
use sporc_line::LineOpenFault;
use sporc_member::Device;
use sporc_report::{push_hint_fault, push_open_fault, push_start};
use sporc_script::Join;
use std::alloc::Global;

/// Opens the client of a joiner by the hints that some entries give, and appends the line that
/// tells the answer.
pub fn join(
    alloc: Global,
    cast: &Cast,
    genesis: &Genesis,
    made: &[Vec<u8>],
    seat: &mut Seat,
    join: &Join,
    out: &mut String,
) -> Result<(), Memory>
    requires genesis { IsGenesis genesis.now }
    requires signer { seat.old.client ≡ None → IsSome seat.old.signer }
    ensures line { OnOk result ((s : Setup) → IsCastOf s cast.now → genesis.now ≡ s.genesis
        → string_bytes out.new ≡ string_bytes out.old ++ join_line seat.old.device
        (seat_joining s (map (λ v. v.items) made.now) join.now seat.old)) }
    ensures seat { OnOk result ((s : Setup) → IsCastOf s cast.now → genesis.now ≡ s.genesis
        → seat.new ≡ seat_joined s seat.old
        (seat_joining s (map (λ v. v.items) made.now) join.now seat.old)) }
{
    if seat.client.is_some() {
        return push_start(out, seat.device, " already open\n");
    }
    match entries_at(alloc, made, join.entries.as_slice())? {
        Found::Entries(entries) => join_by(alloc, cast, genesis, seat, entries.as_slice(), out),
        Found::Missing(number) => push_no_entry(out, number),
    }
}

// Opens a joiner's client by the hints that these entries give.
fn join_by(
    alloc: Global,
    cast: &Cast,
    genesis: &Genesis,
    seat: &mut Seat,
    entries: &[Vec<u8>],
    out: &mut String,
) -> Result<(), Memory>
    requires genesis { IsGenesis genesis.now }
    requires signer { IsSome seat.old.signer }
    ensures line { OnOk result ((s : Setup) → IsCastOf s cast.now → genesis.now ≡ s.genesis
        → string_bytes out.new ≡ string_bytes out.old ++ join_line seat.old.device
        (joining_from s seat.old.device (Ok (map (λ v. v.items) entries.now)))) }
    ensures seat { OnOk result ((s : Setup) → IsCastOf s cast.now → genesis.now ≡ s.genesis
        → seat.new ≡ seat_joined s seat.old
        (joining_from s seat.old.device (Ok (map (λ v. v.items) entries.now)))) }
{
    match hints_for(alloc, cast, entries, seat.device) {
        Ok(ring) => open_with(alloc, cast, genesis, seat, ring, out),
        Err(fault) => push_no_hints(out, seat.device, fault),
    }
}

// The hints that these entries give a device.
fn hints_for(
    alloc: Global,
    cast: &Cast,
    entries: &[Vec<u8>],
    device: Device,
) -> Result<Ring, HintFault>
    ensures { (s : Setup) → IsCastOf s cast.now
        → GivesUnless HintFault.Memory (λ ring. ring.keys) result
        (hints_of (map (λ v. v.items) entries.now) device.member (s.pairs device)) }
{
    let pairs = cast.pairs_of(alloc, device.member)?;
    hints_from(alloc, entries, device.member, &pairs)
}

// Opens a joiner's client with a ring.
fn open_with(
    alloc: Global,
    cast: &Cast,
    genesis: &Genesis,
    seat: &mut Seat,
    ring: Ring,
    out: &mut String,
) -> Result<(), Memory>
    requires genesis { IsGenesis genesis.now }
    requires signer { IsSome seat.old.signer }
    ensures line { OnOk result
        ((s : Setup) → IsCastOf s cast.now → genesis.now ≡ s.genesis → string_bytes out.new
        ≡ string_bytes out.old ++ join_line seat.old.device (joining_by s (Ok ring.keys))) }
    ensures seat { OnOk result ((s : Setup) → IsCastOf s cast.now → genesis.now ≡ s.genesis
        → seat.new ≡ seat_joined s seat.old (joining_by s (Ok ring.keys))) }
{
    let device = seat.device;
    match open_seat(alloc, cast, genesis, ring, seat) {
        Ok(()) => push_start(out, device, " join ok\n"),
        Err(fault) => push_not_opened(out, device, fault),
    }
}

// The line of a joiner to whom entries give no hints.
fn push_no_hints(out: &mut String, device: Device, fault: HintFault) -> Result<(), Memory>
    ensures line { OnOk result
        (string_bytes out.new ≡ string_bytes out.old ++ join_line device (NoHints fault)) }
    ensures named { OnOk result (fault ≢ HintFault.Memory) }
{
    push_start(out, device, " join refused ")?;
    push_hint_fault(out, fault)?;
    out.push_str("\n")
}

// The line of a joiner whose client does not open.
fn push_not_opened(out: &mut String, device: Device, fault: LineOpenFault) -> Result<(), Memory>
    ensures line { OnOk result
        (string_bytes out.new ≡ string_bytes out.old ++ join_line device (NotOpened fault)) }
    ensures named { OnOk result (fault ≢ LineOpenFault.Memory) }
{
    push_start(out, device, " join refused ")?;
    push_open_fault(out, fault)?;
    out.push_str("\n")
}
