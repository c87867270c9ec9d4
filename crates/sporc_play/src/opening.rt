//! What the declarations of a script make: who takes part, and the founders' clients.

ghost use Rattle.std.specs.FinMap.{get};
ghost use Rattle.std.specs.Prelude.{◌≡◌, true, List, ◌∷◌, ◌++◌, [], IfOk, OnOk};
ghost use Rattle.sporc_client.specs.Run.{Setup};
ghost use Rattle.sporc_entry.specs.Genesis.{IsGenesis};
ghost use Rattle.sporc_line.specs.Openings.{opens};
ghost use Rattle.sporc_member.specs.declared.device.Device.{Device};
ghost use Rattle.sporc_member.specs.Device.{first_device};
ghost use Rattle.sporc_member.specs.Lists.{insert_by};
ghost use Rattle.sporc_play.specs.Cast.{first_ring, public_of};
ghost use Rattle.sporc_play.specs.Joined.{seat_open};
ghost use Rattle.sporc_play.specs.Opening.{HasRogue, HasSat, HaveDeclared, IsNamed};
ghost use Rattle.sporc_play.specs.Stage.{IsCastOf};

use crate::cast::{Cast, Declared, first_ring, insert_founder};
use crate::seat::{Rogue, Seat, open_seat};
use crate::trees::Trees;
use sporc_base::Memory;
use sporc_entry::Genesis;
use sporc_line::LineOpenFault;
use sporc_member::{Device, Founder};
use sporc_script::{Command, MemberRole, PlayLine, Tree};
use std::alloc::{AllocError, Global};

/// Adds what a line declares. Of a command the key of the device that it adds is made ready.
pub fn declare(
    alloc: Global,
    cast: &mut Cast,
    seats: &mut Vec<Seat>,
    rogues: &mut Vec<Rogue>,
    line: &PlayLine,
) -> Result<(), Memory>
    ensures ok { OnOk result ((tree : Tree) (lines : List PlayLine)
        → HaveDeclared tree lines cast.old seats.old.items rogues.old.items
        → HaveDeclared tree (lines ++ line.now ∷ []) cast.new seats.new.items rogues.new.items) }
{
    match &line.command {
        Command::Member(founder) => {
            let key = add_seat(alloc, &cast.tree, seats, Device::first(founder.member))?;
            add_declared(cast, founder.member, key)?;
            add_founder(cast, founder, key)
        }
        Command::Rogue(founder) => {
            let key = add_rogue(alloc, &cast.tree, rogues, founder.member)?;
            add_declared(cast, founder.member, key)?;
            add_founder(cast, founder, key)
        }
        Command::Joiner(member) => {
            let key = add_seat(alloc, &cast.tree, seats, Device::first(*member))?;
            add_declared(cast, *member, key)
        }
        Command::Device(device) => {
            let key = add_seat(alloc, &cast.tree, seats, *device)?;
            cast.tree.keep(*device, key)
        }
        Command::Unpaired(pair) => {
            cast.unpaired.push(*pair)?;
            Ok(())
        }
        Command::Change(edit) => cast.learn(alloc, &edit.change),
        Command::Sign(forgery) => cast.learn_of(alloc, &forgery.signed.what),
        _ => Ok(()),
    }
}

// A seat for a device that has or may get a client. Its public key.
fn add_seat(
    alloc: Global,
    trees: &Trees,
    seats: &mut Vec<Seat>,
    device: Device,
) -> Result<[u8; 56], Memory>
    ensures key { IfOk result (λ key. key ≡ public_of trees.now device) }
    ensures seats { OnOk result (HasSat trees.now device seats.old.items seats.new.items) }
{
    let signer = trees.signer(alloc, device)?;
    let key = signer.public().to_bytes();
    seats.push(Seat {
        device,
        asked: 0,
        last: 0,
        signer: Some(signer),
        client: None,
    })?;
    Ok(key)
}

// A signer for one for whom the script signs. Its public key.
fn add_rogue(
    alloc: Global,
    trees: &Trees,
    rogues: &mut Vec<Rogue>,
    member: u16,
) -> Result<[u8; 56], Memory>
    ensures key { IfOk result (λ key. key ≡ public_of trees.now (first_device member)) }
    ensures rogues { OnOk result
        (HasRogue trees.now (first_device member) rogues.old.items rogues.new.items) }
{
    let device = Device::first(member);
    let signer = trees.signer(alloc, device)?;
    let key = signer.public().to_bytes();
    rogues.push(Rogue {
        device,
        asked: 0,
        signer,
    })?;
    Ok(key)
}

// A member is declared, with the key of its first device.
fn add_declared(cast: &mut Cast, member: u16, key: [u8; 56]) -> Result<(), Memory>
    ensures { OnOk result (IsNamed member key cast.old cast.new) }
{
    cast.declared.push(Declared { member, key })?;
    Ok(())
}

// A founder with this key, in the order of the numbers.
fn add_founder(cast: &mut Cast, founder: &MemberRole, key: [u8; 56]) -> Result<(), Memory>
    ensures founders { OnOk result (cast.new.founders.items ≡ insert_by (λ f. f.member)
        (record { member = founder.now.member; role = founder.now.role; key = key })
        cast.old.founders.items) }
    ensures tree { cast.new.tree ≡ cast.old.tree }
    ensures declared { cast.new.declared.items ≡ cast.old.declared.items }
    ensures unpaired { cast.new.unpaired.items ≡ cast.old.unpaired.items }
{
    insert_founder(
        &mut cast.founders,
        Founder {
            member: founder.member,
            role: founder.role,
            key,
        },
    )
}

/// Opens the client of a founder, with the key of epoch 0.
pub fn open_founder(
    alloc: Global,
    cast: &Cast,
    genesis: &Genesis,
    seat: &mut Seat,
) -> Result<(), Memory>
    requires genesis { IsGenesis genesis.now }
    requires opens { opens genesis.now (get first_ring 0) ≡ true }
    ensures ok { OnOk result ((s : Setup) → IsCastOf s cast.now → genesis.now ≡ s.genesis
        → seat.new ≡ seat_open s first_ring seat.old seat.old.signer) }
{
    if seat.signer.is_none() {
        return Ok(());
    }
    let ring = first_ring(alloc)?;
    match open_seat(alloc, cast, genesis, ring, seat) {
        Ok(()) => Ok(()),
        Err(LineOpenFault::Memory) => Err(AllocError),
        Err(_) => unreachable!(),
    }
}
