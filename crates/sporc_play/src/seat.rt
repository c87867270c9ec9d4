//! Devices of members with their clients, and rogues with their signers.

ghost use Rattle.std.specs.FinMap.{get};
ghost use Rattle.std.specs.Option.{option_copied};
ghost use Rattle.std.specs.Prelude.{◌≡◌, ◌≢◌, ℕ, Contains, IfErr, IsSome, OnOk};
ghost use Rattle.sporc_base.specs.FirstFault.{AnswersUnless, first_of};
ghost use Rattle.sporc_client.specs.Run.{Setup};
ghost use Rattle.sporc_entry.specs.Genesis.{IsGenesis};
ghost use Rattle.sporc_line.specs.Openings.{open_checks};
ghost use Rattle.sporc_play.specs.Joined.{seat_open};
ghost use Rattle.sporc_play.specs.Seats.{IsRogueAt, IsSeatAt, rogue_devices, seated};
ghost use Rattle.sporc_play.specs.Stage.{IsCastOf};

use crate::cast::Cast;
use lms_sign::Signer;
use sporc_client::Client;
use sporc_entry::Genesis;
use sporc_epoch::Ring;
use sporc_line::LineOpenFault;
use sporc_member::Device;
use sporc_memory::MemoryDisk;
use std::alloc::Global;

/// The client of a device. Its leaf file is in memory.
pub type PlayClient = Client<MemoryDisk>;

/// A device of a member, or of one who may join. It has a signer until its client opens, and the
/// client from then on.
#[derive(Drop)]
pub struct Seat {
    pub device: Device,
    /// How often it was to submit.
    pub asked: u32,
    /// The number of the entry that it made last, 0 if it made none.
    pub last: u64,
    pub signer: Option<Signer<MemoryDisk>>,
    pub client: Option<PlayClient>,
}

/// One without a client, for whom the script signs.
#[derive(Drop)]
pub struct Rogue {
    pub device: Device,
    /// How often it was to sign.
    pub asked: u32,
    pub signer: Signer<MemoryDisk>,
}

/// The place of a device's seat.
pub fn seat_at(seats: &[Seat], device: Device) -> usize
    requires seated { Contains (seated seats.now) device }
    ensures value { (seat : Seat) × IsSeatAt seats.now result device seat }
{
    for (i, seat) in seats.iter().enumerate() {
        if seat.device.is(device) {
            return i;
        }
    }
    unreachable!()
}

/// The place of a rogue.
pub fn rogue_at(rogues: &[Rogue], device: Device) -> usize
    requires rogue { Contains (rogue_devices rogues.now) device }
    ensures value { (rogue : Rogue) × IsRogueAt rogues.now result device rogue }
{
    for (i, rogue) in rogues.iter().enumerate() {
        if rogue.device.is(device) {
            return i;
        }
    }
    unreachable!()
}

/// The client of a device, if it is open.
pub fn client_of(seats: &[Seat], device: Device) -> Option<&PlayClient>
    requires seated { Contains (seated seats.now) device }
    ensures value { (i : ℕ) × (seat : Seat) × IsSeatAt seats.now i device seat
        × (option_copied result ≡ seat.client) }
{
    let i = seat_at(seats, device);
    seats[i].client.as_ref()
}

/// Opens the client of a seat with a ring.
pub fn open_seat(
    alloc: Global,
    cast: &Cast,
    genesis: &Genesis,
    ring: Ring,
    seat: &mut Seat,
) -> Result<(), LineOpenFault>
    requires genesis { IsGenesis genesis.now }
    requires signer { IsSome seat.old.signer }
    ensures fault { AnswersUnless LineOpenFault.Memory result
        (first_of (open_checks genesis.now (get ring.keys 0))) }
    ensures ok { OnOk result ((s : Setup) → IsCastOf s cast.now → genesis.now ≡ s.genesis
        → seat.new ≡ seat_open s ring.keys seat.old seat.old.signer) }
    ensures err { IfErr result (λ fault. fault ≢ LineOpenFault.Memory → seat.new ≡ seat.old) }
{
    let device = seat.device;
    let pairs = cast.pairs_of(alloc, device.member)?;
    let genesis = genesis.copy()?;
    let Some(signer) = seat.signer.take() else {
        unreachable!()
    };
    match Client::open(
        alloc,
        genesis,
        device.member,
        device.number,
        ring,
        pairs,
        signer,
    ) {
        Ok(client) => {
            drop(seat.client.replace(client));
            Ok(())
        }
        Err((fault, signer)) => {
            drop(seat.signer.replace(signer));
            Err(fault)
        }
    }
}
