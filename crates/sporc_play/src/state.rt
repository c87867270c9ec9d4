//! The state of a play.

ghost use Rattle.std.specs.FinMap.{get};
ghost use Rattle.std.specs.Option.{option_copied, option_to_list};
ghost use Rattle.std.specs.Prelude.{◌≡◌, ℕ, ◌+◌, ◌<◌, [], ◌∷◌, ◌++◌, length, Contains, IfOk, OnOk};
ghost use Rattle.std.specs.Prelude.{map as map_, None, Some, option_map, set, slice_get};
ghost use Rattle.std.specs.Prelude.{string_bytes, true};
ghost use Rattle.sporc_entry.specs.Genesis.{IsGenesis, has_admin_founder};
ghost use Rattle.sporc_member.specs.declared.device.Device.{Device};
ghost use Rattle.sporc_line.specs.Openings.{opens};
ghost use Rattle.sporc_play.specs.Cast.{device_by, first_ring, is_founder, opener_by};
ghost use Rattle.sporc_play.specs.Report.{entry_line, flipped_line};
ghost use Rattle.sporc_play.specs.Scene.{flipped, opening, scene_opened};
ghost use Rattle.sporc_play.specs.Seats.{IsSeatAt, seated};
ghost use Rattle.sporc_play.specs.Stage.{AreDeclared, AreOfOneDocument, Becomes, CanPerform};
ghost use Rattle.sporc_play.specs.Stage.{AppendsLineOf, HasSameMembers, OpensBy, StandsFor};

use crate::cast::{Cast, tree_of};
use crate::made::{entry_at, push_no_entry};
use crate::opening::{declare, open_founder};
use crate::seat::{PlayClient, Rogue, Seat, client_of, rogue_at, seat_at};
use crate::{acting, joining, signing};
use sporc_base::Memory;
use sporc_entry::Genesis;
use sporc_hash::compare;
use sporc_member::Device;
use sporc_report::{push_hash, push_journal, push_members, push_show, push_verdict};
use sporc_script::{
    Command, DevicePair, Edit, Flip, Forgery, Give, Join, PlayLine, Restart, RosterEdit,
};
use std::alloc::Global;
use std::fmt::Write;

/// The devices with their clients, the rogues, and all entries that were made, in order.
#[derive(Drop)]
pub struct PlayState {
    cast: Cast,
    genesis: Genesis,
    seats: Vec<Seat>,
    rogues: Vec<Rogue>,
    made: Vec<Vec<u8>>,
}

impl PlayState {
    /// Before the first command: the founders' clients are open.
    pub fn new(alloc: Global, lines: &[PlayLine]) -> Result<PlayState, Memory>
        requires declared { AreDeclared lines.now }
        ensures value { IfOk result (λ state. StandsFor lines.now (opening lines.now) state) }
    {
        let mut state = PlayState::declared(alloc, lines)?;
        if !state.has_admin() {
            return Ok(state);
        }
        state.open_founders(alloc, lines)?;
        Ok(state)
    }

    // What the lines declare. No client is open yet.
    fn declared(alloc: Global, lines: &[PlayLine]) -> Result<PlayState, Memory>
        requires { AreDeclared lines.now }
        ensures { IfOk result (λ state. StandsFor lines.now (scene_opened lines.now 0) state) }
    {
        let mut cast = Cast::new(alloc, tree_of(lines));
        let mut seats = Vec::new(alloc);
        let mut rogues = Vec::new(alloc);
        for line in lines {
            declare(alloc, &mut cast, &mut seats, &mut rogues, line)?;
        }
        let genesis = cast.genesis(alloc)?;
        Ok(PlayState {
            cast,
            genesis,
            seats,
            rogues,
            made: Vec::new(alloc),
        })
    }

    // Whether a founder is an admin. Without one there is no document.
    fn has_admin(&self) -> bool
        ensures { result ≡ has_admin_founder self.now.cast.founders.items }
    {
        self.cast.founders.iter().any(|f| f.role.is_admin())
    }

    // Opens the clients of the founders.
    fn open_founders(&mut self, alloc: Global, lines: &[PlayLine]) -> Result<(), Memory>
        requires genesis { IsGenesis self.old.genesis }
        requires stands { StandsFor lines.now (scene_opened lines.now 0) self.old }
        ensures { OnOk result
            (StandsFor lines.now (scene_opened lines.now (length lines.now)) self.new) }
    {
        for line in lines {
            self.open_by(alloc, line)?;
        }
        Ok(())
    }

    // Opens the client of a founder's device, if the line declares one.
    fn open_by(&mut self, alloc: Global, line: &PlayLine) -> Result<(), Memory>
        requires genesis { IsGenesis self.old.genesis }
        requires opens { opens self.old.genesis (get first_ring 0) ≡ true }
        requires seated { (who : Device) → device_by line.now.command ≡ Some who
            → Contains (seated self.old.seats.items) who }
        ensures stands { OnOk result (OpensBy line.now self.old self.new) }
        ensures genesis { self.new.genesis ≡ self.old.genesis }
    {
        match self.opener(&line.command) {
            Some(device) => {
                let i = seat_at(self.seats.as_slice(), device);
                open_founder(alloc, &self.cast, &self.genesis, &mut self.seats[i])
            }
            None => Ok(()),
        }
    }

    // The device of a founder that the line declares.
    fn opener(&self, command: &Command) -> Option<Device>
        ensures { result ≡ opener_by self.now.cast.founders.items command.now }
    {
        match command {
            Command::Member(founder) => Some(Device::first(founder.member)),
            Command::Device(device) if self.is_founder(device.member) => Some(*device),
            _ => None,
        }
    }

    fn is_founder(&self, member: u16) -> bool
        ensures { result ≡ is_founder self.now.cast.founders.items member }
    {
        self.cast.founders.iter().any(|f| f.member == member)
    }

    /// Performs a command, and appends the line that it writes.
    pub fn perform(
        &mut self,
        alloc: Global,
        command: &Command,
        out: &mut String,
    ) -> Result<(), Memory>
        requires can { CanPerform self.old command.now }
        ensures state { OnOk result (Becomes self.old command.now self.new) }
        ensures line { OnOk result
            (AppendsLineOf self.old command.now (string_bytes out.old) (string_bytes out.new)) }
    {
        match command {
            Command::Tree(_)
            | Command::Member(_)
            | Command::Rogue(_)
            | Command::Joiner(_)
            | Command::Unpaired(_)
            | Command::Device(_) => Ok(()),
            Command::Edit(edit) => self.edit(alloc, edit, out),
            Command::Change(edit) => self.change(alloc, edit, out),
            Command::Discard(device) => self.discard(*device, out),
            Command::Submit(device) => self.submit(*device, out),
            Command::Give(give) => self.give(give, out),
            Command::Restart(restart) => self.restart(restart, out),
            Command::Join(join) => self.join(alloc, join, out),
            Command::Flip(flip) => self.flip(alloc, flip, out),
            Command::Cut(entry) => self.cut(alloc, *entry, out),
            Command::Sign(forgery) => self.sign(alloc, forgery, out),
            Command::Show(device) => self.show(*device, out),
            Command::Members(device) => self.members(*device, out),
            Command::Hash(device) => self.hash(alloc, *device, out),
            Command::Journal(device) => self.journal(alloc, *device, out),
            Command::Compare(pair) => self.compare(pair, out),
        }
    }

    /// The client of a device, if it is open.
    pub fn client(&self, device: Device) -> Option<&PlayClient>
        requires seated { Contains (seated self.now.seats.items) device }
        ensures value { (i : ℕ) × (seat : Seat) × IsSeatAt self.now.seats.items i device seat
            × (option_copied result ≡ seat.client) }
    {
        client_of(self.seats.as_slice(), device)
    }

    // ---- commands that act on one client

    fn edit(&mut self, alloc: Global, edit: &Edit, out: &mut String) -> Result<(), Memory>
        requires can { CanPerform self.old (Command.Edit edit.now) }
        ensures state { OnOk result (Becomes self.old (Command.Edit edit.now) self.new) }
        ensures line { OnOk result (AppendsLineOf self.old (Command.Edit edit.now)
            (string_bytes out.old) (string_bytes out.new)) }
    {
        let i = seat_at(self.seats.as_slice(), edit.device);
        acting::edit(alloc, &mut self.seats[i], edit, out)
    }

    fn change(&mut self, alloc: Global, edit: &RosterEdit, out: &mut String) -> Result<(), Memory>
        requires seated { Contains (seated self.old.seats.items) edit.now.device }
        ensures state { OnOk result (Becomes self.old (Command.Change edit.now) self.new) }
        ensures line { OnOk result (AppendsLineOf self.old (Command.Change edit.now)
            (string_bytes out.old) (string_bytes out.new)) }
    {
        let change = self.cast.member_change(alloc, &edit.change)?;
        let i = seat_at(self.seats.as_slice(), edit.device);
        acting::change(&mut self.seats[i], edit.device, change, out)
    }

    fn discard(&mut self, device: Device, out: &mut String) -> Result<(), Memory>
        requires seated { Contains (seated self.old.seats.items) device }
        ensures state { OnOk result (Becomes self.old (Command.Discard device) self.new) }
        ensures line { OnOk result (AppendsLineOf self.old (Command.Discard device)
            (string_bytes out.old) (string_bytes out.new)) }
    {
        let i = seat_at(self.seats.as_slice(), device);
        acting::discard(&mut self.seats[i], device, out)
    }

    fn submit(&mut self, device: Device, out: &mut String) -> Result<(), Memory>
        requires can { CanPerform self.old (Command.Submit device) }
        ensures state { OnOk result (Becomes self.old (Command.Submit device) self.new) }
        ensures line { OnOk result (AppendsLineOf self.old (Command.Submit device)
            (string_bytes out.old) (string_bytes out.new)) }
    {
        let i = seat_at(self.seats.as_slice(), device);
        let next = self.made.len() as u64 + 1;
        let made = acting::submit(&mut self.seats[i], next, out)?;
        self.keep_made(made)
    }

    fn give(&mut self, give: &Give, out: &mut String) -> Result<(), Memory>
        requires seated { Contains (seated self.old.seats.items) give.now.device }
        ensures state { OnOk result (Becomes self.old (Command.Give give.now) self.new) }
        ensures line { OnOk result (AppendsLineOf self.old (Command.Give give.now)
            (string_bytes out.old) (string_bytes out.new)) }
    {
        let i = seat_at(self.seats.as_slice(), give.device);
        let entry = entry_at(self.made.as_slice(), give.entry);
        acting::give(&mut self.seats[i], give, entry, out)
    }

    fn restart(&mut self, restart: &Restart, out: &mut String) -> Result<(), Memory>
        requires seated { Contains (seated self.old.seats.items) restart.now.device }
        ensures state { OnOk result (Becomes self.old (Command.Restart restart.now) self.new) }
        ensures line { OnOk result (AppendsLineOf self.old (Command.Restart restart.now)
            (string_bytes out.old) (string_bytes out.new)) }
    {
        let i = seat_at(self.seats.as_slice(), restart.device);
        acting::restart(&mut self.seats[i], restart, out)
    }

    fn join(&mut self, alloc: Global, join: &Join, out: &mut String) -> Result<(), Memory>
        requires can { CanPerform self.old (Command.Join join.now) }
        ensures state { OnOk result (Becomes self.old (Command.Join join.now) self.new) }
        ensures line { OnOk result (AppendsLineOf self.old (Command.Join join.now)
            (string_bytes out.old) (string_bytes out.new)) }
    {
        let i = seat_at(self.seats.as_slice(), join.device);
        joining::join(
            alloc,
            &self.cast,
            &self.genesis,
            self.made.as_slice(),
            &mut self.seats[i],
            join,
            out,
        )
    }

    // ---- commands that make entries

    fn flip(&mut self, alloc: Global, flip: &Flip, out: &mut String) -> Result<(), Memory>
        ensures state { OnOk result (Becomes self.old (Command.Flip flip.now) self.new) }
        ensures line { OnOk result (AppendsLineOf self.old (Command.Flip flip.now)
            (string_bytes out.old) (string_bytes out.new)) }
    {
        let at = flip.at;
        let number = flip.entry;
        let Some(entry) = entry_at(self.made.as_slice(), number) else {
            return push_no_entry(out, number);
        };
        if at >= entry.len() as u64 {
            return push_no_byte(out, at);
        }
        let bytes = with_flipped(alloc, entry, at)?;
        self.keep(bytes, out)
    }

    fn cut(&mut self, alloc: Global, number: u64, out: &mut String) -> Result<(), Memory>
        ensures state { OnOk result (Becomes self.old (Command.Cut number) self.new) }
        ensures line { OnOk result (AppendsLineOf self.old (Command.Cut number)
            (string_bytes out.old) (string_bytes out.new)) }
    {
        let Some(entry) = entry_at(self.made.as_slice(), number) else {
            return push_no_entry(out, number);
        };
        let len = entry.len().saturating_sub(1);
        let bytes = Vec::from_slice(alloc, &entry[..len])?;
        self.keep(bytes, out)
    }

    // Keeps an entry that was made of another.
    fn keep(&mut self, bytes: Vec<u8>, out: &mut String) -> Result<(), Memory>
        ensures made { OnOk result (map_ (λ b. b.items) self.new.made.items
            ≡ map_ (λ b. b.items) self.old.made.items ++ bytes.items ∷ []) }
        ensures others { OnOk result (HasSameMembers self.old self.new) }
        ensures line { OnOk result (string_bytes out.new
            ≡ string_bytes out.old ++ entry_line (length self.old.made.items + 1)) }
    {
        let next = self.made.len() as u64 + 1;
        self.made.push(bytes)?;
        writeln!(out, "entry {next}")
    }

    fn sign(&mut self, alloc: Global, forgery: &Forgery, out: &mut String) -> Result<(), Memory>
        requires can { CanPerform self.old (Command.Sign forgery.now) }
        ensures state { OnOk result (Becomes self.old (Command.Sign forgery.now) self.new) }
        ensures line { OnOk result (AppendsLineOf self.old (Command.Sign forgery.now)
            (string_bytes out.old) (string_bytes out.new)) }
    {
        let i = rogue_at(self.rogues.as_slice(), Device::first(forgery.member));
        let next = self.made.len() as u64 + 1;
        let client = client_of(self.seats.as_slice(), forgery.from);
        let rogue = &mut self.rogues[i];
        let made = signing::sign(alloc, rogue, &self.cast, client, forgery, next, out)?;
        self.keep_made(made)
    }

    // Keeps the entry that was made, if one was.
    fn keep_made(&mut self, made: Option<Vec<u8>>) -> Result<(), Memory>
        ensures made { OnOk result
            (map_ (λ b. b.items) self.new.made.items ≡ map_ (λ b. b.items) self.old.made.items
            ++ option_to_list (option_map (λ b. b.items) made)) }
        ensures others { OnOk result (HasSameMembers self.old self.new) }
    {
        match made {
            Some(entry) => {
                self.made.push(entry)?;
                Ok(())
            }
            None => Ok(()),
        }
    }

    // ---- commands that only show

    fn show(&self, device: Device, out: &mut String) -> Result<(), Memory>
        requires { Contains (seated self.now.seats.items) device }
        ensures { OnOk result (AppendsLineOf self.now (Command.Show device) (string_bytes out.old)
            (string_bytes out.new)) }
    {
        match self.client(device) {
            Some(client) => push_show(out, client),
            None => acting::push_not_open(out, device),
        }
    }

    fn members(&self, device: Device, out: &mut String) -> Result<(), Memory>
        requires { Contains (seated self.now.seats.items) device }
        ensures { OnOk result (AppendsLineOf self.now (Command.Members device)
            (string_bytes out.old) (string_bytes out.new)) }
    {
        match self.client(device) {
            Some(client) => push_members(out, client),
            None => acting::push_not_open(out, device),
        }
    }

    fn hash(&self, alloc: Global, device: Device, out: &mut String) -> Result<(), Memory>
        requires { Contains (seated self.now.seats.items) device }
        ensures { OnOk result (AppendsLineOf self.now (Command.Hash device) (string_bytes out.old)
            (string_bytes out.new)) }
    {
        match self.client(device) {
            Some(client) => push_hash(alloc, out, client),
            None => acting::push_not_open(out, device),
        }
    }

    fn journal(&self, alloc: Global, device: Device, out: &mut String) -> Result<(), Memory>
        requires { Contains (seated self.now.seats.items) device }
        ensures { OnOk result (AppendsLineOf self.now (Command.Journal device)
            (string_bytes out.old) (string_bytes out.new)) }
    {
        match self.client(device) {
            Some(client) => push_journal(alloc, out, client.journal()),
            None => acting::push_not_open(out, device),
        }
    }

    fn compare(&self, pair: &DevicePair, out: &mut String) -> Result<(), Memory>
        requires first_seated { Contains (seated self.now.seats.items) pair.now.first }
        requires second_seated { Contains (seated self.now.seats.items) pair.now.second }
        requires one_document { AreOfOneDocument self.now }
        ensures { OnOk result (AppendsLineOf self.now (Command.Compare pair.now)
            (string_bytes out.old) (string_bytes out.new)) }
    {
        let Some(first) = self.client(pair.first) else {
            return acting::push_not_open(out, pair.first);
        };
        let Some(second) = self.client(pair.second) else {
            return acting::push_not_open(out, pair.second);
        };
        let verdict = compare(first.hashes(), second.hashes());
        push_verdict(out, pair.first, pair.second, verdict)
    }
}

// The line that says that an entry has no such byte.
fn push_no_byte(out: &mut String, at: u64) -> Result<(), Memory>
    ensures { OnOk result (string_bytes out.new ≡ string_bytes out.old ++ flipped_line 0 at None) }
{
    writeln!(out, "no byte {at}")
}

// A copy of an entry, with the lowest bit of one byte changed.
fn with_flipped(alloc: Global, entry: &[u8], at: u64) -> Result<Vec<u8>, Memory>
    requires { at < length entry.now }
    ensures { IfOk result (λ bytes. (byte : ℕ) × (slice_get entry.now at ≡ Some byte)
        × (bytes.items ≡ set entry.now at (flipped byte))) }
{
    let mut bytes = Vec::from_slice(alloc, entry)?;
    bytes[at as usize] ^= 1;
    Ok(bytes)
}
