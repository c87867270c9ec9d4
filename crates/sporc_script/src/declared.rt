//! What the lines of a play script declare.

ghost use Rattle.std.specs.Prelude.{◌≡◌, OnOk};
ghost use Rattle.sporc_script.specs.Declarations.{change_names_declared, declared_after, is_among};
ghost use Rattle.sporc_script.specs.Declarations.{is_client, is_declared, is_joiner, is_rogue};
ghost use Rattle.sporc_script.specs.Declarations.{may_declare, may_declare_device, may_follow};
ghost use Rattle.sporc_script.specs.Declarations.{may_sign, names_performers, none_declared};
ghost use Rattle.sporc_script.specs.Declarations.{suffix_names_declared, what_names_declared};

use crate::command::Command;
use crate::roster_change::RosterChange;
use crate::sign::{Forgery, Suffix, What};
use sporc_base::Memory;
use sporc_member::Device;
use std::alloc::Global;
use std::marker::Model;

/// The most members, rogues and joiners of a script.
pub const MAX_DECLARED: usize = 64;

/// What the lines up to some line declare.
#[derive(Drop)]
pub struct Declared {
    numbers: Vec<u16>,
    clients: Vec<Device>,
    rogues: Vec<u16>,
    joiners: Vec<u16>,
    has_admin: bool,
    started: bool,
    begun: bool,
}

impl Model for Declared {
    ghost use Rattle.sporc_script.specs.Declarations.{Declared};

    ghost Value = { Declared };

    ghost view = { λ d. record {
      numbers = d.numbers.items;
      clients = d.clients.items;
      rogues = d.rogues.items;
      joiners = d.joiners.items;
      has_admin = d.has_admin;
      started = d.started;
      begun = d.begun;
    } };
}

impl Declared {
    /// Before the first line.
    pub fn new(alloc: Global) -> Declared
        ensures value { result ≡ none_declared }
    {
        Declared {
            numbers: Vec::new(alloc),
            clients: Vec::new(alloc),
            rogues: Vec::new(alloc),
            joiners: Vec::new(alloc),
            has_admin: false,
            started: false,
            begun: false,
        }
    }

    /// Declares what the next line does.
    pub fn declare(&mut self, command: &Command) -> Result<(), Memory>
        ensures ok { OnOk result (self.new ≡ declared_after self.old command.now) }
    {
        match command {
            Command::Tree(_) | Command::Unpaired(_) => {}
            Command::Member(founder) => {
                self.numbers.push(founder.member)?;
                self.clients.push(Device::first(founder.member))?;
                self.has_admin = self.has_admin || founder.role.is_admin();
            }
            Command::Rogue(founder) => {
                self.numbers.push(founder.member)?;
                self.rogues.push(founder.member)?;
                self.has_admin = self.has_admin || founder.role.is_admin();
            }
            Command::Joiner(member) => {
                self.numbers.push(*member)?;
                self.clients.push(Device::first(*member))?;
                self.joiners.push(*member)?;
            }
            Command::Device(device) => self.clients.push(*device)?,
            _ => self.begun = true,
        }
        self.started = true;
        Ok(())
    }

    /// Whether the line may come next.
    pub fn may_follow(&self, command: &Command) -> bool
        ensures value { result ≡ may_follow self.now command.now }
    {
        match command {
            Command::Tree(_) => !self.started,
            Command::Member(founder) | Command::Rogue(founder) => self.may_declare(founder.member),
            Command::Joiner(member) => self.may_declare(*member),
            Command::Unpaired(pair) => {
                !self.begun
                    && self.is_declared(pair.first)
                    && self.is_declared(pair.second)
                    && pair.first != pair.second
            }
            Command::Device(device) => self.may_declare_device(*device),
            _ => self.has_admin && self.names_performers(command),
        }
    }

    fn may_declare(&self, member: u16) -> bool
        ensures value { result ≡ may_declare self.now member }
    {
        !self.begun && self.numbers.len() < MAX_DECLARED && !self.is_declared(member)
    }

    // A member with a client may have a further device, once.
    fn may_declare_device(&self, device: Device) -> bool
        ensures value { result ≡ may_declare_device self.now device }
    {
        !self.begun && self.is_client(Device::first(device.member)) && !self.is_client(device)
    }

    // Whether those whom a command names can do it.
    fn names_performers(&self, command: &Command) -> bool
        ensures value { result ≡ names_performers self.now command.now }
    {
        match command {
            Command::Edit(edit) => self.is_client(edit.device),
            Command::Change(edit) => {
                self.is_client(edit.device) && self.change_names_declared(&edit.change)
            }
            Command::Discard(device)
            | Command::Submit(device)
            | Command::Show(device)
            | Command::Members(device)
            | Command::Hash(device)
            | Command::Journal(device) => self.is_client(*device),
            Command::Give(give) => self.is_client(give.device),
            Command::Restart(restart) => self.is_client(restart.device),
            Command::Join(join) => self.is_joiner(join.device),
            Command::Compare(pair) => self.is_client(pair.first) && self.is_client(pair.second),
            Command::Sign(forgery) => self.may_sign(forgery),
            _ => true,
        }
    }

    fn may_sign(&self, forgery: &Forgery) -> bool
        ensures value { result ≡ may_sign self.now forgery.now }
    {
        self.is_rogue(forgery.member)
            && self.is_client(forgery.from)
            && self.what_names_declared(&forgery.signed.what)
            && self.suffix_names_declared(&forgery.signed.suffix)
    }

    fn what_names_declared(&self, what: &What) -> bool
        ensures value { result ≡ what_names_declared self.now what.now }
    {
        match what {
            What::Change(change) => self.change_names_declared(change),
            _ => true,
        }
    }

    fn change_names_declared(&self, change: &RosterChange) -> bool
        ensures value { result ≡ change_names_declared self.now change.now }
    {
        match change {
            RosterChange::Add(member) | RosterChange::SetRole(member) => {
                self.is_declared(member.member)
            }
            RosterChange::Remove(member) => self.is_declared(*member),
            RosterChange::AddDevice(device) | RosterChange::DropDevice(device) => {
                self.is_declared(device.member)
            }
            RosterChange::Upgrade => true,
        }
    }

    fn suffix_names_declared(&self, suffix: &Option<Suffix>) -> bool
        ensures value { result ≡ suffix_names_declared self.now suffix.now }
    {
        match suffix {
            Some(Suffix::Wrap(member) | Suffix::Drop(member)) => self.is_declared(*member),
            _ => true,
        }
    }

    fn is_client(&self, device: Device) -> bool
        ensures value { result ≡ is_client self.now device }
    {
        self.clients.iter().any(|c| c.is(device))
    }

    fn is_joiner(&self, device: Device) -> bool
        ensures value { result ≡ is_joiner self.now device }
    {
        is_among(self.joiners.as_slice(), device.member) && self.is_client(device)
    }

    fn is_rogue(&self, member: u16) -> bool
        ensures value { result ≡ is_rogue self.now member }
    {
        is_among(self.rogues.as_slice(), member)
    }

    fn is_declared(&self, member: u16) -> bool
        ensures value { result ≡ is_declared self.now member }
    {
        is_among(self.numbers.as_slice(), member)
    }
}

fn is_among(numbers: &[u16], member: u16) -> bool
    ensures { result ≡ is_among numbers.now member }
{
    numbers.iter().any(|n| *n == member)
}
