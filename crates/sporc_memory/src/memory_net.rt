//! Nets over listed links.

ghost use Rattle.std.specs.Prelude.{◌≡◌, ◌≤◌, ◌+◌, ◌∷◌, ◌++◌, [], reverse, IfOk, OnOk, OnErr, Some};
ghost use Rattle.sporc_memory.specs.CallsModel.{CountsCall};
ghost use Rattle.sporc_outside.specs.Counts.{CountsFaults};
ghost use Rattle.sporc_memory.specs.MemoryNetModel.{AreFresh, IsFresh, net_of, net_told};
ghost use Rattle.sporc_memory.specs.MemoryStreams.{link_told};
ghost use Rattle.sporc_outside.specs.Nets.{HandsLink};
ghost use Rattle.sporc_outside.specs.Told.{MayAppend};
ghost use Rattle.sporc_outside.specs.Uses.{use_of};

use crate::asked::ask;
use crate::calls::Calls;
use crate::memory_link::MemoryLink;
use sporc_outside::{Counted, Dial, Failed, FileBytes, Links, Listen};
use std::alloc::Global;
use std::marker::Model;
use std::sync::Wait;

/// A net that hands out listed links, the last of the list first, and keeps those that are taken
/// back. A call fails where no link is left, or no memory for its address or for a link's return,
/// and so do the listed calls.
#[derive(Drop)]
pub struct MemoryNet {
    alloc: Global,
    asked: Vec<FileBytes>,
    coming: Vec<MemoryLink>,
    returned: Vec<MemoryLink>,
    out: usize,
    calls: Calls,
    link_faults: u64,
}

impl Model for MemoryNet {
    ghost use Rattle.std.specs.Prelude.{◌≤◌, ◌+◌, reverse, vec_len, vec_capacity};
    ghost use Rattle.sporc_memory.specs.MemoryNetModel.{MemoryNetModel, AreFresh};

    ghost Value = { MemoryNetModel };

    ghost view = { λ n. record {
      asked = n.asked.items;
      coming = reverse n.coming.items;
      returned = n.returned.items;
      out = n.out;
      calls = n.calls;
      link_faults = n.link_faults;
    } };

    ghost invariant = { λ n. (vec_len n.returned + n.out ≤ vec_capacity n.returned)
        × AreFresh n.coming.items };
}

impl MemoryNet {
    /// Hands out these links, the last one first. The listed calls fail.
    pub fn new(alloc: Global, links: Vec<MemoryLink>, calls: Calls) -> MemoryNet
        requires { AreFresh links.items }
        ensures value { result ≡ net_of links.items calls }
    {
        MemoryNet {
            alloc,
            asked: Vec::new(alloc),
            coming: links,
            returned: Vec::new(alloc),
            out: 0,
            calls,
            link_faults: 0,
        }
    }

    /// The addresses asked for.
    pub fn asked(&self) -> &[FileBytes]
        ensures value { result.now ≡ self.now.asked }
    {
        self.asked.as_slice()
    }

    /// The links that were taken back.
    pub fn returned(&self) -> &[MemoryLink]
        ensures value { result.now ≡ self.now.returned }
    {
        self.returned.as_slice()
    }

    // The next link, with room for its return. It counts no call, but a fault of the one that is
    // under way.
    fn hand_out(&mut self) -> Result<MemoryLink, Failed>
        ensures ok { IfOk result (λ link. self.old.coming ≡ link ∷ self.new.coming) }
        ensures fresh { IfOk result IsFresh }
        ensures coming_unchanged { OnErr result (self.new.coming ≡ self.old.coming) }
        ensures out { OnOk result (self.new.out ≡ self.old.out + 1) }
        ensures out_unchanged { OnErr result (self.new.out ≡ self.old.out) }
        ensures asked { self.new.asked ≡ self.old.asked }
        ensures returned { self.new.returned ≡ self.old.returned }
        ensures links { self.new.link_faults ≡ self.old.link_faults }
        ensures calls { self.new.calls ≡ record self.old.calls { faults = self.new.calls.faults } }
        ensures count { CountsFaults self.old.calls.faults self.new.calls.faults result }
    {
        let room = self.out.saturating_add(1);
        let Ok(()) = self.returned.reserve(room) else {
            return Err(self.calls.fail());
        };
        match self.coming.pop() {
            Some(link) => {
                self.out = room;
                Ok(link)
            }
            None => Err(self.calls.fail()),
        }
    }
}

impl Counted for MemoryNet {
    ghost faults = { λ n. n.calls.faults };

    fn faults(&self) -> u64 {
        self.calls.faults()
    }
}

impl Links for MemoryNet {
    type Link = MemoryLink;

    ghost use Rattle.std.specs.Prelude.{refl};

    ghost told = { net_told };

    ghost faults_are_told = { λ _. refl };

    fn link_faults(&self) -> u64 {
        self.link_faults
    }

    fn take_back(&mut self, link: MemoryLink) {
        self.link_faults = self.link_faults.saturating_add(link.faults());
        self.returned.push_reserved(link);
        self.out -= 1;
    }
}

impl Dial for MemoryNet {
    fn connect<R: Wait>(&mut self, _rt: &R, address: &str) -> Result<MemoryLink, Failed>
        ensures did { HandsLink link_told (use_of net_told self.old self.new) result }
        ensures asked { OnOk result (self.new.asked ≡ self.old.asked ++ address.now ∷ []) }
        ensures may_ask { MayAppend (Some self.old.asked) (Some self.new.asked) address.now }
        ensures call { CountsCall self.old.calls self.new.calls result }
    {
        ask(self.alloc, &mut self.calls, &mut self.asked, address)?;
        self.hand_out()
    }
}

impl Listen for MemoryNet {
    fn listen(&mut self, address: &str) -> Result<(), Failed>
        ensures asked { OnOk result (self.new.asked ≡ self.old.asked ++ address.now ∷ []) }
        ensures may_ask { MayAppend (Some self.old.asked) (Some self.new.asked) address.now }
        ensures coming { Some self.new.coming ≡ Some self.old.coming }
        ensures out { Some self.new.out ≡ Some self.old.out }
        ensures returned { Some self.new.returned ≡ Some self.old.returned }
        ensures links { self.new.link_faults ≡ self.old.link_faults }
        ensures count { CountsFaults self.old.calls.faults self.new.calls.faults result }
        ensures call { CountsCall self.old.calls self.new.calls result }
    {
        ask(self.alloc, &mut self.calls, &mut self.asked, address)
    }

    fn accept<R: Wait>(&mut self, _rt: &R) -> Result<MemoryLink, Failed>
        ensures did { HandsLink link_told (use_of net_told self.old self.new) result }
        ensures asked { Some self.new.asked ≡ Some self.old.asked }
        ensures call { CountsCall self.old.calls self.new.calls result }
    {
        self.calls.begin()?;
        self.hand_out()
    }
}
