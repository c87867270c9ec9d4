//! Nets that make links.

ghost use Rattle.std.specs.Prelude.{◌≡◌, ◌≤◌, ◌+◌, option_map, OnOk};
ghost use Rattle.sporc_outside.specs.Counts.{CountsFaults, count_of_both};
ghost use Rattle.sporc_outside.specs.Nets.{HandsLink, NetTold};
ghost use Rattle.sporc_outside.specs.Told.{AppendsItem, MayAppend, IsPositive};
ghost use Rattle.sporc_outside.specs.Uses.{use_of};

use crate::counted::{Counted, Failed};
use crate::link::Link;
use std::sync::Wait;

/// What makes links takes each of them back. It has a second count, of the faults of those that
/// were taken back.
pub trait Links: Counted {
    type Link: Link;

    // What it tells.
    ghost told: { Self → NetTold };

    /// How many calls failed of the links that were taken back.
    fn link_faults(&self) -> u64
        ensures value { result ≡ (told self.now).link_faults };

    /// Takes back a link that it made.
    fn take_back(&mut self, link: Self::Link)
        requires { IsPositive (told self.old).out }
        ensures out { (told self.old).out ≡ option_map (λ n. n + 1) (told self.new).out }
        ensures returned { AppendsItem (told self.old).returned (told self.new).returned
            (Self.Link.told link) }
        ensures asked { (told self.new).asked ≡ (told self.old).asked }
        ensures coming { (told self.new).coming ≡ (told self.old).coming }
        ensures kept { (told self.new).faults ≡ (told self.old).faults }
        ensures links_kept { count_of_both (told self.old).link_faults (Self.Link.told link).faults
            ≤ (told self.new).link_faults };

    // The faults that it tells are those that it counts.
    ghost faults_are_told: { (net : Self) → (told net).faults ≡ Self.faults net };
}

/// Calls the other end.
pub trait Dial: Links {
    /// A new link to the address.
    fn connect<R: Wait>(&mut self, rt: &R, address: &str) -> Result<Self::Link, Failed>
        ensures did { HandsLink Self.Link.told (use_of Self.told self.old self.new) result }
        ensures asked { OnOk result
            (AppendsItem (Self.told self.old).asked (Self.told self.new).asked address.now) }
        ensures may_ask { MayAppend (Self.told self.old).asked
            (Self.told self.new).asked address.now };
}

/// Is called by the other end.
pub trait Listen: Links {
    /// Begins to listen at the address.
    fn listen(&mut self, address: &str) -> Result<(), Failed>
        ensures asked { OnOk result
            (AppendsItem (Self.told self.old).asked (Self.told self.new).asked address.now) }
        ensures may_ask { MayAppend (Self.told self.old).asked
            (Self.told self.new).asked address.now }
        ensures coming { (Self.told self.new).coming ≡ (Self.told self.old).coming }
        ensures out { (Self.told self.new).out ≡ (Self.told self.old).out }
        ensures returned { (Self.told self.new).returned ≡ (Self.told self.old).returned }
        ensures links { (Self.told self.new).link_faults ≡ (Self.told self.old).link_faults }
        ensures count { CountsFaults (Self.told self.old).faults
            (Self.told self.new).faults result };

    /// Waits for the next link.
    fn accept<R: Wait>(&mut self, rt: &R) -> Result<Self::Link, Failed>
        ensures did { HandsLink Self.Link.told (use_of Self.told self.old self.new) result }
        ensures asked { (Self.told self.new).asked ≡ (Self.told self.old).asked };
}
