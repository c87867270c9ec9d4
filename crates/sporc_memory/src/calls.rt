//! The calls of objects in memory.

ghost use Rattle.std.specs.Prelude.{◌≡◌, ◌≤◌, ◌↔◌, IsErr, OnOk, OnErr, Contains};
ghost use Rattle.sporc_memory.specs.CallsModel.{CountsCall, calls_failing, one_failed, one_more};
ghost use Rattle.sporc_outside.specs.Counts.{CountsFaults, Rose, next_count, count_of_both};

use sporc_outside::Failed;
use std::marker::Model;

/// The calls of an object in memory: which of them are to fail, by their numbers, how many were
/// made, and how many failed. The first call has number 1.
#[derive(Drop)]
pub struct Calls {
    failing: Vec<u64>,
    made: u64,
    faults: u64,
}

impl Model for Calls {
    ghost use Rattle.sporc_memory.specs.CallsModel.{CallsModel};

    ghost Value = { CallsModel };

    ghost view = { λ c. record { failing = c.failing.items; made = c.made; faults = c.faults } };
}

impl Calls {
    /// No calls yet. Those with the listed numbers are to fail.
    pub fn failing(failing: Vec<u64>) -> Calls
        ensures value { result ≡ calls_failing failing.items }
    {
        Calls {
            failing,
            made: 0,
            faults: 0,
        }
    }

    /// How many calls failed.
    pub fn faults(&self) -> u64
        ensures value { result ≡ self.now.faults }
    {
        self.faults
    }

    /// Counts one more call, which fails exactly if its number is listed.
    pub fn begin(&mut self) -> Result<(), Failed>
        ensures listed { IsErr result ↔ Contains self.old.failing (next_count self.old.made) }
        ensures call { CountsCall self.old self.new result }
        ensures ok { OnOk result (self.new ≡ one_more self.old) }
        ensures count { CountsFaults self.old.faults self.new.faults result }
        ensures err { OnErr result (self.new ≡ one_failed self.old) }
    {
        self.made = self.made.saturating_add(1);
        if self.failing.contains(&self.made) {
            return Err(self.fail());
        }
        Ok(())
    }

    /// Counts a fault of the call that is under way.
    pub fn fail(&mut self) -> Failed
        ensures value { self.new ≡ record self.old { faults = next_count self.old.faults } }
        ensures kept { self.old.faults ≤ self.new.faults }
        ensures count { Rose self.old.faults self.new.faults }
    {
        self.faults = self.faults.saturating_add(1);
        Failed
    }

    // Counts one more call, which fails.
    pub(crate) fn refuse(&mut self) -> Failed
        ensures failing { self.new.failing ≡ self.old.failing }
        ensures made { self.new.made ≡ next_count self.old.made }
        ensures count { Rose self.old.faults self.new.faults }
        ensures kept { self.old.faults ≤ self.new.faults }
    {
        match self.begin() {
            Ok(()) => self.fail(),
            Err(failed) => failed,
        }
    }

    /// Counts the faults of an object that was taken back.
    pub fn add_faults(&mut self, faults: u64)
        ensures count { self.new
            ≡ record self.old { faults = count_of_both self.old.faults faults } }
    {
        self.faults = self.faults.saturating_add(faults);
    }
}
