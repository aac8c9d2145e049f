//! The numbered calls of an object in memory.

ghost use Rattle.std.specs.Prelude.{◌≡◌, ◌↔◌, IsTrue};
ghost use Rattle.host_io.specs.Calls.{IsListed, failed, passed, unused};
ghost use Rattle.host_io.specs.Causes.{CountsCall, CountsFault};

use crate::stops::Failed;
use std::marker::Model;

/// Numbers calls from 1 on. Those whose number is listed fail.
#[derive(Debug, Drop)]
pub struct CallCounter {
    fails: Vec<u64>,
    made: u64,
    faults: u64,
}

impl Model for CallCounter {
    ghost use Rattle.host_io.specs.Calls.{Calls};

    ghost Value = { Calls };

    ghost view = { λ c. record { fails = c.fails.items; made = c.made; faults = c.faults } };
}

impl CallCounter {
    pub fn new(fails: Vec<u64>) -> CallCounter
        ensures { result ≡ unused fails.items }
    {
        CallCounter {
            fails,
            made: 0,
            faults: 0,
        }
    }

    /// Whether the next call is to fail.
    pub fn fails_next(&self) -> bool
        ensures { IsTrue result ↔ IsListed self.now }
    {
        self.fails.contains(&self.made.saturating_add(1))
    }

    /// Counts a call that was done.
    pub fn pass(&mut self)
        ensures { self.new ≡ passed self.old }
    {
        self.made = self.made.saturating_add(1);
    }

    /// Counts a call that failed.
    pub fn fail(&mut self) -> Failed
        ensures failed { self.new ≡ failed self.old }
        ensures fault { CountsFault self.old.faults self.new.faults }
    {
        self.made = self.made.saturating_add(1);
        self.faults = self.faults.saturating_add(1);
        Failed
    }

    /// Counts a call, which fails exactly where it is listed.
    pub fn count(&mut self) -> Result<(), Failed>
        ensures { CountsCall result self.old self.new }
    {
        if self.fails_next() {
            return Err(self.fail());
        }
        self.pass();
        Ok(())
    }
}
