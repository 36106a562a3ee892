ghost use Rattle.std.specs.Prelude.{◌≡◌, ◌↔◌, IsErr, OnOk, OnErr};
ghost use Rattle.device_core.specs.Calls.{at_start, after_ok, after_fault, NextFails};
ghost use Rattle.device_core.specs.Faults.{CountsFaults};

use crate::failed::Failed;
use std::marker::Model;

/// Which calls of a device in memory fail, and how many calls and faults there were.
#[derive(Drop)]
pub struct Schedule {
    failing: Vec<usize>,
    made: usize,
    faults: u64,
}

impl Model for Schedule {
    ghost use Rattle.device_core.specs.Calls.{Calls};

    ghost Value = { Calls };

    ghost view = { λ schedule. record {
      failing = schedule.failing.items;
      made = schedule.made;
      faults = schedule.faults;
    } };
}

impl Schedule {
    /// No call yet. `failing` has the numbers of the calls that will fail, the first call being 1.
    pub fn new(failing: Vec<usize>) -> Schedule
        ensures { result ≡ at_start failing.items }
    {
        Schedule {
            failing,
            made: 0,
            faults: 0,
        }
    }

    /// Counts one more call, and says whether it fails.
    pub fn call(&mut self) -> Result<(), Failed>
        ensures fails { IsErr result ↔ NextFails self.old }
        ensures ok { OnOk result (self.new ≡ after_ok self.old) }
        ensures err { OnErr result (self.new ≡ after_fault self.old) }
        ensures counted { CountsFaults self.old.faults self.new.faults result }
    {
        self.made = self.made.saturating_add(1);
        if self.failing.contains(&self.made) {
            self.faults = self.faults.saturating_add(1);
            return Err(Failed);
        }
        Ok(())
    }
}
