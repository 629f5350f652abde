//! The calls of an object in memory, of which listed ones fail.
ghost use Rattle.std.specs.Prelude.{◌≡◌, ◌↔◌, ◌≤◌, Contains, IsTrue};
ghost use Rattle.ebl_base.specs.Faults.{risen};

use crate::failed::Failed;
use crate::faults::count_fault;
use crate::items::{Copied, Items};
use crate::no_memory::NoMemory;
use std::alloc::Global;
use std::marker::Model;

/// The numbers of the calls that are to fail, counted from 0, in any order.
pub type CallList = Items<u64>;

/// The calls of an object in memory: which are to fail, how many came, and how many failed.
///
/// Both counts saturate at 2^64 - 1.
#[derive(Debug, Drop)]
pub struct Calls {
    fails: CallList,
    number: u64,
    faults: u64,
}

impl Model for Calls {
    ghost use Rattle.ebl_base.specs.Calls.{CallsRecord};

    ghost Value = { CallsRecord };

    ghost view = { λ c. record { fails = c.fails; number = c.number; faults = c.faults } };
}

impl Calls {
    /// No call came yet, and the listed ones are to fail.
    pub fn new(fails: CallList) -> Self
        ensures { result ≡ record { fails = fails; number = 0; faults = 0 } }
    {
        Calls {
            fails,
            number: 0,
            faults: 0,
        }
    }

    /// The number of the next call.
    pub fn number(&self) -> u64
        ensures { result ≡ self.now.number }
    {
        self.number
    }

    /// Counts the next call, and answers whether it is to fail. It looks through the whole list.
    pub fn next_fails(&mut self) -> bool
        ensures listed { IsTrue result ↔ Contains self.old.fails self.old.number }
        ensures counted { self.new ≡ record self.old { number = risen self.old.number } }
    {
        let fails = self.fails.as_slice().contains(&self.number);
        self.number = self.number.saturating_add(1);
        fails
    }

    /// Counts a fault and answers it.
    pub fn fail(&mut self) -> Failed
        ensures counted { self.new ≡ record self.old { faults = risen self.old.faults } }
        ensures later { self.old.faults ≤ self.new.faults }
    {
        count_fault(&mut self.faults)
    }

    /// How many calls failed.
    pub fn faults(&self) -> u64
        ensures { result ≡ self.now.faults }
    {
        self.faults
    }
}

impl Copied for Calls {
    fn copy(&self, alloc: Global) -> Result<Self, NoMemory> {
        Ok(Calls {
            fails: self.fails.copy(alloc)?,
            number: self.number,
            faults: self.faults,
        })
    }
}
