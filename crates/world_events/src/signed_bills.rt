//! The bills that a script signed.
ghost use Rattle.std.specs.Prelude.{◌≡◌, [], ◌∷◌, ◌++◌, OnErr, OnOk};
ghost use Rattle.std.specs.BTreeMap.{get};
ghost use Rattle.ebl_base.specs.Checksum.{checksum_cmp};
ghost use Rattle.world_events.specs.Numbers.{number_from};
ghost use Rattle.world_events.specs.Signed.{numbered_too};

use ebl_base::{Checksum, NoMemory};
use std::alloc::Global;
use std::collections::BTreeMap;
use std::marker::Model;

/// The bills that a script signed, in their order. A bill's number, counted from 1, costs one search of an ordered map.
#[derive(Drop)]
pub struct SignedBills {
    bills: Vec<Checksum>,
    numbers: BTreeMap<Checksum, u64>,
}

impl Model for SignedBills {
    ghost use Rattle.std.specs.Prelude.{List};
    ghost use Rattle.ebl_base.specs.declared.checksum.Checksum.{Checksum};
    ghost use Rattle.world_events.specs.Signed.{AreNumbered};

    ghost Value = { List Checksum };

    ghost view = { λ s. s.bills.items };

    ghost invariant = { λ s. AreNumbered s.bills.items s.numbers };
}

impl SignedBills {
    /// No bill.
    pub fn new(alloc: Global) -> Self
        ensures { result ≡ [] }
    {
        SignedBills {
            bills: Vec::new(alloc),
            numbers: BTreeMap::new(alloc),
        }
    }

    /// The bills.
    pub fn as_slice(&self) -> &[Checksum]
        ensures { result.now ≡ self.now }
    {
        self.bills.as_slice()
    }

    /// The number of a bill, counted from 1: of the first where it stands more than once. None where it isn't there.
    pub(crate) fn number_of(&self, bill: Checksum) -> Option<u64>
        ensures { result ≡ number_from 1 bill self.now }
    {
        self.numbers.get(&bill).copied()
    }

    /// Puts a bill behind the others. Out of memory, nothing changes.
    pub(crate) fn push(&mut self, bill: Checksum) -> Result<(), NoMemory>
        ensures ok { OnOk result (self.new ≡ self.old ++ bill ∷ []) }
        ensures err { OnErr result (self.new ≡ self.old) }
    {
        self.bills.reserve(1)?;
        let number = self.bills.len() as u64 + 1;
        number_bill(&mut self.numbers, bill, number)?;
        self.bills.push_reserved(bill);
        Ok(())
    }
}

// Gives a bill this number, unless it has one. Out of memory, no number changes.
fn number_bill(
    numbers: &mut BTreeMap<Checksum, u64>,
    bill: Checksum,
    number: u64,
) -> Result<(), NoMemory>
    ensures ok { OnOk result ((other : Checksum) → get checksum_cmp numbers.new other
        ≡ numbered_too bill number other (get checksum_cmp numbers.old other)) }
    ensures err { OnErr result ((other : Checksum) → get checksum_cmp numbers.new other
        ≡ get checksum_cmp numbers.old other) }
{
    if !numbers.contains_key(&bill) {
        numbers.insert(bill, number)?;
    }
    Ok(())
}
