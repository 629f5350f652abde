//! Why a value is no entry.
ghost use Rattle.std.specs.Prelude.{◌≡◌};
ghost use Rattle.chain_entry.specs.Reading.{field_text};

use ebl_base::NoMemory;

/// A member of an entry, in the order in which they are tested.
#[derive(Clone, Copy, Debug, PartialEq, Eq)]
pub enum EntryField {
    /// `platform`, a platform code.
    Platform,
    /// `bill`, a checksum.
    Bill,
    /// `previous`, a checksum or no such member.
    Previous,
    /// `attempt`, a whole number from 1 to 4,294,967,295.
    Attempt,
    /// `transactions`, a list of 1 to 32 transactions.
    Transactions,
}

impl EntryField {
    /// The name of the member.
    pub fn as_str(self) -> &'static str
        ensures { result.now ≡ field_text self }
    {
        match self {
            EntryField::Platform => "platform",
            EntryField::Bill => "bill",
            EntryField::Previous => "previous",
            EntryField::Attempt => "attempt",
            EntryField::Transactions => "transactions",
        }
    }
}

/// Why a value isn't taken as an entry or a transaction.
#[derive(Clone, Copy, Debug, PartialEq, Eq)]
pub enum EntryFault {
    /// The first member that is absent or malformed. Where the value is no object, it is the first.
    EntryForm(EntryField),
    /// Memory ran out.
    NoMemory,
}

impl From<NoMemory> for EntryFault {
    ghost use Rattle.chain_entry.specs.declared.fault.EntryFault.TheVariants as faults;

    ghost from_gives = { λ _ e. e ≡ faults.NoMemory };

    fn from(_: NoMemory) -> EntryFault {
        EntryFault::NoMemory
    }
}

impl From<EntryField> for EntryFault {
    ghost use Rattle.chain_entry.specs.declared.fault.EntryFault.TheVariants as faults;

    ghost from_gives = { λ f e. e ≡ faults.EntryForm f };

    fn from(field: EntryField) -> EntryFault {
        EntryFault::EntryForm(field)
    }
}
