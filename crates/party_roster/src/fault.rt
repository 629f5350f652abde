//! Why a value is no roster.

use ebl_base::NoMemory;
use std::alloc::{AllocError, AllocFailed};

/// The first place of a value that isn't as a roster's. Places count from 0.
#[derive(Clone, Copy, Debug, PartialEq, Eq)]
pub enum RosterPlace {
    /// The value is no object, or its `platforms` are no list of 1 to 8.
    Whole,
    /// This element of `platforms` is no platform code, or repeats an earlier one.
    Platform(usize),
    /// The `parties` are no list of 1 to 1,024.
    Parties,
    /// This element of `parties` is no party on a listed platform, or repeats an earlier one.
    PartyAt(usize),
    /// The `carriers` are no list of 1 to 64.
    Carriers,
    /// This element of `carriers` is no carrier with a listed party, or repeats the provider and code
    /// of an earlier one.
    CarrierAt(usize),
}

/// Why a value is not read as a roster.
#[derive(Clone, Copy, Debug, PartialEq, Eq)]
pub enum RosterFault {
    /// The value has not the form, first at this place.
    RosterForm(RosterPlace),
    /// Memory ran out.
    NoMemory,
}

impl From<NoMemory> for RosterFault {
    ghost use Rattle.std.specs.Prelude.{◌≡◌};
    ghost use Rattle.party_roster.specs.declared.fault.RosterFault.TheVariants as faults;

    ghost from_gives = { λ _ e. e ≡ faults.NoMemory };

    fn from(_: NoMemory) -> RosterFault {
        RosterFault::NoMemory
    }
}

impl From<AllocError> for RosterFault {
    ghost use Rattle.std.specs.Prelude.{◌≡◌};
    ghost use Rattle.party_roster.specs.declared.fault.RosterFault.TheVariants as faults;

    ghost from_gives = { λ _ e. e ≡ faults.NoMemory };

    fn from(_: AllocError) -> RosterFault {
        RosterFault::NoMemory
    }
}

impl<T: Drop> From<AllocFailed<T>> for RosterFault {
    ghost use Rattle.std.specs.Prelude.{◌≡◌};
    ghost use Rattle.party_roster.specs.declared.fault.RosterFault.TheVariants as faults;

    ghost from_gives = { λ _ e. e ≡ faults.NoMemory };

    fn from(_: AllocFailed<T>) -> RosterFault {
        RosterFault::NoMemory
    }
}
