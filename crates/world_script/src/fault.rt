//! Why a value is no event.

use ebl_base::NoMemory;

/// Why a value isn't taken as an event of a script.
#[derive(Clone, Copy, Debug, PartialEq, Eq)]
pub enum EventFault {
    /// It has none of the marks of an event, or a member of the event that its first mark names is absent or malformed.
    EventForm,
    /// Memory ran out.
    NoMemory,
}

impl From<NoMemory> for EventFault {
    ghost use Rattle.std.specs.Prelude.{◌≡◌};
    ghost use Rattle.world_script.specs.declared.fault.EventFault.TheVariants as faults;

    ghost from_gives = { λ _ e. e ≡ faults.NoMemory };

    fn from(_: NoMemory) -> EventFault {
        EventFault::NoMemory
    }
}
