//! Why bytes aren't read as a frame.

use ebl_base::NoMemory;

/// Why bytes aren't read as a frame.
#[derive(Clone, Copy, Debug, PartialEq, Eq)]
pub enum FrameFault {
    /// The bytes spell no frame.
    NotAFrame,
    /// Memory ran out.
    NoMemory,
}

impl From<NoMemory> for FrameFault {
    ghost use Rattle.std.specs.Prelude.{◌≡◌};
    ghost use Rattle.record_bytes.specs.declared.fault.FrameFault.TheVariants as faults;

    ghost from_gives = { λ _ e. e ≡ faults.NoMemory };

    fn from(_: NoMemory) -> FrameFault {
        FrameFault::NoMemory
    }
}
