//! What is wrong with the names and numbers of a text that is in the grammar.
ghost use Rattle.std.specs.Prelude.{◌≡◌};
ghost use Rattle.canonical_json.specs.Faults.{no_faults, first_fault};

use crate::fault::ReadError;

/// Which faults some text has so far.
#[derive(Clone, Copy, Drop)]
pub(crate) struct Faults {
    /// Some object has a name twice.
    pub(crate) repeated: bool,
    /// Some number is no whole number and no decimal.
    pub(crate) fraction: bool,
    /// Some whole number is out of range.
    pub(crate) range: bool,
}

impl Faults {
    pub(crate) fn none() -> Faults
        ensures { result ≡ no_faults }
    {
        Faults {
            repeated: false,
            fraction: false,
            range: false,
        }
    }

    /// The fault that a refusal names.
    pub(crate) fn first(self) -> Option<ReadError>
        ensures { result ≡ first_fault self }
    {
        if self.repeated {
            Some(ReadError::Repeated)
        } else if self.fraction {
            Some(ReadError::Fraction)
        } else if self.range {
            Some(ReadError::Range)
        } else {
            None
        }
    }
}
