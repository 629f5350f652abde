//! Why a text is not read.

use ebl_base::NoMemory;

/// Why a text is not read as a value.
#[derive(Clone, Copy, Debug, PartialEq, Eq)]
pub enum ReadError {
    /// The bytes are no text of JSON (RFC 8259) in UTF-8, have a lone surrogate, or nest deeper than 127.
    NotJson,
    /// Some object has a name twice, when its escapes are read.
    Repeated,
    /// Some number has an exponent, or a fraction that no decimal has.
    Fraction,
    /// Some whole number is below -(2^53 - 1) or above 2^53 - 1.
    Range,
    /// Memory ran out.
    NoMemory,
}

impl From<NoMemory> for ReadError {
    ghost use Rattle.std.specs.Prelude.{◌≡◌};
    ghost use Rattle.canonical_json.specs.declared.fault.ReadError.TheVariants as faults;

    ghost from_gives = { λ _ e. e ≡ faults.NoMemory };

    fn from(_: NoMemory) -> ReadError {
        ReadError::NoMemory
    }
}
