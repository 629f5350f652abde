//! Why a response is not sealed, and why a text is no response.

use ebl_base::NoMemory;
use signed_envelope::BadSigned;

/// Why a response was not sealed.
#[derive(Clone, Copy, Debug, PartialEq, Eq)]
pub enum SealFault {
    /// The ring failed to sign, and its count of faults rose.
    Sign,
    /// Memory ran out.
    NoMemory,
}

/// A member of a response, in the order in which they are tested.
#[derive(Clone, Copy, Debug, PartialEq, Eq)]
pub enum ResponseField {
    /// `responseCode`, one of the seven codes.
    ResponseCode,
    /// `bill`, a checksum or no such member.
    Bill,
    /// `last`, a checksum or no such member.
    Last,
    /// `standing`, a truth value.
    Standing,
    /// `reason`, the text of a reason that comes with the code, or no such member.
    Reason,
    /// `index`, a whole number from 0 to 63 where the reason is of an entry; else no such member.
    Index,
    /// `missing`, a list of checksums.
    Missing,
    /// `own`, a text or no such member. Whether it is in the compact layout isn't asked here.
    Own,
    /// `theirs`, a text or no such member.
    Theirs,
}

/// Why a text is not taken as a response of a platform.
#[derive(Clone, Copy, Debug, PartialEq, Eq)]
pub enum UnsealFault {
    /// The text isn't signed by the platform within 65,536 bytes, for this cause, which is never NoMemory.
    Signature(BadSigned),
    /// The payload is no response: this is its first member that is absent or malformed. Where the payload is
    /// no object, that is the first member of all.
    Form(ResponseField),
    /// Memory ran out.
    NoMemory,
}

impl From<NoMemory> for SealFault {
    ghost use Rattle.std.specs.Prelude.{◌≡◌};
    ghost use Rattle.pint_responses.specs.declared.fault.SealFault.TheVariants as faults;

    ghost from_gives = { λ _ e. e ≡ faults.NoMemory };

    fn from(_: NoMemory) -> SealFault {
        SealFault::NoMemory
    }
}

impl From<NoMemory> for UnsealFault {
    ghost use Rattle.std.specs.Prelude.{◌≡◌};
    ghost use Rattle.pint_responses.specs.declared.fault.UnsealFault.TheVariants as faults;

    ghost from_gives = { λ _ e. e ≡ faults.NoMemory };

    fn from(_: NoMemory) -> UnsealFault {
        UnsealFault::NoMemory
    }
}
