//! Why a text has no parts, isn't taken as signed, or wasn't composed.
ghost use Rattle.std.specs.Prelude.{◌≡◌};
ghost use Rattle.signed_envelope.specs.Refusal.{cause_text};
ghost use Rattle.signed_envelope.specs.declared.fault.BadSigned.TheVariants as refusal;
ghost use Rattle.signed_envelope.specs.declared.fault.ComposeFault.TheVariants as fault;

use ebl_base::NoMemory;

/// Why a text has no parts.
#[derive(Clone, Copy, Debug, PartialEq, Eq)]
pub enum SplitFault {
    /// It isn't three parts of base64url (RFC 4648, section 5) without padding and without stray bits at the end,
    /// joined by full stops, with a signature of 1 to 64 bytes, within the limit.
    NotCompact,
    /// Memory ran out.
    NoMemory,
}

/// Why no text was composed.
#[derive(Clone, Copy, Debug, PartialEq, Eq)]
pub enum ComposeFault {
    /// The ring failed to sign, and its count of faults rose.
    Sign,
    /// The text would be longer than the limit. It depends on how long the signature is that the ring made, which
    /// nobody sees: the contract says that with some signature of the platform the text is too long.
    TooLong,
    /// Memory ran out.
    NoMemory,
}

/// Why a text isn't taken as signed: the first cause that applies, in this order.
#[derive(Clone, Copy, Debug, PartialEq, Eq)]
pub enum BadSigned {
    /// The text isn't in the compact layout, within the limit.
    NotCompact,
    /// The header isn't a JSON object with the ring's algorithm as `alg` and a platform code as `kid`.
    HeaderForm,
    /// The header has a member `crit`: further members that a reader has to understand (RFC 7515, section 4.1.11).
    Critical,
    /// The header names another platform than the one that was asked for.
    WrongKey,
    /// The ring doesn't take the signature as the platform's.
    Wrong,
    /// The payload isn't JSON that `canonical_json` reads.
    PayloadForm,
    /// Memory ran out.
    NoMemory,
}

impl BadSigned {
    /// The word of the cause, as `WRONG_KEY`.
    pub fn as_str(self) -> &'static str
        ensures { result.now ≡ cause_text self }
    {
        match self {
            BadSigned::NotCompact => "NOT_COMPACT",
            BadSigned::HeaderForm => "HEADER_FORM",
            BadSigned::Critical => "CRITICAL",
            BadSigned::WrongKey => "WRONG_KEY",
            BadSigned::Wrong => "WRONG",
            BadSigned::PayloadForm => "PAYLOAD_FORM",
            BadSigned::NoMemory => "NO_MEMORY",
        }
    }
}

impl From<SplitFault> for BadSigned {
    ghost use Rattle.signed_envelope.specs.Steps.{split_refusal};

    ghost from_gives = { λ f r. r ≡ split_refusal f };

    fn from(fault: SplitFault) -> Self {
        match fault {
            SplitFault::NotCompact => BadSigned::NotCompact,
            SplitFault::NoMemory => BadSigned::NoMemory,
        }
    }
}

impl From<NoMemory> for BadSigned {
    ghost from_gives = { λ _ r. r ≡ refusal.NoMemory };

    fn from(_: NoMemory) -> Self {
        BadSigned::NoMemory
    }
}

impl From<NoMemory> for ComposeFault {
    ghost from_gives = { λ _ f. f ≡ fault.NoMemory };

    fn from(_: NoMemory) -> Self {
        ComposeFault::NoMemory
    }
}
