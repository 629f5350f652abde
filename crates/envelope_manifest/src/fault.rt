//! Why a value is no manifest, and why a text is no body.

use ebl_base::NoMemory;

/// A member of a manifest.
#[derive(Clone, Copy, Debug, PartialEq, Eq)]
pub enum ManifestField {
    /// `bill`, a checksum.
    Bill,
    /// `last`, a checksum.
    Last,
    /// `documents`, a list of 0 to 16 documents with distinct checksums, together of at most 4,194,304 bytes.
    Documents,
}

/// Why a value is not taken as a manifest, or as a document that a manifest lists.
#[derive(Clone, Copy, Debug, PartialEq, Eq)]
pub enum ManifestFault {
    /// The value is no object (the field is then the first), or this is the first field that is absent or of another
    /// form.
    ManifestForm(ManifestField),
    /// Memory ran out.
    NoMemory,
}

/// A part of a body.
#[derive(Clone, Copy, Debug, PartialEq, Eq)]
pub enum BodyField {
    /// The whole, an object that `canonical_json` reads.
    Json,
    /// `document`, an object.
    Document,
    /// `manifest`, a text.
    Manifest,
    /// `chain`, a list of texts.
    Chain,
}

/// Why a text is not taken as a body.
#[derive(Clone, Copy, Debug, PartialEq, Eq)]
pub enum BodyFault {
    /// This is the first part that is absent or malformed.
    BodyForm(BodyField),
    /// Memory ran out.
    NoMemory,
}

impl From<NoMemory> for ManifestFault {
    ghost use Rattle.std.specs.Prelude.{◌≡◌};
    ghost use Rattle.envelope_manifest.specs.declared.fault.ManifestFault.TheVariants as faults;

    ghost from_gives = { λ _ e. e ≡ faults.NoMemory };

    fn from(_: NoMemory) -> ManifestFault {
        ManifestFault::NoMemory
    }
}

impl From<NoMemory> for BodyFault {
    ghost use Rattle.std.specs.Prelude.{◌≡◌};
    ghost use Rattle.envelope_manifest.specs.declared.fault.BodyFault.TheVariants as faults;

    ghost from_gives = { λ _ e. e ≡ faults.NoMemory };

    fn from(_: NoMemory) -> BodyFault {
        BodyFault::NoMemory
    }
}
