//! References to the records of a diary, and to the parts of some.
ghost use Rattle.std.specs.Prelude.{◌≡◌};
ghost use Rattle.bill_diary.specs.History.{bill_of, record_at, taken_entry};

use crate::record::Record;
use ebl_base::{ByteList, Chain, ChainLink, Checksum, Code, Evidence, Reason, SignedText};
use envelope_manifest::Manifest;

/// A record of a diary.
#[derive(Clone, Copy, Debug)]
pub enum RecordRef<'a> {
    /// One that a frame keeps.
    Kept(&'a Record),
    /// The Taken that follows from the Begun of its frame.
    Taken { bill: Checksum, entry: Checksum },
}

impl RecordRef<'_> {
    /// The bill of the record.
    pub fn bill(self) -> Checksum
        ensures { result ≡ bill_of (record_at self.entry) }
    {
        match self {
            RecordRef::Kept(kept) => kept.bill(),
            RecordRef::Taken { bill, .. } => bill,
        }
    }

    /// The entry that was taken, where the record is a Taken.
    pub fn taken(self) -> Option<Checksum>
        ensures { result ≡ taken_entry (record_at self.entry) }
    {
        match self {
            RecordRef::Kept(kept) => match kept {
                Record::Taken { entry, .. } => Some(*entry),
                _ => None,
            },
            RecordRef::Taken { entry, .. } => Some(entry),
        }
    }
}

/// The parts of a Begun.
#[derive(Clone, Copy, Debug)]
pub struct BegunRef<'a> {
    pub bill: Checksum,
    pub chain: &'a Chain,
    pub manifest: &'a Manifest,
    pub body: &'a ByteList,
}

/// The parts of a Parted.
#[derive(Clone, Copy, Debug)]
pub struct PartedRef<'a> {
    pub bill: Checksum,
    pub link: &'a ChainLink,
    pub manifest: &'a Manifest,
    pub manifest_text: &'a SignedText,
}

/// Why an entry was declined for good.
#[derive(Clone, Copy, Debug)]
pub struct Declination<'a> {
    pub code: Code,
    pub reason: Reason,
    pub evidence: &'a Evidence,
}
