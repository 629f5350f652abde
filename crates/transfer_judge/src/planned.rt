//! What a party's command comes to, and why it is refused.
use bill_diary::Record;
use ebl_base::{Copied, Entry, LimitKind, NoMemory, Party, PlaceTag, PlatformCode};
use envelope_manifest::PieceList;
use std::alloc::Global;
use title_fold::FoldRefusal;
use transport_document::DocumentFault;

/// What a command comes to that isn't refused.
#[derive(Debug, Drop)]
pub enum Planned {
    /// Nothing is to be written: the bytes of an attachment are listed for the bill already.
    Nothing,
    /// This record is to be added.
    Add(Record),
    /// The bill is to part for another platform.
    Part {
        /// The entry to be signed: the transactions made since the known chain, and the one that moves.
        entry: Entry,
        /// The additional documents that the manifest is to list, at most 16.
        documents: PieceList,
        /// The platform to which possession moves.
        to: PlatformCode,
    },
}

impl Copied for Planned {
    fn copy(&self, alloc: Global) -> Result<Self, NoMemory> {
        match self {
            Planned::Nothing => Ok(Planned::Nothing),
            Planned::Add(record) => Ok(Planned::Add(record.copy(alloc)?)),
            Planned::Part {
                entry,
                documents,
                to,
            } => Ok(Planned::Part {
                entry: entry.copy(alloc)?,
                documents: documents.copy(alloc)?,
                to: *to,
            }),
        }
    }
}

/// Why a command is refused. The reasons are asked in this order, and the first that applies is answered.
#[derive(Clone, Copy, Debug, PartialEq, Eq)]
pub enum PlanRefusal {
    /// The party's platform is another one.
    NotOurs,
    /// The document to be signed isn't one of a bill.
    Document(DocumentFault),
    /// The party that signs isn't the roster's carrier of the document.
    NotCarrier,
    /// The document's bill is known here: it isn't absent.
    KnownBill,
    /// The bill isn't held here: this is where it is.
    NotHere(PlaceTag),
    /// The roster has no place for this party, to which possession or title would go: the platform isn't listed, or is
    /// this one and the party isn't listed.
    NoParty(Party),
    /// This rule of titles refuses.
    NotAllowed(FoldRefusal),
    /// The command would pass this limit.
    Limit(LimitKind),
    /// Memory ran out.
    NoMemory,
}

impl From<NoMemory> for PlanRefusal {
    ghost use Rattle.std.specs.Prelude.{◌≡◌};
    ghost use Rattle.transfer_judge.specs.declared.planned.PlanRefusal.TheVariants as refusals;

    ghost from_gives = { λ _ e. e ≡ refusals.NoMemory };

    fn from(_: NoMemory) -> PlanRefusal {
        PlanRefusal::NoMemory
    }
}
