//! Records: each is one thing that happened to one bill on one platform.
ghost use Rattle.std.specs.Prelude.{◌≡◌, IfOk};
ghost use Rattle.bill_diary.specs.declared.record.Record.TheVariants.{Signed, Attached, Parted, Begun, Stored, Declined};
ghost use Rattle.bill_diary.specs.History.{bill_of};

use ebl_base::{
    ByteList, Chain, ChainLink, Checksum, Code, Copied, Evidence, NoMemory, Reason, SignedText,
    Transaction,
};
use envelope_manifest::{Manifest, Piece};
use std::alloc::Global;

/// What happened to a bill on a platform. Each record names the bill.
#[derive(Debug, Drop)]
pub enum Record {
    /// The carrier signed a transport document: the bill begins, on this platform.
    Signed {
        bill: Checksum,
        /// The canonical text of the document, whose checksum is the bill's name.
        document: ByteList,
        transaction: Transaction,
    },
    /// A party acted on the bill, and possession stayed on this platform.
    Acted {
        bill: Checksum,
        transaction: Transaction,
    },
    /// An additional document was attached to the bill.
    Attached {
        bill: Checksum,
        piece: Piece,
        bytes: ByteList,
    },
    /// The platform signed an entry that moves the bill to another platform, and sends it there.
    Parted {
        bill: Checksum,
        link: ChainLink,
        manifest: Manifest,
        manifest_text: SignedText,
    },
    /// The other platform has received this entry.
    Settled {
        bill: Checksum,
        entry: Checksum,
    },
    /// The other platform has declined this entry for good: the bill stays here.
    Regained {
        bill: Checksum,
        entry: Checksum,
    },
    /// Another platform began to send the bill here.
    Begun {
        bill: Checksum,
        chain: Chain,
        manifest: Manifest,
        /// The canonical text of the body that came.
        body: ByteList,
    },
    /// An additional document came, for the bill and the chain that ends in this entry.
    Stored {
        bill: Checksum,
        entry: Checksum,
        checksum: Checksum,
        bytes: ByteList,
    },
    /// The chain that ends in this entry was received: the bill is here.
    Taken {
        bill: Checksum,
        entry: Checksum,
    },
    /// The chain that ends in this entry was declined for good.
    Declined {
        bill: Checksum,
        entry: Checksum,
        code: Code,
        reason: Reason,
        evidence: Evidence,
    },
}

impl Record {
    /// The bill of the record.
    pub fn bill(&self) -> Checksum
        ensures { result ≡ bill_of self.now }
    {
        match self {
            Record::Signed { bill, .. }
            | Record::Acted { bill, .. }
            | Record::Attached { bill, .. }
            | Record::Parted { bill, .. }
            | Record::Settled { bill, .. }
            | Record::Regained { bill, .. }
            | Record::Begun { bill, .. }
            | Record::Stored { bill, .. }
            | Record::Taken { bill, .. }
            | Record::Declined { bill, .. } => *bill,
        }
    }
}

impl Copied for Record {
    fn copy(&self, alloc: Global) -> Result<Self, NoMemory> {
        let bill = self.bill();
        match self {
            Record::Signed {
                document,
                transaction,
                ..
            } => copy_signed(alloc, bill, document, *transaction),
            Record::Acted { transaction, .. } => Ok(Record::Acted {
                bill,
                transaction: *transaction,
            }),
            Record::Attached { piece, bytes, .. } => copy_attached(alloc, bill, piece, bytes),
            Record::Parted {
                link,
                manifest,
                manifest_text,
                ..
            } => copy_parted(alloc, bill, link, manifest, manifest_text),
            Record::Settled { entry, .. } => Ok(Record::Settled {
                bill,
                entry: *entry,
            }),
            Record::Regained { entry, .. } => Ok(Record::Regained {
                bill,
                entry: *entry,
            }),
            Record::Begun {
                chain,
                manifest,
                body,
                ..
            } => copy_begun(alloc, bill, chain, manifest, body),
            Record::Stored {
                entry,
                checksum,
                bytes,
                ..
            } => copy_stored(alloc, bill, *entry, *checksum, bytes),
            Record::Taken { entry, .. } => Ok(Record::Taken {
                bill,
                entry: *entry,
            }),
            Record::Declined {
                entry,
                code,
                reason,
                evidence,
                ..
            } => copy_declined(alloc, bill, *entry, *code, *reason, evidence),
        }
    }
}

fn copy_signed(
    alloc: Global,
    bill: Checksum,
    document: &ByteList,
    transaction: Transaction,
) -> Result<Record, NoMemory>
    ensures { IfOk result (λ c. c ≡ Signed bill document.now transaction) }
{
    Ok(Record::Signed {
        bill,
        document: document.copy(alloc)?,
        transaction,
    })
}

fn copy_attached(
    alloc: Global,
    bill: Checksum,
    piece: &Piece,
    bytes: &ByteList,
) -> Result<Record, NoMemory>
    ensures { IfOk result (λ c. c ≡ Attached bill piece.now bytes.now) }
{
    let bytes = bytes.copy(alloc)?;
    Ok(Record::Attached {
        bill,
        piece: piece.copy(alloc)?,
        bytes,
    })
}

fn copy_parted(
    alloc: Global,
    bill: Checksum,
    link: &ChainLink,
    manifest: &Manifest,
    manifest_text: &SignedText,
) -> Result<Record, NoMemory>
    ensures { IfOk result (λ c. c ≡ Parted bill link.now manifest.now manifest_text.now) }
{
    let manifest_text = manifest_text.copy(alloc)?;
    let manifest = manifest.copy(alloc)?;
    Ok(Record::Parted {
        bill,
        link: link.copy(alloc)?,
        manifest,
        manifest_text,
    })
}

fn copy_begun(
    alloc: Global,
    bill: Checksum,
    chain: &Chain,
    manifest: &Manifest,
    body: &ByteList,
) -> Result<Record, NoMemory>
    ensures { IfOk result (λ c. c ≡ Begun bill chain.now manifest.now body.now) }
{
    let body = body.copy(alloc)?;
    let chain = chain.copy(alloc)?;
    Ok(Record::Begun {
        bill,
        chain,
        manifest: manifest.copy(alloc)?,
        body,
    })
}

fn copy_stored(
    alloc: Global,
    bill: Checksum,
    entry: Checksum,
    checksum: Checksum,
    bytes: &ByteList,
) -> Result<Record, NoMemory>
    ensures { IfOk result (λ c. c ≡ Stored bill entry checksum bytes.now) }
{
    Ok(Record::Stored {
        bill,
        entry,
        checksum,
        bytes: bytes.copy(alloc)?,
    })
}

fn copy_declined(
    alloc: Global,
    bill: Checksum,
    entry: Checksum,
    code: Code,
    reason: Reason,
    evidence: &Evidence,
) -> Result<Record, NoMemory>
    ensures { IfOk result (λ c. c ≡ Declined bill entry code reason evidence.now) }
{
    Ok(Record::Declined {
        bill,
        entry,
        code,
        reason,
        evidence: evidence.copy(alloc)?,
    })
}
