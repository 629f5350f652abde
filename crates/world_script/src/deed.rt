//! What a script's party asks: a command whose bill may be a number.
ghost use Rattle.std.specs.Prelude.{◌≡◌, IfOk};
ghost use Rattle.world_script.specs.Event.{attaches, deed_view};

use canonical_json::Json;
use ebl_base::{ByteList, CharList, Checksum, Copied, Kind, NoMemory, Party};
use std::alloc::Global;

/// A bill, as a script names it.
#[derive(Clone, Copy, Debug, PartialEq, Eq)]
pub enum BillName {
    /// By its name, the checksum of its document.
    Name(Checksum),
    /// By its number: the k-th bill, from 1, whose SIGN was done in this script.
    Number(u64),
}

/// What a party asks of a platform. Who asks, where and when isn't part of it.
#[derive(Drop)]
pub enum Deed {
    /// Sign a transport document: its bill begins.
    Sign {
        /// The document, any JSON value.
        document: Json,
    },
    /// A transaction on a bill.
    Act {
        /// The bill.
        bill: BillName,
        /// The kind of transaction. An event that was read has every kind except SIGN here.
        kind: Kind,
        /// The party to which the transaction hands something, if there is one.
        recipient: Option<Party>,
    },
    /// Attach an additional document to a bill.
    Attach {
        /// The bill.
        bill: BillName,
        /// The document's name: 1 to 128 bytes of UTF-8 without control characters.
        name: CharList,
        /// Its media type: 1 to 64 bytes of UTF-8 without control characters.
        media: CharList,
        /// Its bytes, of any length.
        bytes: ByteList,
    },
}

impl Deed {
    /// A deed equal to this one, with copies of its document or of its bytes.
    pub fn copy(&self, alloc: Global) -> Result<Deed, NoMemory>
        ensures { IfOk result (λ deed. deed_view deed ≡ deed_view self.now) }
    {
        match self {
            Deed::Sign { document } => Ok(Deed::Sign {
                document: document.copy(alloc)?,
            }),
            Deed::Act {
                bill,
                kind,
                recipient,
            } => Ok(Deed::Act {
                bill: *bill,
                kind: *kind,
                recipient: *recipient,
            }),
            Deed::Attach {
                bill,
                name,
                media,
                bytes,
            } => attach_copy(alloc, *bill, name, media, bytes),
        }
    }
}

fn attach_copy(
    alloc: Global,
    bill: BillName,
    name: &CharList,
    media: &CharList,
    bytes: &ByteList,
) -> Result<Deed, NoMemory>
    ensures { IfOk result (λ deed. deed_view deed ≡ attaches bill name.now media.now bytes.now) }
{
    let name = name.copy(alloc)?;
    let media = media.copy(alloc)?;
    let bytes = bytes.copy(alloc)?;
    Ok(Deed::Attach {
        bill,
        name,
        media,
        bytes,
    })
}
