//! What a holder asks.
ghost use Rattle.std.specs.Prelude.{◌≡◌, IfOk};
ghost use Rattle.holder_commands.specs.Command.{attaches, command_view};

use canonical_json::Json;
use ebl_base::{ByteList, CharList, Checksum, Copied, Kind, NoMemory, Party};
use std::alloc::Global;

/// What a holder asks of a platform. Who asks, and when, isn't part of it.
#[derive(Drop)]
pub enum Command {
    /// Sign a transport document: its bill begins.
    Sign {
        /// The document, any JSON value: whether it is one of a bill is asked when the command is taken.
        document: Json,
    },
    /// A transaction on a bill.
    Act {
        /// The bill's name.
        bill: Checksum,
        /// The kind of transaction. A command that was read has every kind except SIGN here.
        kind: Kind,
        /// The party to which the transaction hands something, if there is one.
        recipient: Option<Party>,
    },
    /// Attach an additional document to a bill.
    Attach {
        /// The bill's name.
        bill: Checksum,
        /// The document's name: 1 to 128 bytes of UTF-8 without control characters.
        name: CharList,
        /// Its media type: 1 to 64 bytes of UTF-8 without control characters.
        media: CharList,
        /// Its bytes, of any length.
        bytes: ByteList,
    },
}

impl Command {
    /// A command equal to this one, with copies of its document or of its bytes.
    pub fn copy(&self, alloc: Global) -> Result<Command, NoMemory>
        ensures { IfOk result (λ c. command_view c ≡ command_view self.now) }
    {
        match self {
            Command::Sign { document } => Ok(Command::Sign {
                document: document.copy(alloc)?,
            }),
            Command::Act {
                bill,
                kind,
                recipient,
            } => Ok(Command::Act {
                bill: *bill,
                kind: *kind,
                recipient: *recipient,
            }),
            Command::Attach {
                bill,
                name,
                media,
                bytes,
            } => attach_copy(alloc, *bill, name, media, bytes),
        }
    }
}

fn attach_copy(
    alloc: Global,
    bill: Checksum,
    name: &CharList,
    media: &CharList,
    bytes: &ByteList,
) -> Result<Command, NoMemory>
    ensures { IfOk result (λ c. command_view c ≡ attaches bill name.now media.now bytes.now) }
{
    let name = name.copy(alloc)?;
    let media = media.copy(alloc)?;
    let bytes = bytes.copy(alloc)?;
    Ok(Command::Attach {
        bill,
        name,
        media,
        bytes,
    })
}
