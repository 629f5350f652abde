//! What parties ask.
ghost use Rattle.std.specs.Prelude.{◌≡◌, IfSome, Some, codes, false};
ghost use Rattle.std.specs.Option.{option_map};
ghost use Rattle.base64.specs.GeneralPurpose.{IsBytes};
ghost use Rattle.document_checksum.specs.Digest.{IsChecksum};
ghost use Rattle.ebl_base.specs.Party.{party_of};
ghost use Rattle.holder_commands.specs.Command.{attaches, command_view};
ghost use Rattle.holder_commands.specs.Form.{IsCommand};
ghost use Rattle.holder_commands.specs.Reading.{begins_a_bill};
ghost use Rattle.holder_commands.specs.declared.command.Command.TheVariants.{Act};
ghost use Rattle.sample_bills.specs.Commands.{SignsText};
ghost use Rattle.sample_bills.specs.Documents.{document_text};
ghost use Rattle.transfer_judge.specs.PlannedTexts.{Nests};

use crate::bills::document;
use canonical_json::{nests_within, read};
use ebl_base::{ByteList, CharList, Checksum, Kind, Party};
use holder_commands::Command;
use std::alloc::Global;

// So deep a document may nest, to read back within a body.
const DEEPEST: usize = 126;

/// The SIGN of the document of this number. None comes if memory runs out.
pub fn signing(alloc: Global, number: u32) -> Option<Command>
    ensures signs { IfSome result (λ command. SignsText (document_text number) (command_view command)) }
    ensures form { IfSome result (λ command. IsCommand (command_view command)) }
    ensures nests { IfSome result (λ command. Nests (command_view command)) }
{
    let text = document(alloc, number)?;
    let document = read(alloc, text.as_bytes()).ok()?;
    if nests_within(&document, DEEPEST) {
        Some(Command::Sign { document })
    } else {
        None
    }
}

/// A transaction on a bill, for the recipient `to`. None comes where that is no party's text.
pub fn acting(bill: Checksum, kind: Kind, to: &str) -> Option<Command>
    requires bill { IsChecksum bill }
    requires kind { begins_a_bill kind ≡ false }
    ensures acts { result ≡ option_map (λ party. Act bill kind (Some party)) (party_of to.now) }
    ensures form { IfSome result (λ command. IsCommand (command_view command)) }
    ensures nests { IfSome result (λ command. Nests (command_view command)) }
{
    let recipient = Some(Party::from_text(to.as_bytes())?);
    Some(Command::Act {
        bill,
        kind,
        recipient,
    })
}

/// The attachment of these bytes to a bill, as a document whose name is n and whose media type is m. None comes if
/// memory runs out.
pub fn attaching(alloc: Global, bill: Checksum, bytes: &[u8]) -> Option<Command>
    requires bill { IsChecksum bill }
    ensures attaches { IfSome result
        (λ command. command_view command ≡ attaches bill (codes "n") (codes "m") bytes.now) }
    ensures form { IfSome result (λ command. IsCommand (command_view command)) }
    ensures nests { IfSome result (λ command. Nests (command_view command)) }
{
    let name = CharList::from_text(alloc, "n").ok()?;
    let media = CharList::from_text(alloc, "m").ok()?;
    let bytes = ByteList::from_slice(alloc, bytes).ok()?;
    Some(attachment(bill, name, media, bytes))
}

// By a call of its own, since that such texts are plain is found once.
fn attachment(bill: Checksum, name: CharList, media: CharList, bytes: ByteList) -> Command
    requires bill { IsChecksum bill }
    requires name { name ≡ codes "n" }
    requires media { media ≡ codes "m" }
    requires bytes { IsBytes bytes }
    ensures attaches { command_view result ≡ attaches bill name media bytes }
    ensures form { IsCommand (command_view result) }
    ensures nests { Nests (command_view result) }
{
    Command::Attach {
        bill,
        name,
        media,
        bytes,
    }
}
