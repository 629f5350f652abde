//! The roster, the documents and the commands of the bills.
ghost use Rattle.std.specs.Prelude.{IfSome};
ghost use Rattle.holder_commands.specs.Command.{command_view};
ghost use Rattle.holder_commands.specs.Form.{IsCommand};
ghost use Rattle.party_roster.specs.RosterForm.{IsRoster};
ghost use Rattle.transfer_judge.specs.PlannedTexts.{Nests};

use canonical_json::{nests_within, read};
use document_checksum::to_text;
use ebl_base::Checksum;
use holder_commands::Command;
use party_roster::Roster;
use std::alloc::Global;
use std::str::from_utf8;

// So deep a document may nest, to read back within a body.
const DEEPEST: usize = 126;

const ROSTER: &[u8] =
    br#"{"carriers":[{"code":"ALCO","party":"ALPH/CARRIER","provider":"NMFTA"},{"code":"BECO","party":"BETA/CARRIER","provider":"NMFTA"}],"parties":["ALPH/CARRIER","ALPH/EXPORT","BETA/CARRIER","BETA/IMPORT"],"platforms":["ALPH","BETA"]}"#;

pub(crate) fn roster(alloc: Global) -> Option<Roster>
    ensures { IfSome result (λ roster. IsRoster roster) }
{
    Roster::read(alloc, &read(alloc, ROSTER).ok()?).ok()
}

/// The SIGN of a carrier's bill of this number.
pub(crate) fn signing(alloc: Global, carrier: &str, number: u32) -> Option<Command>
    ensures form { IfSome result (λ command. IsCommand (command_view command)) }
    ensures nests { IfSome result (λ command. Nests (command_view command)) }
{
    let text = format!(in alloc;
        "{{\"carrierCode\":\"{carrier}\",\"carrierCodeListProvider\":\"NMFTA\",\"isToOrder\":true,\"transportDocumentReference\":\"{carrier}{number}\",\"transportDocumentTypeCode\":\"BOL\"}}"
    ).ok()?;
    let document = read(alloc, text.as_bytes()).ok()?;
    if nests_within(&document, DEEPEST) {
        Some(Command::Sign { document })
    } else {
        None
    }
}

/// A command on a bill, for a recipient.
pub(crate) fn acting(alloc: Global, bill: Checksum, word: &str, to: &str) -> Option<Command>
    ensures form { IfSome result (λ command. IsCommand (command_view command)) }
    ensures nests { IfSome result (λ command. Nests (command_view command)) }
{
    match read_command(alloc, bill, word, to)? {
        Command::Act {
            bill,
            kind,
            recipient,
        } => Some(Command::Act {
            bill,
            kind,
            recipient,
        }),
        other => {
            drop(other);
            None
        }
    }
}

fn read_command(alloc: Global, bill: Checksum, word: &str, to: &str) -> Option<Command>
    ensures { IfSome result (λ command. IsCommand (command_view command)) }
{
    let name = to_text(bill);
    let name = from_utf8(&name).ok()?;
    let text = format!(in alloc;
        "{{\"bill\":\"{name}\",\"do\":\"{word}\",\"recipient\":\"{to}\"}}"
    ).ok()?;
    let json = read(alloc, text.as_bytes()).ok()?;
    Command::read(alloc, &json).ok()
}
