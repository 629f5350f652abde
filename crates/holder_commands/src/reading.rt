//! Commands as they are read: the first wrong member ends the reading.
ghost use Rattle.std.specs.Prelude.{◌≡◌, false, Ok, IfOk, IfErr};
ghost use Rattle.canonical_json.specs.Lawful.{IsLawful, HasTexts};
ghost use Rattle.canonical_json.specs.View.{view};
ghost use Rattle.holder_commands.specs.Command.{command_view};
ghost use Rattle.holder_commands.specs.Form.{IsCommand};
ghost use Rattle.holder_commands.specs.Reading.{IsFault, act_of, attachment_of, begins_a_bill, command_of, deed_of, signing_of, word_of};

use crate::command::Command;
use crate::fault::{CommandFault, CommandField};
use canonical_json::{Json, member_of, text_of};
use ebl_base::{CharList, Kind, MAX_DOCUMENT_MEDIA, MAX_DOCUMENT_NAME};
use envelope_manifest::required_plain_text;
use json_forms::{optional_party, required_bytes, required_checksum};
use std::alloc::Global;

impl Command {
    /// The command that a value is: an object with `do`, `ATTACH` or the text of a kind, and then, as [`CommandField`]
    /// says, for SIGN `document`; for ATTACH `bill`, `name`, `media` and `bytes`; else `bill` and `recipient`. Further
    /// members are ignored.
    ///
    /// [`CommandFault::CommandForm`] names the first member in that order that is absent or malformed. The document
    /// is copied, and the bytes of an attachment are decoded once, in time linear in their text.
    pub fn read(alloc: Global, json: &Json) -> Result<Command, CommandFault>
        ensures ok { IfOk result (λ command. command_of (view json.now) ≡ Ok (command_view command)) }
        ensures form { IfOk result (λ command. IsLawful (view json.now) → HasTexts (view json.now)
            → IsCommand (command_view command)) }
        ensures err { IfErr result (IsFault (command_of (view json.now))) }
    {
        let Some(word) = text_of(json, "do") else {
            return Err(CommandFault::CommandForm(CommandField::Do));
        };
        read_word(alloc, word.as_str(), json)
    }
}

fn read_word(alloc: Global, word: &str, json: &Json) -> Result<Command, CommandFault>
    ensures ok { IfOk result (λ command. word_of word.now (view json.now) ≡ Ok (command_view command)) }
    ensures form { IfOk result (λ command. IsLawful (view json.now) → HasTexts (view json.now)
        → IsCommand (command_view command)) }
    ensures err { IfErr result (IsFault (word_of word.now (view json.now))) }
{
    if word == "ATTACH" {
        return read_attachment(alloc, json);
    }
    match Kind::from_text(word.as_bytes()) {
        Some(kind) => read_deed(alloc, kind, json),
        None => Err(CommandFault::CommandForm(CommandField::Do)),
    }
}

fn read_deed(alloc: Global, kind: Kind, json: &Json) -> Result<Command, CommandFault>
    ensures ok { IfOk result (λ command. deed_of kind (view json.now) ≡ Ok (command_view command)) }
    ensures form { IfOk result (λ command. IsLawful (view json.now) → HasTexts (view json.now)
        → IsCommand (command_view command)) }
    ensures err { IfErr result (IsFault (deed_of kind (view json.now))) }
{
    if begins_a_bill(kind) {
        read_signing(alloc, json)
    } else {
        read_act(kind, json)
    }
}

/// Whether a kind begins a bill, as SIGN alone does.
pub(crate) fn begins_a_bill(kind: Kind) -> bool
    ensures { result ≡ begins_a_bill kind }
{
    match kind {
        Kind::Sign => true,
        Kind::Issue
        | Kind::Endorse
        | Kind::Transfer
        | Kind::SurrenderForDelivery
        | Kind::SurrenderForAmendment
        | Kind::SurrenderAccepted
        | Kind::SurrenderRefused => false,
    }
}

fn read_signing(alloc: Global, json: &Json) -> Result<Command, CommandFault>
    ensures ok { IfOk result (λ command. signing_of (view json.now) ≡ Ok (command_view command)) }
    ensures form { IfOk result (λ command. IsLawful (view json.now) → HasTexts (view json.now)
        → IsCommand (command_view command)) }
    ensures err { IfErr result (IsFault (signing_of (view json.now))) }
{
    let Some(document) = member_of(json, "document") else {
        return Err(CommandFault::CommandForm(CommandField::Document));
    };
    let document = document.copy(alloc)?;
    Ok(Command::Sign { document })
}

fn read_act(kind: Kind, json: &Json) -> Result<Command, CommandFault>
    ensures ok { IfOk result (λ command. act_of kind (view json.now) ≡ Ok (command_view command)) }
    ensures form { begins_a_bill kind ≡ false → IfOk result (λ command. IsCommand (command_view command)) }
    ensures err { IfErr result (IsFault (act_of kind (view json.now))) }
{
    let Some(bill) = required_checksum(json, "bill") else {
        return Err(CommandFault::CommandForm(CommandField::Bill));
    };
    let Ok(recipient) = optional_party(json, "recipient") else {
        return Err(CommandFault::CommandForm(CommandField::Recipient));
    };
    Ok(Command::Act {
        bill,
        kind,
        recipient,
    })
}

fn read_attachment(alloc: Global, json: &Json) -> Result<Command, CommandFault>
    ensures ok { IfOk result (λ command. attachment_of (view json.now) ≡ Ok (command_view command)) }
    ensures form { IfOk result (λ command. IsCommand (command_view command)) }
    ensures err { IfErr result (IsFault (attachment_of (view json.now))) }
{
    let Some(bill) = required_checksum(json, "bill") else {
        return Err(CommandFault::CommandForm(CommandField::Bill));
    };
    let Some(name) = required_plain_text(json, "name", MAX_DOCUMENT_NAME) else {
        return Err(CommandFault::CommandForm(CommandField::Name));
    };
    let Some(media) = required_plain_text(json, "media", MAX_DOCUMENT_MEDIA) else {
        return Err(CommandFault::CommandForm(CommandField::Media));
    };
    let Some(bytes) = required_bytes(alloc, json, "bytes")? else {
        return Err(CommandFault::CommandForm(CommandField::Bytes));
    };
    let name = CharList::from_text(alloc, name)?;
    let media = CharList::from_text(alloc, media)?;
    Ok(Command::Attach {
        bill,
        name,
        media,
        bytes,
    })
}
