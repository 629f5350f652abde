//! Commands as they are written: without further members, the names in order.
ghost use Rattle.std.specs.Prelude.{◌≡◌, [], IfOk, OnOk};
ghost use Rattle.canonical_json.specs.Value.{object};
ghost use Rattle.canonical_json.specs.View.{view, members_view};
ghost use Rattle.holder_commands.specs.Command.{command_view, signs, acts, attaches};
ghost use Rattle.holder_commands.specs.Writing.{command_value};

use crate::command::Command;
use canonical_json::{Json, Member};
use ebl_base::{ByteList, CharList, Checksum, Kind, NoMemory, Party};
use json_forms::{bytes_member, checksum_member, member, object_json, party_member, text_member};
use std::alloc::Global;

impl Command {
    /// The written form of the command, an object as [`Command::read`] takes it. The document is copied.
    pub fn write(&self, alloc: Global) -> Result<Json, NoMemory>
        ensures { IfOk result (λ json. view json ≡ command_value (command_view self.now)) }
    {
        match self {
            Command::Sign { document } => signing_json(alloc, document),
            Command::Act {
                bill,
                kind,
                recipient,
            } => act_json(alloc, *bill, *kind, *recipient),
            Command::Attach {
                bill,
                name,
                media,
                bytes,
            } => attachment_json(alloc, *bill, name, media, bytes),
        }
    }
}

fn signing_json(alloc: Global, document: &Json) -> Result<Json, NoMemory>
    ensures { IfOk result (λ json. view json ≡ command_value (signs (view document.now))) }
{
    let mut members = Vec::with_capacity(alloc, 2)?;
    put_signing(alloc, &mut members, document)?;
    Ok(object_json(members))
}

fn put_signing(alloc: Global, members: &mut Vec<Member>, document: &Json) -> Result<(), NoMemory>
    requires empty { members.old.items ≡ [] }
    ensures { OnOk result (object (members_view members.new.items) ≡ command_value (signs (view document.now))) }
{
    members.push(text_member(alloc, "do", "SIGN")?)?;
    members.push(member(alloc, "document", document.copy(alloc)?)?)?;
    Ok(())
}

fn act_json(
    alloc: Global,
    bill: Checksum,
    kind: Kind,
    recipient: Option<Party>,
) -> Result<Json, NoMemory>
    ensures { IfOk result (λ json. view json ≡ command_value (acts bill kind recipient)) }
{
    let mut members = Vec::with_capacity(alloc, 3)?;
    put_act(alloc, &mut members, bill, kind, recipient)?;
    Ok(object_json(members))
}

fn put_act(
    alloc: Global,
    members: &mut Vec<Member>,
    bill: Checksum,
    kind: Kind,
    recipient: Option<Party>,
) -> Result<(), NoMemory>
    requires empty { members.old.items ≡ [] }
    ensures { OnOk result (object (members_view members.new.items) ≡ command_value (acts bill kind recipient)) }
{
    members.push(checksum_member(alloc, "bill", bill)?)?;
    members.push(text_member(alloc, "do", kind.as_str())?)?;
    if let Some(recipient) = recipient {
        members.push(party_member(alloc, "recipient", recipient)?)?;
    }
    Ok(())
}

fn attachment_json(
    alloc: Global,
    bill: Checksum,
    name: &CharList,
    media: &CharList,
    bytes: &ByteList,
) -> Result<Json, NoMemory>
    ensures { IfOk result (λ json. view json ≡ command_value (attaches bill name.now media.now bytes.now)) }
{
    let mut members = Vec::with_capacity(alloc, 5)?;
    put_attachment(alloc, &mut members, bill, name, media, bytes)?;
    Ok(object_json(members))
}

fn put_attachment(
    alloc: Global,
    members: &mut Vec<Member>,
    bill: Checksum,
    name: &CharList,
    media: &CharList,
    bytes: &ByteList,
) -> Result<(), NoMemory>
    requires empty { members.old.items ≡ [] }
    ensures { OnOk result (object (members_view members.new.items)
        ≡ command_value (attaches bill name.now media.now bytes.now)) }
{
    members.push(checksum_member(alloc, "bill", bill)?)?;
    members.push(bytes_member(alloc, "bytes", bytes.as_slice())?)?;
    members.push(text_member(alloc, "do", "ATTACH")?)?;
    members.push(text_member(alloc, "media", media.as_str())?)?;
    members.push(text_member(alloc, "name", name.as_str())?)?;
    Ok(())
}
