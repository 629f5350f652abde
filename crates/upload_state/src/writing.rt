//! The answer that an upload has started, as it is written.
ghost use Rattle.std.specs.Prelude.{◌≡◌, [], codes, IfOk, OnOk};
ghost use Rattle.canonical_json.specs.Canon.{canon};
ghost use Rattle.canonical_json.specs.View.{member_view, members_view, view};
ghost use Rattle.canonical_json.specs.Value.{object, text};
ghost use Rattle.json_forms.specs.Writing.{checksums_value};
ghost use Rattle.upload_state.specs.Reference.{reference_text};
ghost use Rattle.upload_state.specs.Started.{started_value};

use crate::started::Started;
use canonical_json::{Json, Member, write};
use ebl_base::{ByteList, Checksum, NoMemory, Reference};
use json_forms::{checksums_json, member, object_json, text_member};
use std::alloc::Global;
use uuid::Uuid;

/// The canonical text of the answer (RFC 8785): an object with `missing` and `reference` alone.
/// [`started_read`](crate::started_read) takes it where 1 to 16 checksums are missing.
pub fn started_write(alloc: Global, started: &Started) -> Result<ByteList, NoMemory>
    ensures { IfOk result (λ bytes. bytes ≡ canon (started_value started.now)) }
{
    let json = started_json(alloc, started)?;
    write(alloc, &json)
}

fn started_json(alloc: Global, started: &Started) -> Result<Json, NoMemory>
    ensures { IfOk result (λ json. view json ≡ started_value started.now) }
{
    let mut members = Vec::with_capacity(alloc, 2)?;
    put_started(alloc, &mut members, started)?;
    Ok(object_json(members))
}

fn put_started(alloc: Global, members: &mut Vec<Member>, started: &Started) -> Result<(), NoMemory>
    requires empty { members.old.items ≡ [] }
    ensures { OnOk result (object (members_view members.new.items) ≡ started_value started.now) }
{
    members.push(missing_member(alloc, started.missing.as_slice())?)?;
    members.push(reference_member(alloc, started.reference)?)?;
    Ok(())
}

fn missing_member(alloc: Global, missing: &[Checksum]) -> Result<Member, NoMemory>
    ensures { IfOk result (λ m. member_view m ≡ (codes "missing", checksums_value missing.now)) }
{
    let missing = checksums_json(alloc, missing)?;
    member(alloc, "missing", missing)
}

/// A reference as the member `reference` of an object: its text, lower case with hyphens (RFC 9562, section 4).
pub fn reference_member(alloc: Global, reference: Reference) -> Result<Member, NoMemory>
    ensures { IfOk result (λ m. member_view m ≡ (codes "reference", text (reference_text reference))) }
{
    let mut buffer = Uuid::encode_buffer();
    let chars = Uuid::from_bytes(reference.0)
        .hyphenated()
        .encode_lower(&mut buffer);
    text_member(alloc, "reference", chars)
}
