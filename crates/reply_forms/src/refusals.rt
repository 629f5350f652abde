//! Refusals as JSON, without the number of an event and the messages sent.
ghost use Rattle.std.specs.Prelude.{◌≡◌, [], IfOk, OnOk, option_map};
ghost use Rattle.canonical_json.specs.Value.{text, object, member as member_of, no_members};
ghost use Rattle.canonical_json.specs.View.{members_view, view};
ghost use Rattle.reply_forms.specs.Body.{document_value, fault_value, form_value, ignored_value, limit_value, no_party_value, not_allowed_value, place_value, word_value};

use crate::words::{field_name, limit_text, place_text};
use canonical_json::{Json, Member};
use ebl_base::{LimitKind, NoMemory, Party, PlaceTag};
use json_forms::{object_json, party_member, text_member};
use platform_requests::IgnoreReason;
use std::alloc::Global;
use title_fold::FoldRefusal;
use transport_document::{DocumentFault, DocumentField};

/// A refusal that says its word alone.
pub(crate) fn word_json(alloc: Global, word: &str) -> Result<Json, NoMemory>
    ensures { IfOk result (λ json. view json ≡ word_value word.now) }
{
    let members = vec![in alloc; text_member(alloc, "reply", word)?]?;
    Ok(object_json(members))
}

// Two texts under their names.
fn two_texts(
    alloc: Global,
    first: &str,
    one: &str,
    second: &str,
    other: &str,
) -> Result<Json, NoMemory>
    ensures { IfOk result (λ json. view json
        ≡ object (member_of first.now (text one.now) (member_of second.now (text other.now) no_members))) }
{
    let members = vec![in alloc;
        text_member(alloc, first, one)?,
        text_member(alloc, second, other)?,
    ]?;
    Ok(object_json(members))
}

/// A refusal by the place of a bill.
pub(crate) fn place_json(alloc: Global, word: &str, place: PlaceTag) -> Result<Json, NoMemory>
    ensures { IfOk result (λ json. view json ≡ place_value word.now place) }
{
    two_texts(alloc, "place", place_text(place), "reply", word)
}

pub(crate) fn no_party_json(alloc: Global, party: Party) -> Result<Json, NoMemory>
    ensures { IfOk result (λ json. view json ≡ no_party_value party) }
{
    let members = vec![in alloc;
        party_member(alloc, "party", party)?,
        text_member(alloc, "reply", "NO_PARTY")?,
    ]?;
    Ok(object_json(members))
}

pub(crate) fn not_allowed_json(alloc: Global, rule: FoldRefusal) -> Result<Json, NoMemory>
    ensures { IfOk result (λ json. view json ≡ not_allowed_value rule) }
{
    two_texts(alloc, "reply", "NOT_ALLOWED", "rule", rule.as_str())
}

pub(crate) fn limit_json(alloc: Global, which: LimitKind) -> Result<Json, NoMemory>
    ensures { IfOk result (λ json. view json ≡ limit_value which) }
{
    two_texts(alloc, "reply", "LIMIT", "which", limit_text(which))
}

pub(crate) fn ignored_json(alloc: Global, reason: IgnoreReason) -> Result<Json, NoMemory>
    ensures { IfOk result (λ json. view json ≡ ignored_value reason) }
{
    two_texts(alloc, "reason", reason.as_str(), "reply", "IGNORED")
}

/// Why a document gives no bill; nothing if memory ran out.
pub(crate) fn document_json(alloc: Global, fault: DocumentFault) -> Result<Option<Json>, NoMemory>
    ensures { IfOk result (λ json. option_map view json ≡ document_value fault) }
{
    match fault {
        DocumentFault::DocumentForm(field) => Ok(Some(form_json(alloc, field)?)),
        DocumentFault::NotTitle => Ok(Some(fault_json(alloc, "NOT_TITLE")?)),
        DocumentFault::TooLarge => Ok(Some(fault_json(alloc, "TOO_LARGE")?)),
        DocumentFault::NoMemory => Ok(None),
    }
}

fn fault_json(alloc: Global, fault: &str) -> Result<Json, NoMemory>
    ensures { IfOk result (λ json. view json ≡ fault_value fault.now) }
{
    two_texts(alloc, "fault", fault, "reply", "DOCUMENT")
}

fn form_json(alloc: Global, field: DocumentField) -> Result<Json, NoMemory>
    ensures { IfOk result (λ json. view json ≡ form_value field) }
{
    let mut members = Vec::with_capacity(alloc, 3)?;
    put_form(alloc, &mut members, field)?;
    Ok(object_json(members))
}

fn put_form(alloc: Global, members: &mut Vec<Member>, field: DocumentField) -> Result<(), NoMemory>
    requires empty { members.old.items ≡ [] }
    ensures { OnOk result (object (members_view members.new.items) ≡ form_value field) }
{
    members.push(text_member(alloc, "fault", "FORM")?)?;
    members.push(text_member(alloc, "field", field_name(field))?)?;
    members.push(text_member(alloc, "reply", "DOCUMENT")?)?;
    Ok(())
}
