//! The line that answers an event.
ghost use Rattle.std.specs.Prelude.{◌≡◌, ◌∷◌, ◌++◌, [], Some, codes, map, option_and_then, IfOk, OnOk};
ghost use Rattle.canonical_json.specs.Value.{list};
ghost use Rattle.canonical_json.specs.View.{view};
ghost use Rattle.json_forms.specs.Writing.{capped_value, each_written, platform_value, signed_value};
ghost use Rattle.ebl_base.specs.Reason.{reason_index};
ghost use Rattle.pint_responses.specs.Response.{IsEvidence, IsOptionalEvidence};
ghost use Rattle.pint_responses.specs.Writing.{reason_value};
ghost use Rattle.platform_requests.specs.declared.reply.Reply.TheVariants as replies;
ghost use Rattle.answer_lines.specs.Lines.{IsWritable, answer_line, answer_members, back_of, fault_members, front_of, middle_of, missing_by, optional, reply_back, reply_front, reply_middle};
ghost use Rattle.answer_lines.specs.Row.{row_entries};
ghost use Rattle.answer_lines.specs.declared.answer.Answer.TheVariants.{Replied, Shown};

use crate::answer::Answer;
use crate::parcel::Parcel;
use crate::row::Row;
use crate::views::view_json;
use canonical_json::Json;
use ebl_base::{ByteList, Checksum, Code, NoMemory, Reason, Reference, SignedText};
use json_forms::{list_json, number_json};
use pint_responses::Response;
use platform_requests::Reply;
use reply_forms::{field_name, limit_text, place_text};
use std::alloc::Global;
use transport_document::DocumentFault;
use upload_state::reference_member;

/// The line that answers the event of this number, when the messages of these numbers were sent. `number` is that of
/// the bill that the answer shows, if the script signed it.
///
/// It costs time and memory linear in the answer.
pub fn answer_line(
    alloc: Global,
    n: u64,
    sent: &[u64],
    number: Option<u64>,
    answer: &Answer,
) -> Result<ByteList, NoMemory>
    requires { IsWritable answer.now }
    ensures { IfOk result (λ line. line ≡ answer_line n sent.now number answer.now) }
{
    let mut row = Row::new(alloc);
    put_front(alloc, &mut row, n, answer)?;
    row.put_text(alloc, "reply", answer.as_str())?;
    put_middle(alloc, &mut row, answer)?;
    row.put(alloc, "sent", numbers_json(alloc, sent)?)?;
    put_back(alloc, &mut row, number, answer)?;
    row.into_line(alloc)
}

fn numbers_json(alloc: Global, numbers: &[u64]) -> Result<Json, NoMemory>
    ensures { IfOk result (λ json. view json ≡ list (each_written capped_value numbers.now)) }
{
    let mut items = Vec::with_capacity(alloc, numbers.len())?;
    for number in numbers {
        items.push(number_json(*number))?;
    }
    Ok(list_json(items))
}

// ---- in front of `reply`

fn put_front(alloc: Global, row: &mut Row, n: u64, answer: &Answer) -> Result<(), NoMemory>
    requires { IsWritable answer.now }
    ensures { OnOk result (row_entries row.new ≡ row_entries row.old ++ front_of n answer.now) }
{
    match answer {
        Answer::Replied(reply) => put_event(alloc, row, n, reply),
        Answer::Shown(parcel) => put_parcel(alloc, row, n, parcel),
        Answer::Opened | Answer::NoBill | Answer::NoMessage => row.put_number(alloc, "event", n),
    }
}

fn put_event(alloc: Global, row: &mut Row, n: u64, reply: &Reply) -> Result<(), NoMemory>
    requires { IsWritable (Replied reply.now) }
    ensures { OnOk result (row_entries row.new ≡ row_entries row.old ++ front_of n (Replied reply.now)) }
{
    row.put_number(alloc, "event", n)?;
    put_reply_front(alloc, row, reply)
}

fn put_parcel(alloc: Global, row: &mut Row, n: u64, parcel: &Parcel) -> Result<(), NoMemory>
    ensures { OnOk result (row_entries row.new ≡ row_entries row.old ++ front_of n (Shown parcel.now)) }
{
    row.put_bytes(alloc, "bytes", parcel.content.bytes())?;
    row.put_number(alloc, "event", n)?;
    row.put_platform(alloc, "from", parcel.from)?;
    row.put_text(alloc, "kind", parcel.content.as_str())
}

fn put_reply_front(alloc: Global, row: &mut Row, reply: &Reply) -> Result<(), NoMemory>
    requires { IsWritable (Replied reply.now) }
    ensures { OnOk result (row_entries row.new ≡ row_entries row.old ++ reply_front reply.now) }
{
    match reply {
        Reply::Started { reference, missing } => put_started(
            alloc,
            row,
            *reference,
            missing.as_slice(),
        ),
        Reply::Answer { response, .. } => put_answer(alloc, row, response),
        Reply::Document(fault) => put_fault(alloc, row, *fault),
        Reply::NotHere(place) | Reply::NotParting(place) => row.put_text(
            alloc,
            "place",
            place_text(*place),
        ),
        Reply::NoParty(party) => row.put_party(alloc, "party", *party),
        Reply::Ignored(reason) => row.put_text(alloc, "reason", reason.as_str()),
        _ => Ok(()),
    }
}

fn put_started(
    alloc: Global,
    row: &mut Row,
    reference: Reference,
    missing: &[Checksum],
) -> Result<(), NoMemory>
    ensures { OnOk result (row_entries row.new
        ≡ row_entries row.old ++ reply_front (replies.Started reference missing.now)) }
{
    row.put_checksums(alloc, "missing", missing)?;
    row.put_member(reference_member(alloc, reference)?)
}

fn put_answer(alloc: Global, row: &mut Row, r: &Response) -> Result<(), NoMemory>
    requires { IsOptionalEvidence r.now.evidence.own }
    ensures { OnOk result (row_entries row.new ≡ row_entries row.old
        ++ optional (codes "index") capped_value (option_and_then reason_index r.now.reason)
        ++ missing_by r.now.code r.now.missing
        ++ optional (codes "own") signed_value r.now.evidence.own
        ++ optional (codes "reason") reason_value r.now.reason) }
{
    put_index(alloc, row, r.reason)?;
    put_missing(alloc, row, r.code, r.missing.as_slice())?;
    put_signed(alloc, row, "own", &r.evidence.own)?;
    put_reason(alloc, row, r.reason)
}

fn put_index(alloc: Global, row: &mut Row, reason: Option<Reason>) -> Result<(), NoMemory>
    ensures { OnOk result (row_entries row.new ≡ row_entries row.old
        ++ optional (codes "index") capped_value (option_and_then reason_index reason)) }
{
    match index_of(reason) {
        Some(index) => row.put_number(alloc, "index", index as u64),
        None => Ok(()),
    }
}

fn index_of(reason: Option<Reason>) -> Option<usize>
    ensures { result ≡ option_and_then reason_index reason }
{
    reason?.index()
}

fn put_missing(
    alloc: Global,
    row: &mut Row,
    code: Code,
    missing: &[Checksum],
) -> Result<(), NoMemory>
    ensures { OnOk result (row_entries row.new ≡ row_entries row.old ++ missing_by code missing.now) }
{
    match code {
        Code::MissingDocuments => row.put_checksums(alloc, "missing", missing),
        _ => Ok(()), // no other code names them
    }
}

fn put_reason(alloc: Global, row: &mut Row, reason: Option<Reason>) -> Result<(), NoMemory>
    ensures { OnOk result (row_entries row.new ≡ row_entries row.old ++ optional (codes "reason") reason_value reason) }
{
    match reason {
        Some(reason) => row.put_text(alloc, "reason", reason.as_str()),
        None => Ok(()),
    }
}

fn put_signed(
    alloc: Global,
    row: &mut Row,
    name: &str,
    signed: &Option<SignedText>,
) -> Result<(), NoMemory>
    requires { IsOptionalEvidence signed.now }
    ensures { OnOk result (row_entries row.new ≡ row_entries row.old ++ optional name.now signed_value signed.now) }
{
    match signed {
        Some(signed) => row.put_text(alloc, name, signed_str(signed)),
        None => Ok(()),
    }
}

// A text in the compact layout is ASCII.
fn signed_str(signed: &SignedText) -> &str
    requires { IsEvidence signed.now.0 }
    ensures { result.now ≡ signed.now.0 }
{
    match std::str::from_utf8(signed.0.as_slice()) {
        Ok(text) => text,
        Err(_) => unreachable!(),
    }
}

fn put_fault(alloc: Global, row: &mut Row, fault: DocumentFault) -> Result<(), NoMemory>
    ensures { OnOk result (row_entries row.new ≡ row_entries row.old ++ fault_members fault) }
{
    match fault {
        DocumentFault::DocumentForm(field) => {
            row.put_text(alloc, "fault", "FORM")?;
            row.put_text(alloc, "field", field_name(field))
        }
        DocumentFault::NotTitle => row.put_text(alloc, "fault", "NOT_TITLE"),
        DocumentFault::TooLarge => row.put_text(alloc, "fault", "TOO_LARGE"),
        DocumentFault::NoMemory => Ok(()),
    }
}

// ---- behind it

fn put_middle(alloc: Global, row: &mut Row, answer: &Answer) -> Result<(), NoMemory>
    ensures { OnOk result (row_entries row.new ≡ row_entries row.old ++ middle_of answer.now) }
{
    match answer {
        Answer::Replied(reply) => put_rule(alloc, row, reply),
        Answer::Shown(_) | Answer::Opened | Answer::NoBill | Answer::NoMessage => Ok(()),
    }
}

fn put_rule(alloc: Global, row: &mut Row, reply: &Reply) -> Result<(), NoMemory>
    ensures { OnOk result (row_entries row.new ≡ row_entries row.old ++ reply_middle reply.now) }
{
    match reply {
        Reply::NotAllowed(rule) => row.put_text(alloc, "rule", rule.as_str()),
        _ => Ok(()),
    }
}

fn put_back(
    alloc: Global,
    row: &mut Row,
    number: Option<u64>,
    answer: &Answer,
) -> Result<(), NoMemory>
    requires { IsWritable answer.now }
    ensures { OnOk result (row_entries row.new ≡ row_entries row.old ++ back_of number answer.now) }
{
    match answer {
        Answer::Replied(reply) => put_reply_back(alloc, row, number, reply),
        Answer::Shown(parcel) => row.put_optional_platform(alloc, "to", parcel.to),
        Answer::Opened | Answer::NoBill | Answer::NoMessage => Ok(()),
    }
}

fn put_reply_back(
    alloc: Global,
    row: &mut Row,
    number: Option<u64>,
    reply: &Reply,
) -> Result<(), NoMemory>
    requires { IsWritable (Replied reply.now) }
    ensures { OnOk result (row_entries row.new ≡ row_entries row.old ++ reply_back number reply.now) }
{
    match reply {
        Reply::Done(v) => row.put(alloc, "view", view_json(alloc, number, *v)?),
        Reply::Answer { response, .. } => {
            row.put(alloc, "standing", Json::Flag(response.standing))?;
            put_signed(alloc, row, "theirs", &response.evidence.theirs)
        }
        Reply::Limit(which) => row.put_text(alloc, "which", limit_text(*which)),
        _ => Ok(()),
    }
}
