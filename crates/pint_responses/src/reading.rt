//! The response that a value is, member by member.
ghost use Rattle.std.specs.Prelude.{◌≡◌, IfErr, IfOk};
ghost use Rattle.canonical_json.specs.View.{view};
ghost use Rattle.pint_responses.specs.Reading.{IsFormFault, at_index, evidence_of, indexed, optional_reason, optional_signed, reason_in, reason_under, required_code, required_missing, response_of, with_code, without_index};
ghost use Rattle.pint_responses.specs.Response.{comes_with};

use crate::fault::{ResponseField, UnsealFault};
use crate::response::Response;
use canonical_json::{Json, flag_of, list_of, member_of, text_of};
use ebl_base::{
    ByteList, ChecksumList, Code, Evidence, MAX_CHAIN_ENTRIES, NoMemory, Reason, SignedText,
};
use json_forms::{Malformed, checksums_in, optional_checksum, required_number};
use std::alloc::Global;

/// The greatest place of an entry in a chain.
const LAST_PLACE: u64 = MAX_CHAIN_ENTRIES as u64 - 1;

/// The response that a value is. Else the fault is the first member that is wrong, or memory ran out.
pub(crate) fn response_of(alloc: Global, json: &Json) -> Result<Response, UnsealFault>
    ensures ok { IfOk result (λ r. response_of (view json.now) ≡ Ok r) }
    ensures err { IfErr result (IsFormFault (response_of (view json.now))) }
{
    let Some(code) = required_code(json) else {
        return Err(UnsealFault::Form(ResponseField::ResponseCode));
    };
    let Ok(bill) = optional_checksum(json, "bill") else {
        return Err(UnsealFault::Form(ResponseField::Bill));
    };
    let Ok(last) = optional_checksum(json, "last") else {
        return Err(UnsealFault::Form(ResponseField::Last));
    };
    let Some(standing) = flag_of(json, "standing") else {
        return Err(UnsealFault::Form(ResponseField::Standing));
    };
    let reason = match reason_under(code, json) {
        Ok(reason) => reason,
        Err(field) => return Err(UnsealFault::Form(field)),
    };
    let Some(missing) = required_missing(alloc, json)? else {
        return Err(UnsealFault::Form(ResponseField::Missing));
    };
    let evidence = evidence_of(alloc, json)?;
    Ok(Response {
        code,
        bill,
        last,
        standing,
        reason,
        missing,
        evidence,
    })
}

fn required_code(json: &Json) -> Option<Code>
    ensures { result ≡ required_code (view json.now) }
{
    Code::from_text(text_of(json, "responseCode")?.as_str().as_bytes())
}

// The reason with its index, or which of the two members is wrong.
fn reason_under(code: Code, json: &Json) -> Result<Option<Reason>, ResponseField>
    ensures { result ≡ reason_under code (view json.now) }
{
    let Ok(reason) = optional_reason(code, json) else {
        return Err(ResponseField::Reason);
    };
    match indexed(json, reason) {
        Some(reason) => Ok(reason),
        None => Err(ResponseField::Index),
    }
}

fn optional_reason(code: Code, json: &Json) -> Result<Option<Reason>, Malformed>
    ensures { result ≡ optional_reason code (view json.now) }
{
    let Some(member) = member_of(json, "reason") else {
        return Ok(None);
    };
    match reason_in(code, member) {
        Some(reason) => Ok(Some(reason)),
        None => Err(Malformed),
    }
}

fn reason_in(code: Code, json: &Json) -> Option<Reason>
    ensures { result ≡ reason_in code (view json.now) }
{
    match json {
        Json::Text(text) => with_code(code, Reason::from_text(text.as_str().as_bytes())?),
        _ => None,
    }
}

fn with_code(code: Code, reason: Reason) -> Option<Reason>
    ensures { result ≡ with_code code reason }
{
    if comes_with(code, reason) {
        Some(reason)
    } else {
        None
    }
}

fn comes_with(code: Code, reason: Reason) -> bool
    ensures { result ≡ comes_with code reason }
{
    reason.code() == code
}

fn indexed(json: &Json, reason: Option<Reason>) -> Option<Option<Reason>>
    ensures { result ≡ indexed (view json.now) reason }
{
    match reason {
        Some(reason) => at_index(json, reason, reason.index()),
        None => without_index(json, None),
    }
}

fn at_index(json: &Json, reason: Reason, first: Option<usize>) -> Option<Option<Reason>>
    ensures { result ≡ at_index (view json.now) reason first }
{
    match first {
        Some(_) => {
            let place = required_number(json, "index", 0, LAST_PLACE)?;
            Some(Some(reason.at(place as usize)))
        }
        None => without_index(json, Some(reason)),
    }
}

fn without_index(json: &Json, reason: Option<Reason>) -> Option<Option<Reason>>
    ensures { result ≡ without_index (view json.now) reason }
{
    match member_of(json, "index") {
        Some(_) => None,
        None => Some(reason),
    }
}

// The checksums of `missing`; none exactly when it is no list of them.
fn required_missing(alloc: Global, json: &Json) -> Result<Option<ChecksumList>, NoMemory>
    ensures { IfOk result (λ found. found ≡ required_missing (view json.now)) }
{
    match list_of(json, "missing") {
        Some(list) => checksums_in(alloc, list.as_slice()),
        None => Ok(None),
    }
}

fn evidence_of(alloc: Global, json: &Json) -> Result<Evidence, UnsealFault>
    ensures ok { IfOk result (λ evidence. evidence_of (view json.now) ≡ Ok evidence) }
    ensures err { IfErr result (IsFormFault (evidence_of (view json.now))) }
{
    let Ok(own) = optional_signed(alloc, json, "own")? else {
        return Err(UnsealFault::Form(ResponseField::Own));
    };
    let Ok(theirs) = optional_signed(alloc, json, "theirs")? else {
        return Err(UnsealFault::Form(ResponseField::Theirs));
    };
    Ok(Evidence { own, theirs })
}

// The text of that name, if there is one.
fn optional_signed(
    alloc: Global,
    json: &Json,
    name: &str,
) -> Result<Result<Option<SignedText>, Malformed>, NoMemory>
    ensures { IfOk result (λ found. found ≡ optional_signed name.now (view json.now)) }
{
    match member_of(json, name) {
        Some(Json::Text(text)) => {
            let bytes = ByteList::from_slice(alloc, text.as_str().as_bytes())?;
            Ok(Ok(Some(SignedText::from_bytes(alloc, bytes)?)))
        }
        Some(_) => Ok(Err(Malformed)),
        None => Ok(Ok(None)),
    }
}
