//! The value that a response is written as.
ghost use Rattle.std.specs.Prelude.{◌≡◌, All, IfOk, OnOk, codes, map, option_and_then};
ghost use Rattle.canonical_json.specs.Value.{Members, flag as flag_value, member, text};
ghost use Rattle.canonical_json.specs.View.{member_view, view};
ghost use Rattle.ebl_base.specs.Reason.{reason_index};
ghost use Rattle.json_forms.specs.Writing.{HasDigits, checksum_value, checksums_value, optional_member, signed_value};
ghost use Rattle.pint_responses.specs.Response.{HasOptionalDigits, HaveDigits, IsEvidence, IsOptionalEvidence};
ghost use Rattle.pint_responses.specs.Writing.{code_value, in_front, place_value, reason_value, response_value};

use crate::response::Response;
use canonical_json::{Json, Member};
use ebl_base::{Checksum, NoMemory, Reason, SignedText};
use json_forms::{checksum_json, checksums_json, member, number_json, object_json, text_json};
use std::alloc::Global;

/// The value of a response, with the members that are there in the order of their names.
pub(crate) fn response_json(alloc: Global, r: &Response) -> Result<Json, NoMemory>
    requires own { IsOptionalEvidence r.now.evidence.own }
    requires theirs { IsOptionalEvidence r.now.evidence.theirs }
    ensures value { IfOk result (λ json. view json ≡ response_value r.now) }
    ensures digits { IfOk result (λ json. HaveDigits r.now) }
{
    let mut members = Vec::with_capacity(alloc, 9)?;
    push_subject(alloc, &mut members, r)?;
    push_verdict(alloc, &mut members, r)?;
    Ok(object_json(members))
}

// What the response is about: the bill, the places and the documents that it names.
fn push_subject(alloc: Global, members: &mut Vec<Member>, r: &Response) -> Result<(), NoMemory>
    ensures digits { OnOk result (HaveDigits r.now) }
    ensures members { OnOk result ((rest : Members) → in_front (map member_view members.new.items) rest
        ≡ in_front (map member_view members.old.items)
        (optional_member (codes "bill") checksum_value r.now.bill
        (optional_member (codes "index") place_value (option_and_then reason_index r.now.reason)
        (optional_member (codes "last") checksum_value r.now.last
        (member (codes "missing") (checksums_value r.now.missing) rest))))) }
{
    push_optional_checksum(alloc, members, "bill", r.bill)?;
    push_optional_place(alloc, members, r.reason)?;
    push_optional_checksum(alloc, members, "last", r.last)?;
    push_checksums(alloc, members, "missing", r.missing.as_slice())
}

// What it says: the evidence, the code and why.
fn push_verdict(alloc: Global, members: &mut Vec<Member>, r: &Response) -> Result<(), NoMemory>
    requires own { IsOptionalEvidence r.now.evidence.own }
    requires theirs { IsOptionalEvidence r.now.evidence.theirs }
    ensures { OnOk result ((rest : Members) → in_front (map member_view members.new.items) rest
        ≡ in_front (map member_view members.old.items)
        (optional_member (codes "own") signed_value r.now.evidence.own
        (optional_member (codes "reason") reason_value r.now.reason
        (member (codes "responseCode") (code_value r.now.code)
        (member (codes "standing") (flag_value r.now.standing)
        (optional_member (codes "theirs") signed_value r.now.evidence.theirs rest)))))) }
{
    push_optional_evidence(alloc, members, "own", &r.evidence.own)?;
    push_optional_reason(alloc, members, r.reason)?;
    push_text(alloc, members, "responseCode", r.code.as_str())?;
    push(alloc, members, "standing", flag_json(r.standing))?;
    push_optional_evidence(alloc, members, "theirs", &r.evidence.theirs)
}

fn push(alloc: Global, members: &mut Vec<Member>, name: &str, value: Json) -> Result<(), NoMemory>
    ensures { OnOk result ((rest : Members) → in_front (map member_view members.new.items) rest
        ≡ in_front (map member_view members.old.items) (member name.now (view value) rest)) }
{
    let member = member(alloc, name, value)?;
    members.push(member)?;
    Ok(())
}

fn flag_json(flag: bool) -> Json
    ensures { view result ≡ flag_value flag }
{
    Json::Flag(flag)
}

fn push_text(
    alloc: Global,
    members: &mut Vec<Member>,
    name: &str,
    chars: &str,
) -> Result<(), NoMemory>
    ensures { OnOk result ((rest : Members) → in_front (map member_view members.new.items) rest
        ≡ in_front (map member_view members.old.items) (member name.now (text chars.now) rest)) }
{
    push(alloc, members, name, text_json(alloc, chars)?)
}

fn push_checksums(
    alloc: Global,
    members: &mut Vec<Member>,
    name: &str,
    checksums: &[Checksum],
) -> Result<(), NoMemory>
    ensures digits { OnOk result (All HasDigits checksums.now) }
    ensures members { OnOk result ((rest : Members) → in_front (map member_view members.new.items) rest
        ≡ in_front (map member_view members.old.items) (member name.now (checksums_value checksums.now) rest)) }
{
    push(alloc, members, name, checksums_json(alloc, checksums)?)
}

fn push_optional_checksum(
    alloc: Global,
    members: &mut Vec<Member>,
    name: &str,
    checksum: Option<Checksum>,
) -> Result<(), NoMemory>
    ensures digits { OnOk result (HasOptionalDigits checksum) }
    ensures members { OnOk result ((rest : Members) → in_front (map member_view members.new.items) rest
        ≡ in_front (map member_view members.old.items) (optional_member name.now checksum_value checksum rest)) }
{
    match checksum {
        Some(checksum) => push(alloc, members, name, checksum_json(alloc, checksum)?),
        None => Ok(()),
    }
}

fn push_optional_place(
    alloc: Global,
    members: &mut Vec<Member>,
    reason: Option<Reason>,
) -> Result<(), NoMemory>
    ensures { OnOk result ((rest : Members) → in_front (map member_view members.new.items) rest
        ≡ in_front (map member_view members.old.items)
        (optional_member (codes "index") place_value (option_and_then reason_index reason) rest)) }
{
    match place_of(reason) {
        Some(place) => push(alloc, members, "index", place_json(place)),
        None => Ok(()),
    }
}

fn place_of(reason: Option<Reason>) -> Option<usize>
    ensures { result ≡ option_and_then reason_index reason }
{
    reason?.index()
}

fn place_json(place: usize) -> Json
    ensures { view result ≡ place_value place }
{
    number_json(place as u64)
}

fn push_optional_reason(
    alloc: Global,
    members: &mut Vec<Member>,
    reason: Option<Reason>,
) -> Result<(), NoMemory>
    ensures { OnOk result ((rest : Members) → in_front (map member_view members.new.items) rest
        ≡ in_front (map member_view members.old.items) (optional_member (codes "reason") reason_value reason rest)) }
{
    match reason {
        Some(reason) => push_text(alloc, members, "reason", reason.as_str()),
        None => Ok(()),
    }
}

fn push_optional_evidence(
    alloc: Global,
    members: &mut Vec<Member>,
    name: &str,
    evidence: &Option<SignedText>,
) -> Result<(), NoMemory>
    requires { IsOptionalEvidence evidence.now }
    ensures { OnOk result ((rest : Members) → in_front (map member_view members.new.items) rest
        ≡ in_front (map member_view members.old.items) (optional_member name.now signed_value evidence.now rest)) }
{
    match evidence {
        Some(evidence) => push_text(alloc, members, name, evidence_str(evidence)),
        None => Ok(()),
    }
}

// A text in the compact layout is ASCII.
fn evidence_str(evidence: &SignedText) -> &str
    requires { IsEvidence evidence.now.0 }
    ensures { result.now ≡ evidence.now.0 }
{
    match std::str::from_utf8(evidence.0.as_slice()) {
        Ok(text) => text,
        Err(_) => unreachable!(),
    }
}
