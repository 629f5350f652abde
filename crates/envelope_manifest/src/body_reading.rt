//! The parts of a body, moved out of the value that was read.
ghost use Rattle.std.specs.Prelude.{◌≡◌, Ok, option_map, option_and_then, IfOk, IfErr};
ghost use Rattle.canonical_json.specs.Field.{under};
ghost use Rattle.canonical_json.specs.Taking.{without};
ghost use Rattle.canonical_json.specs.View.{view, items_view, members_view};
ghost use Rattle.json_forms.specs.Reading.{all_of, signed_in};
ghost use Rattle.envelope_manifest.specs.Body.{IsPartFault, all_signed_in, body_of, body_view, object_in, parts_of};

use crate::body::Body;
use crate::fault::{BodyFault, BodyField};
use canonical_json::{Json, Member, take_member};
use ebl_base::{ByteList, NoMemory, SignedText, TextList};
use std::alloc::Global;

/// The body that a value is.
pub(crate) fn body_of(alloc: Global, json: Json) -> Result<Body, BodyFault>
    ensures ok { IfOk result (λ body. body_of (view json) ≡ Ok (body_view body)) }
    ensures err { IfErr result (IsPartFault (body_of (view json))) }
{
    match json {
        Json::Object(members) => parts_of(alloc, members.into_vec()),
        _ => Err(BodyFault::BodyForm(BodyField::Json)),
    }
}

fn parts_of(alloc: Global, mut members: Vec<Member>) -> Result<Body, BodyFault>
    ensures ok { IfOk result (λ body. parts_of (members_view members.items) ≡ Ok (body_view body)) }
    ensures err { IfErr result (IsPartFault (parts_of (members_view members.items))) }
{
    let Some(document) = take_object(&mut members, "document") else {
        return Err(BodyFault::BodyForm(BodyField::Document));
    };
    let Some(manifest) = take_text(alloc, &mut members, "manifest")? else {
        return Err(BodyFault::BodyForm(BodyField::Manifest));
    };
    let Some(chain) = take_texts(alloc, &mut members, "chain")? else {
        return Err(BodyFault::BodyForm(BodyField::Chain));
    };
    Ok(Body {
        document,
        manifest,
        chain,
    })
}

fn take_object(members: &mut Vec<Member>, name: &str) -> Option<Json>
    ensures value { option_map view result
        ≡ option_and_then object_in (under name.now (members_view members.old.items)) }
    ensures rest { members_view members.new.items ≡ without name.now (members_view members.old.items) }
{
    match take_member(members, name) {
        Some(Json::Object(object)) => Some(Json::Object(object)),
        _ => None,
    }
}

fn take_text(
    alloc: Global,
    members: &mut Vec<Member>,
    name: &str,
) -> Result<Option<SignedText>, NoMemory>
    ensures value { IfOk result (λ found. found
        ≡ option_and_then signed_in (under name.now (members_view members.old.items))) }
    ensures rest { members_view members.new.items ≡ without name.now (members_view members.old.items) }
{
    match take_member(members, name) {
        Some(json) => signed_in(alloc, json),
        None => Ok(None),
    }
}

fn take_texts(
    alloc: Global,
    members: &mut Vec<Member>,
    name: &str,
) -> Result<Option<TextList>, NoMemory>
    ensures { IfOk result (λ found. found
        ≡ option_and_then all_signed_in (under name.now (members_view members.old.items))) }
{
    match take_member(members, name) {
        Some(Json::List(list)) => all_signed_in(alloc, list.into_vec()),
        _ => Ok(None),
    }
}

fn all_signed_in(alloc: Global, items: Vec<Json>) -> Result<Option<TextList>, NoMemory>
    ensures { IfOk result (λ found. found ≡ all_of signed_in (items_view items.items)) }
{
    let mut texts = Vec::with_capacity(alloc, items.len())?;
    for item in items {
        let Some(text) = signed_in(alloc, item)? else {
            return Ok(None);
        };
        texts.push(text)?;
    }
    Ok(Some(TextList::from_vec(texts)))
}

fn signed_in(alloc: Global, json: Json) -> Result<Option<SignedText>, NoMemory>
    ensures { IfOk result (λ found. found ≡ signed_in (view json)) }
{
    match json {
        Json::Text(text) => {
            let bytes = ByteList::from_vec(text.into_string().into_bytes());
            Ok(Some(SignedText::from_bytes(alloc, bytes)?))
        }
        _ => Ok(None),
    }
}
