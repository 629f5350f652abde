//! The body of a reply.
ghost use Rattle.std.specs.Prelude.{◌≡◌, IfOk, MatchResult};
ghost use Rattle.canonical_json.specs.Canon.{canon};
ghost use Rattle.canonical_json.specs.View.{view};
ghost use Rattle.reply_forms.specs.Body.{body_of};

use crate::refusals::{
    document_json, ignored_json, limit_json, no_party_json, not_allowed_json, place_json, word_json,
};
use crate::views::view_json;
use canonical_json::{Json, write};
use ebl_base::{ByteList, ChecksumList, NoMemory, Reference, SignedText};
use platform_requests::Reply;
use std::alloc::Global;
use transport_document::DocumentFault;
use upload_state::{Started, started_write};

/// What a reply says beside its status.
#[derive(Debug, Drop)]
pub enum ReplyBody {
    /// Nothing.
    Nothing,
    /// A canonical text of JSON (RFC 8785).
    Json(ByteList),
    /// A signed text (RFC 7515).
    Signed(SignedText),
}

/// The body of a reply: of a bill shown its view, of a started transfer its reference and what is missing, of a signed
/// answer its text, of a refusal the members that it has in an answer line except `event` and `sent`. It is nothing for
/// a document that is stored, for an unknown reference, and where a disk, a ring, room or memory failed.
///
/// A signed text is handed on as it is, without a copy.
pub fn reply_body(alloc: Global, reply: Reply) -> Result<ReplyBody, NoMemory>
    ensures { IfOk result (λ body. body ≡ body_of reply) }
{
    match reply {
        Reply::Done(v) => json_body(alloc, view_json(alloc, v)),
        Reply::Started { reference, missing } => started_body(alloc, reference, missing),
        Reply::Answer { text, .. } => Ok(ReplyBody::Signed(text)),
        Reply::NotOurs => json_body(alloc, word_json(alloc, "NOT_OURS")),
        Reply::Document(fault) => document_body(alloc, fault),
        Reply::NotCarrier => json_body(alloc, word_json(alloc, "NOT_CARRIER")),
        Reply::KnownBill => json_body(alloc, word_json(alloc, "KNOWN_BILL")),
        Reply::NotHere(place) => json_body(alloc, place_json(alloc, "NOT_HERE", place)),
        Reply::NoParty(party) => json_body(alloc, no_party_json(alloc, party)),
        Reply::NotAllowed(rule) => json_body(alloc, not_allowed_json(alloc, rule)),
        Reply::Limit(which) => json_body(alloc, limit_json(alloc, which)),
        Reply::Ignored(reason) => json_body(alloc, ignored_json(alloc, reason)),
        Reply::NotParting(place) => json_body(alloc, place_json(alloc, "NOT_PARTING", place)),
        Reply::Stored
        | Reply::UnknownReference
        | Reply::Sign
        | Reply::Full
        | Reply::Disk
        | Reply::Damaged(_)
        | Reply::NoMemory => Ok(ReplyBody::Nothing),
    }
}

// The text of a value, where it could be made.
fn json_body(alloc: Global, made: Result<Json, NoMemory>) -> Result<ReplyBody, NoMemory>
    ensures { IfOk result (λ body. MatchResult made
        (λ json. body ≡ ReplyBody.Json (canon (view json))) (λ refused. ⊥)) }
{
    let json = made?;
    Ok(ReplyBody::Json(write(alloc, &json)?))
}

fn started_body(
    alloc: Global,
    reference: Reference,
    missing: ChecksumList,
) -> Result<ReplyBody, NoMemory>
    ensures { IfOk result (λ body. body ≡ body_of (Reply.Started reference missing)) }
{
    let started = Started { reference, missing };
    Ok(ReplyBody::Json(started_write(alloc, &started)?))
}

fn document_body(alloc: Global, fault: DocumentFault) -> Result<ReplyBody, NoMemory>
    ensures { IfOk result (λ body. body ≡ body_of (Reply.Document fault)) }
{
    match document_json(alloc, fault)? {
        Some(json) => json_body(alloc, Ok(json)),
        None => Ok(ReplyBody::Nothing),
    }
}
