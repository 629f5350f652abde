//! The bytes of one reply, and its writing.
ghost use Rattle.std.specs.Prelude.{◌≡◌, ◌≤◌, ◌<◌, ◌++◌, List, ℕ, [], true, false, IfOk, OnOk, IfErr, IsErrOf, codes, decimal, None, Some};
ghost use Rattle.std.specs.Io.KnownBytes.{Appends};
ghost use Rattle.ebl_base.specs.Faults.{Rose};
ghost use Rattle.reply_forms.specs.declared.body.ReplyBody.TheVariants as bodies;
ghost use Rattle.http_heads.specs.Status.{status_number, phrase_of};
ghost use Rattle.pint_http.specs.Reply.{answer_status, bytes_of, closing_line, document_status, length_line, line, reply_text, stated_length, status_line, status_of, type_line};
ghost use Rattle.pint_http.specs.Session.{Wrote};
ghost use Rattle.pint_http.specs.Answered.{IsReplyEnd, IsReplyFault};

use ebl_base::{Code, NoMemory};
use ebl_edge::Link;
use http_heads::Status;
use http_requests::LinkEnd;
use platform_requests::Reply;
use reply_forms::ReplyBody;
use std::alloc::Global;
use transport_document::DocumentFault;

fn answer_status(code: Code) -> Status
    ensures { result ≡ answer_status code }
{
    match code {
        Code::Received | Code::Duplicate => Status::Ok,
        Code::BadSignature | Code::BadEnvelope => Status::UnprocessableEntity,
        Code::InconsistentDocument | Code::MissingDocuments | Code::DisputedEnvelope =>
            Status::Conflict,
    }
}

fn document_status(fault: DocumentFault) -> Status
    ensures { result ≡ document_status fault }
{
    match fault {
        DocumentFault::NoMemory => Status::InternalServerError,
        _ => Status::Conflict,
    }
}

/// The status of a reply of the desk.
pub(crate) fn status_of(reply: &Reply) -> Status
    ensures { result ≡ status_of reply.now }
{
    match reply {
        Reply::Done(_) => Status::Ok,
        Reply::Started { .. } => Status::Created,
        Reply::Stored => Status::NoContent,
        Reply::Answer { response, .. } => answer_status(response.code),
        Reply::UnknownReference => Status::NotFound,
        Reply::Document(fault) => document_status(*fault),
        Reply::NotOurs
        | Reply::NotCarrier
        | Reply::KnownBill
        | Reply::NotHere(_)
        | Reply::NoParty(_)
        | Reply::NotAllowed(_)
        | Reply::Limit(_)
        | Reply::Ignored(_)
        | Reply::NotParting(_) => Status::Conflict,
        Reply::Sign => Status::BadGateway,
        Reply::Full => Status::InsufficientStorage,
        Reply::Disk | Reply::Damaged(_) => Status::ServiceUnavailable,
        Reply::NoMemory => Status::InternalServerError,
    }
}

// ---- the bytes

fn bytes_of(body: &ReplyBody) -> &[u8]
    ensures { result.now ≡ bytes_of body.now }
{
    match body {
        ReplyBody::Nothing => &[],
        ReplyBody::Json(text) => text.as_slice(),
        ReplyBody::Signed(text) => text.0.as_slice(),
    }
}

fn put(text: &mut Vec<u8>, piece: &[u8]) -> Result<(), NoMemory>
    ensures { OnOk result (text.new.items ≡ text.old.items ++ piece.now) }
{
    text.extend_from_slice(piece)?;
    Ok(())
}

fn put_line(text: &mut Vec<u8>, piece: &[u8]) -> Result<(), NoMemory>
    ensures { OnOk result (text.new.items ≡ text.old.items ++ line piece.now) }
{
    put(text, piece)?;
    put(text, b"\r\n")
}

// A number behind a text, in decimal digits.
fn numbered(alloc: Global, name: &[u8], number: usize) -> Result<Vec<u8>, NoMemory>
    ensures { IfOk result (λ text. text.items ≡ name.now ++ decimal number) }
{
    let mut text = Vec::from_slice(alloc, name)?;
    put(&mut text, format!(in alloc; "{number}")?.as_bytes())?;
    Ok(text)
}

fn status_line(alloc: Global, status: Status) -> Result<Vec<u8>, NoMemory>
    ensures { IfOk result (λ text. text.items ≡ status_line status) }
{
    let mut text = numbered(alloc, b"HTTP/1.1 ", usize::from(status.number()))?;
    put(&mut text, b" ")?;
    put(&mut text, status.phrase().as_bytes())?;
    put(&mut text, b"\r\n")?;
    Ok(text)
}

fn put_type(text: &mut Vec<u8>, body: &ReplyBody) -> Result<(), NoMemory>
    ensures { OnOk result (text.new.items ≡ text.old.items ++ type_line body.now) }
{
    match body {
        ReplyBody::Nothing => Ok(()),
        ReplyBody::Json(_) => put_line(text, b"content-type: application/json"),
        ReplyBody::Signed(_) => put_line(text, b"content-type: application/jose"),
    }
}

fn put_length(
    alloc: Global,
    text: &mut Vec<u8>,
    status: Status,
    body: &ReplyBody,
) -> Result<(), NoMemory>
    ensures { OnOk result (text.new.items ≡ text.old.items ++ length_line status body.now) }
{
    match status {
        Status::NoContent => Ok(()),
        _ => put_stated_length(alloc, text, body),
    }
}

fn put_stated_length(alloc: Global, text: &mut Vec<u8>, body: &ReplyBody) -> Result<(), NoMemory>
    ensures { OnOk result (text.new.items ≡ text.old.items ++ stated_length body.now) }
{
    let length = numbered(alloc, b"content-length: ", bytes_of(body).len())?;
    put_line(text, length.as_slice())
}

fn put_closing(text: &mut Vec<u8>, keeps: bool) -> Result<(), NoMemory>
    ensures { OnOk result (text.new.items ≡ text.old.items ++ closing_line keeps) }
{
    if keeps {
        return Ok(());
    }
    put_line(text, b"connection: close")
}

/// The bytes of one reply.
fn reply_text(
    alloc: Global,
    status: Status,
    body: &ReplyBody,
    keeps: bool,
) -> Result<Vec<u8>, NoMemory>
    ensures { IfOk result (λ text. text.items ≡ reply_text status body.now keeps) }
{
    let mut text = status_line(alloc, status)?;
    put_type(&mut text, body)?;
    put_length(alloc, &mut text, status, body)?;
    put_closing(&mut text, keeps)?;
    put_line(&mut text, b"")?;
    put(&mut text, bytes_of(body))?;
    Ok(text)
}

/// Writes one reply, in one piece.
pub(crate) fn put_reply<L: Link>(
    alloc: Global,
    link: &mut L,
    status: Status,
    body: &ReplyBody,
    keeps: bool,
) -> Result<(), LinkEnd>
    ensures ok { OnOk result (Appends (L.written link.old) (L.written link.new) (reply_text status body.now keeps)) }
    ensures err { IfErr result (λ e. Wrote e (L.written link.old) (L.written link.new)
        (reply_text status body.now keeps)) }
    ensures fails { IfErr result (λ e. IsReplyFault e) }
    ensures fault { IsErrOf result LinkEnd.WriteFault → Rose (L.faults link.old) (L.faults link.new) }
    ensures left { L.left link.new ≡ L.left link.old }
    ensures later { L.faults link.old ≤ L.faults link.new }
{
    let text = match reply_text(alloc, status, body, keeps) {
        Ok(text) => text,
        Err(_) => return Err(LinkEnd::NoMemory),
    };
    match link.put(text.as_slice()) {
        Ok(()) => Ok(()),
        Err(_) => Err(LinkEnd::WriteFault),
    }
}

/// Answers a status without a body and closes the link.
pub(crate) fn refuse<L: Link>(alloc: Global, link: &mut L, status: Status) -> LinkEnd
    ensures wrote { Wrote result (L.written link.old) (L.written link.new) (reply_text status bodies.Nothing false) }
    ensures ends { IsReplyEnd result }
    ensures fault { result ≡ LinkEnd.WriteFault → Rose (L.faults link.old) (L.faults link.new) }
    ensures left { L.left link.new ≡ L.left link.old }
    ensures later { L.faults link.old ≤ L.faults link.new }
{
    match put_reply(alloc, link, status, &ReplyBody::Nothing, false) {
        Ok(()) => LinkEnd::Closed,
        Err(e) => e,
    }
}
