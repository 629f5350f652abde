//! What an event sends: a platform's messages, and its reply.
ghost use Rattle.std.specs.Prelude.{◌≡◌, IfOk, map};
ghost use Rattle.std.specs.Option.{option_or};
ghost use Rattle.canonical_json.specs.Canon.{canon};
ghost use Rattle.upload_state.specs.Started.{started_value};
ghost use Rattle.transport_document.specs.Reading.{document_of};
ghost use Rattle.canonical_json.specs.View.{view};
ghost use Rattle.envelope_manifest.specs.Body.{body_in};
ghost use Rattle.platform_requests.specs.Request.{request_view};
ghost use Rattle.world_events.specs.Happening.{asking_view};
ghost use Rattle.world_events.specs.Parcels.{IsPathOf, sends, body_bill, document_bill, kind_of, message_parcel, reply_bill, reply_content, reply_parcel, request_bill};

use crate::happening::{Asking, Sender};
use answer_lines::{Content, Parcel};
use canonical_json::Json;
use ebl_base::{ByteList, Checksum, ChecksumList, Copied, NoMemory, PlatformCode, Reference};
use envelope_manifest::{Body, BodyFault};
use platform_requests::{Message, MessageList, Reply, Request};
use std::alloc::Global;
use transport_document::{Document, DocumentFault};
use upload_state::{Started, started_write};

/// Which reply to a request is sent.
#[derive(Clone, Copy, Debug, PartialEq, Eq)]
pub enum ReplyKind {
    /// That to a start: a Started, or a signed answer.
    Start,
    /// That to a document or to the end of an upload: a signed answer.
    Finish,
    /// None.
    Unsent,
}

/// The way of the reply to a request, once the request itself is given away.
#[derive(Clone, Copy)]
pub struct ReplyPath {
    /// The platform that is asked.
    pub from: PlatformCode,
    /// The sender of the request, who gets the reply.
    pub sender: Option<Sender>,
    /// Which reply is sent.
    pub kind: ReplyKind,
    /// The bill that the request brings, where it has no sender.
    pub brought: Option<Checksum>,
}

impl ReplyPath {
    /// The way of the reply to a request. Of bytes from outside that start a transfer it reads the body, for its bill.
    pub fn of(alloc: Global, asking: &Asking) -> Result<ReplyPath, NoMemory>
        ensures { IfOk result (IsPathOf (asking_view asking.entry.now)) }
    {
        let brought = match asking.sender {
            Some(_) => None,
            None => request_bill(alloc, &asking.request)?,
        };
        Ok(ReplyPath {
            from: asking.at,
            sender: asking.sender,
            kind: kind_of(&asking.request),
            brought,
        })
    }
}

/// What a platform sends because of a request: its messages in their order, then its reply, if that is sent. Messages
/// are moved, the text of a reply is copied.
pub fn parcels_of(
    alloc: Global,
    path: ReplyPath,
    reply: &Reply,
    own: MessageList,
) -> Result<Vec<Parcel>, NoMemory>
    ensures { IfOk result (λ parcels. parcels.items
        ≡ sends path.from path.sender path.kind path.brought reply.now own) }
{
    let mut parcels = message_parcels(alloc, path.from, own)?;
    if let Some(content) = reply_content(alloc, path.kind, reply)? {
        let bill = bill_of_exchange(path.brought, reply);
        parcels.push(reply_parcel(path.from, path.sender, bill, content))?;
    }
    Ok(parcels)
}

/// Which reply to a request is sent.
fn kind_of(request: &Request) -> ReplyKind
    ensures { result ≡ kind_of (request_view request.now) }
{
    match request {
        Request::Start { .. } => ReplyKind::Start,
        Request::Put { .. } | Request::Finish { .. } => ReplyKind::Finish,
        Request::Command { .. }
        | Request::StartReply { .. }
        | Request::FinishReply { .. }
        | Request::Resend { .. }
        | Request::Ask { .. } => ReplyKind::Unsent,
    }
}

// ---- the bill of an exchange

/// The bill of the document that a start brings. It reads the body, and hashes the document.
fn request_bill(alloc: Global, request: &Request) -> Result<Option<Checksum>, NoMemory>
    ensures { IfOk result (λ bill. bill ≡ request_bill (request_view request.now)) }
{
    match request {
        Request::Start { body } => body_bill(alloc, body.as_slice()),
        _ => Ok(None),
    }
}

fn body_bill(alloc: Global, body: &[u8]) -> Result<Option<Checksum>, NoMemory>
    ensures { IfOk result (λ bill. bill ≡ body_bill (body_in body.now)) }
{
    match Body::read(alloc, body) {
        Ok(body) => document_bill(alloc, &body.document),
        Err(BodyFault::BodyForm(_)) => Ok(None),
        Err(BodyFault::NoMemory) => Err(NoMemory),
    }
}

fn document_bill(alloc: Global, document: &Json) -> Result<Option<Checksum>, NoMemory>
    ensures { IfOk result (λ bill. bill ≡ document_bill (document_of (view document.now))) }
{
    match Document::of_json(alloc, document) {
        Ok(document) => Ok(Some(document.bill())),
        Err(DocumentFault::NoMemory) => Err(NoMemory),
        Err(_) => Ok(None),
    }
}

// The bill that bytes from outside brought, or else the one that the reply names.
fn bill_of_exchange(brought: Option<Checksum>, reply: &Reply) -> Option<Checksum>
    ensures { result ≡ option_or brought (reply_bill reply.now) }
{
    match brought {
        Some(bill) => Some(bill),
        None => reply_bill(reply),
    }
}

fn reply_bill(reply: &Reply) -> Option<Checksum>
    ensures { result ≡ reply_bill reply.now }
{
    match reply {
        Reply::Answer { response, .. } => response.bill,
        _ => None,
    }
}

// ---- parcels

/// The messages of a platform's own, in their order. They are moved.
fn message_parcels(
    alloc: Global,
    from: PlatformCode,
    messages: MessageList,
) -> Result<Vec<Parcel>, NoMemory>
    ensures { IfOk result (λ parcels. parcels.items ≡ map (message_parcel from) messages) }
{
    let mut parcels = Vec::with_capacity(alloc, messages.len())?;
    for message in messages.into_vec() {
        parcels.push(message_parcel(from, message))?;
    }
    Ok(parcels)
}

fn message_parcel(from: PlatformCode, message: Message) -> Parcel
    ensures { result ≡ message_parcel from message }
{
    match message {
        Message::Start { to, bill, body } => Parcel {
            from,
            to: Some(to),
            bill,
            content: Content::Start { body },
        },
        Message::Put {
            to,
            bill,
            reference,
            checksum,
            bytes,
        } => Parcel {
            from,
            to: Some(to),
            bill,
            content: Content::Put {
                reference,
                checksum,
                bytes,
            },
        },
        Message::Finish {
            to,
            bill,
            reference,
        } => Parcel {
            from,
            to: Some(to),
            bill,
            content: Content::Finish { reference },
        },
    }
}

/// What is sent as the reply, if one is: a copy of its text.
fn reply_content(alloc: Global, kind: ReplyKind, reply: &Reply) -> Result<Option<Content>, NoMemory>
    ensures { IfOk result (λ content. content ≡ reply_content kind reply.now) }
{
    match (kind, reply) {
        (ReplyKind::Start, Reply::Started { reference, missing }) => {
            let bytes = started_text(alloc, *reference, missing)?;
            Ok(Some(Content::StartReply { bytes }))
        }
        (ReplyKind::Start, Reply::Answer { text, .. }) => Ok(Some(Content::StartReply {
            bytes: ByteList::from_slice(alloc, text.0.as_slice())?,
        })),
        (ReplyKind::Finish, Reply::Answer { text, .. }) => Ok(Some(Content::FinishReply {
            bytes: ByteList::from_slice(alloc, text.0.as_slice())?,
        })),
        _ => Ok(None),
    }
}

fn started_text(
    alloc: Global,
    reference: Reference,
    missing: &ChecksumList,
) -> Result<ByteList, NoMemory>
    ensures { IfOk result (λ bytes. bytes
        ≡ canon (started_value (record { reference = reference; missing = missing.now }))) }
{
    let started = Started {
        reference,
        missing: missing.copy(alloc)?,
    };
    started_write(alloc, &started)
}

/// A reply's parcel: to the sender, for the bill of what was delivered; of bytes from outside for nobody, for the bill
/// that was read, or 32 zero bytes where none was.
fn reply_parcel(
    from: PlatformCode,
    sender: Option<Sender>,
    bill: Option<Checksum>,
    content: Content,
) -> Parcel
    ensures { result ≡ reply_parcel from sender bill content }
{
    match sender {
        Some(sender) => Parcel {
            from,
            to: Some(sender.platform),
            bill: sender.bill,
            content,
        },
        None => Parcel {
            from,
            to: None,
            bill: bill.unwrap_or(NO_BILL),
            content,
        },
    }
}

const NO_BILL: Checksum = Checksum([0; 32]);
