//! The shard of a request.
ghost use Rattle.std.specs.Prelude.{◌≡◌, ◌<◌, IfOk};
ghost use Rattle.canonical_json.specs.View.{view};
ghost use Rattle.holder_commands.specs.Command.{command_view};
ghost use Rattle.envelope_manifest.specs.Body.{body_in};
ghost use Rattle.transport_document.specs.Reading.{document_of};
ghost use Rattle.platform_requests.specs.Request.{request_view};
ghost use Rattle.platform_requests.specs.Shard.{shard_of, shard_of_bill, shard_of_body, shard_of_command, shard_of_document, shard_of_reference};

use crate::request::Request;
use canonical_json::Json;
use ebl_base::{Checksum, NoMemory, Reference};
use envelope_manifest::{Body, BodyFault};
use holder_commands::Command;
use std::alloc::Global;
use transport_document::{Document, DocumentFault};

/// How many shards a platform has.
pub const SHARDS: u32 = 16;

/// The shard of a request, 0 to 15: byte 0 of its bill's name, or of its reference, modulo 16. A Sign goes by the
/// bill of its document, a Start by that of its body's document; if that can't be read, to shard 0.
///
/// A Sign costs the canonical text and one checksum of the document, a Start one reading of the body besides; every
/// other request allocates nothing.
pub fn shard_of(alloc: Global, request: &Request) -> Result<u32, NoMemory>
    ensures shard { IfOk result (λ shard. shard ≡ shard_of (request_view request.now)) }
    ensures range { IfOk result (λ shard. shard < 16) }
{
    match request {
        Request::Command { command, .. } => shard_of_command(alloc, command),
        Request::Start { body } => shard_of_body(alloc, body.as_slice()),
        Request::Put { reference, .. } | Request::Finish { reference } => Ok(shard_of_reference(
            *reference,
        )),
        Request::StartReply { bill, .. }
        | Request::FinishReply { bill, .. }
        | Request::Resend { bill }
        | Request::Ask { bill } => Ok(shard_of_bill(*bill)),
    }
}

fn shard_of_command(alloc: Global, command: &Command) -> Result<u32, NoMemory>
    ensures shard { IfOk result (λ shard. shard ≡ shard_of_command (command_view command.now)) }
    ensures range { IfOk result (λ shard. shard < 16) }
{
    match command {
        Command::Sign { document } => shard_of_document(alloc, document),
        Command::Act { bill, .. } | Command::Attach { bill, .. } => Ok(shard_of_bill(*bill)),
    }
}

fn shard_of_body(alloc: Global, body: &[u8]) -> Result<u32, NoMemory>
    ensures shard { IfOk result (λ shard. shard ≡ shard_of_body (body_in body.now)) }
    ensures range { IfOk result (λ shard. shard < 16) }
{
    match Body::read(alloc, body) {
        Ok(body) => shard_of_document(alloc, &body.document),
        Err(BodyFault::BodyForm(_)) => Ok(0),
        Err(BodyFault::NoMemory) => Err(NoMemory),
    }
}

fn shard_of_document(alloc: Global, document: &Json) -> Result<u32, NoMemory>
    ensures shard { IfOk result (λ shard. shard ≡ shard_of_document (document_of (view document.now))) }
    ensures range { IfOk result (λ shard. shard < 16) }
{
    match Document::of_json(alloc, document) {
        Ok(document) => Ok(shard_of_bill(document.bill())),
        Err(DocumentFault::NoMemory) => Err(NoMemory),
        Err(_) => Ok(0),
    }
}

/// The shard of a bill, 0 to 15: byte 0 of its name, modulo 16.
pub fn shard_of_bill(bill: Checksum) -> u32
    ensures shard { result ≡ shard_of_bill bill }
    ensures range { result < 16 }
{
    u32::from(bill.0[0]) % SHARDS
}

fn shard_of_reference(reference: Reference) -> u32
    ensures shard { result ≡ shard_of_reference reference }
    ensures range { result < 16 }
{
    u32::from(reference.0[0]) % SHARDS
}
