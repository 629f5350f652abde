//! The request that carries a message.
ghost use Rattle.std.specs.Prelude.{◌≡◌, ◌++◌, ◌≤◌, IfOk, OnOk, OnErr, IfErr, IsErrOf, ◌≢◌};
ghost use Rattle.std.specs.Io.KnownBytes.{Appends};
ghost use Rattle.ebl_base.specs.Faults.{Rose};
ghost use Rattle.ebl_edge.specs.Sink.{AppendsFirst};
ghost use Rattle.pint_client.specs.Request.{body_of, envelope_path, head_text, method_of, path_of, request_text};

use crate::client_fault::ClientFault;
use document_checksum::to_text;
use ebl_base::{NoMemory, Reference};
use ebl_edge::Link;
use platform_requests::Message;
use std::alloc::Global;
use upload_state::reference_text;

/// Writes the request that carries a message. A failure has written a first part of it.
pub fn send<L: Link>(alloc: Global, link: &mut L, out: &Message) -> Result<(), ClientFault>
    ensures ok { OnOk result (Appends (L.written link.old) (L.written link.new) (request_text out.now)) }
    ensures err { OnErr result (AppendsFirst (L.written link.old) (L.written link.new) (request_text out.now)) }
    ensures no_reply { IfErr result (λ e. e ≢ ClientFault.BadReply) }
    ensures fault { IsErrOf result ClientFault.Fault → Rose (L.faults link.old) (L.faults link.new) }
    ensures later { L.faults link.old ≤ L.faults link.new }
    ensures left { L.left link.new ≡ L.left link.old }
{
    match head_text(alloc, out) {
        Ok(head) => put_both(link, &head, body_of(out)),
        Err(_) => Err(ClientFault::NoMemory),
    }
}

// Writes both pieces. A failure has written a first part of them.
fn put_both<L: Link>(link: &mut L, head: &[u8], body: &[u8]) -> Result<(), ClientFault>
    ensures ok { OnOk result (Appends (L.written link.old) (L.written link.new) (head.now ++ body.now)) }
    ensures err { OnErr result (AppendsFirst (L.written link.old) (L.written link.new) (head.now ++ body.now)) }
    ensures no_reply { IfErr result (λ e. e ≢ ClientFault.BadReply) }
    ensures fault { IsErrOf result ClientFault.Fault → Rose (L.faults link.old) (L.faults link.new) }
    ensures later { L.faults link.old ≤ L.faults link.new }
    ensures left { L.left link.new ≡ L.left link.old }
{
    match put_piece(link, head) {
        Ok(()) => {}
        Err(e) => return Err(e),
    }
    if body.is_empty() {
        return Ok(());
    }
    match link.put(body) {
        Ok(()) => Ok(()),
        Err(_) => Err(ClientFault::Fault),
    }
}

fn put_piece<L: Link>(link: &mut L, piece: &[u8]) -> Result<(), ClientFault>
    ensures ok { OnOk result (Appends (L.written link.old) (L.written link.new) piece.now) }
    ensures err { OnErr result (AppendsFirst (L.written link.old) (L.written link.new) piece.now) }
    ensures no_reply { IfErr result (λ e. e ≢ ClientFault.BadReply) }
    ensures fault { IsErrOf result ClientFault.Fault → Rose (L.faults link.old) (L.faults link.new) }
    ensures later { L.faults link.old ≤ L.faults link.new }
    ensures left { L.left link.new ≡ L.left link.old }
{
    match link.put(piece) {
        Ok(()) => Ok(()),
        Err(_) => Err(ClientFault::Fault),
    }
}

// The head of the request, of at most some 200 bytes.
fn head_text(alloc: Global, out: &Message) -> Result<Vec<u8>, NoMemory>
    ensures { IfOk result (λ text. text.items ≡ head_text out.now) }
{
    let mut text = Vec::from_slice(alloc, method_of(out))?;
    text.extend_from_slice(b" ")?;
    put_path(&mut text, out)?;
    text.extend_from_slice(b" HTTP/1.1\r\n")?;
    text.extend_from_slice(b"host: pint\r\ncontent-length: ")?;
    let length = body_of(out).len();
    text.extend_from_slice(format!(in alloc; "{length}")?.as_bytes())?;
    text.extend_from_slice(b"\r\n\r\n")?;
    Ok(text)
}

fn put_path(text: &mut Vec<u8>, out: &Message) -> Result<(), NoMemory>
    ensures { OnOk result (text.new.items ≡ text.old.items ++ path_of out.now) }
{
    match out {
        Message::Start { .. } => text.extend_from_slice(b"/v3/envelopes")?,
        Message::Put {
            reference,
            checksum,
            ..
        } => {
            put_envelope_path(text, *reference)?;
            text.extend_from_slice(b"/additional-documents/")?;
            text.extend_from_slice(&to_text(*checksum))?;
        }
        Message::Finish { reference, .. } => {
            put_envelope_path(text, *reference)?;
            text.extend_from_slice(b"/finish-transfer")?;
        }
    }
    Ok(())
}

fn put_envelope_path(text: &mut Vec<u8>, reference: Reference) -> Result<(), NoMemory>
    ensures { OnOk result (text.new.items ≡ text.old.items ++ envelope_path reference) }
{
    text.extend_from_slice(b"/v3/envelopes/")?;
    text.extend_from_slice(&reference_text(reference))?;
    Ok(())
}

fn method_of(out: &Message) -> &'static [u8]
    ensures { result.now ≡ method_of out.now }
{
    match out {
        Message::Start { .. } => b"POST",
        Message::Put { .. } | Message::Finish { .. } => b"PUT",
    }
}

fn body_of(out: &Message) -> &[u8]
    ensures { result.now ≡ body_of out.now }
{
    match out {
        Message::Start { body, .. } => body.as_slice(),
        Message::Put { bytes, .. } => bytes.as_slice(),
        Message::Finish { .. } => b"",
    }
}
