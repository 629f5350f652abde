//! One request and one reply.
ghost use Rattle.std.specs.Prelude.{◌≤◌, IfSome, IsErrOf};
ghost use Rattle.ebl_base.specs.Faults.{Rose};
ghost use Rattle.pint_client.specs.Exchange.{IsAnswerTo, ReadsReply, Wrote};
ghost use Rattle.pint_client.specs.Request.{request_text};

use crate::client_fault::ClientFault;
use crate::incoming::Incoming;
use crate::receiving::receive;
use crate::request::send;
use ebl_edge::Link;
use platform_requests::Message;
use std::alloc::Global;

/// Sends a message to another platform as one request (HTTP/1.1, RFC 9112) and reads the one reply to it.
///
/// The link is left open. Bytes behind the reply, which nobody asked for, are read only if they come with its head, and
/// are dropped. Why no reply comes is said by [`ClientFault`]; after each fault the link is best given up, since part
/// of a request or of a reply may be on it.
pub fn exchange<L: Link>(
    alloc: Global,
    link: &mut L,
    out: &Message,
) -> Result<Incoming, ClientFault>
    // The one request is written, whole unless the link fails or memory runs out.
    ensures request { Wrote result (L.written link.old) (L.written link.new) (request_text out.now) }

    // Of all the bytes that were to come: `Ok` is the reply at their front, `BadReply` comes if there is none.
    ensures reply { IfSome (L.left link.old) (λ came. IsAnswerTo came result) }

    // What was read decides that, and no more was read.
    ensures read { ReadsReply result (L.left link.old) (L.left link.new) }
    ensures fault { IsErrOf result ClientFault.Fault → Rose (L.faults link.old) (L.faults link.new) }
    ensures later { L.faults link.old ≤ L.faults link.new }
{
    match send(alloc, link, out) {
        Ok(()) => receive(alloc, link),
        Err(e) => Err(e),
    }
}
