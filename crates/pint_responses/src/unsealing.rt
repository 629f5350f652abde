//! Responses as they are unsealed.
ghost use Rattle.std.specs.Prelude.{IfErr, IfOk};
ghost use Rattle.pint_responses.specs.Response.{IsAllowed};
ghost use Rattle.pint_responses.specs.Sealed.{IsSealed, IsUnsealFault};

use crate::fault::UnsealFault;
use crate::reading::response_of;
use crate::response::Response;
use ebl_base::{MAX_SEALED_RESPONSE, PlatformCode};
use signed_envelope::{BadSigned, KeyRing, verify_text};
use std::alloc::Global;

/// The response that a text of at most 65,536 bytes is, signed by this platform (RFC 7515).
///
/// Signature where the text isn't so signed, with the first cause that applies; else Form with the first member of the
/// payload, in the order of [`ResponseField`](crate::ResponseField), that is wrong. Further members are ignored.
pub fn unseal<G: KeyRing>(
    alloc: Global,
    ring: &G,
    text: &[u8],
    from: PlatformCode,
) -> Result<Response, UnsealFault>
    ensures ok { IfOk result (λ r. IsSealed (G.keys ring.now) text.now from r) }
    ensures form { IfOk result (λ r. IsAllowed r) }
    ensures err { IfErr result (λ e. IsUnsealFault (G.keys ring.now) text.now from e) }
{
    let payload = match verify_text(alloc, ring, text, from, MAX_SEALED_RESPONSE) {
        Ok(payload) => payload,
        Err(BadSigned::NoMemory) => return Err(UnsealFault::NoMemory),
        Err(why) => return Err(UnsealFault::Signature(why)),
    };
    response_of(alloc, &payload)
}
