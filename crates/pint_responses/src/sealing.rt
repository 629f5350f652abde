//! Responses as they are sealed.
ghost use Rattle.std.specs.Prelude.{◌≡◌, ◌≤◌, Ok, true, false, IfOk, length};
ghost use Rattle.ebl_base.specs.Faults.{Rose};
ghost use Rattle.ebl_base.specs.declared.signature.Signature.{Signature};
ghost use Rattle.signed_envelope.specs.SignedText.{IsComposed};
ghost use Rattle.pint_responses.specs.Response.{IsOptionalEvidence, IsSealable};
ghost use Rattle.pint_responses.specs.Writing.{response_value};
ghost use Rattle.pint_responses.specs.declared.fault.SealFault.TheVariants.{Sign};

use crate::fault::SealFault;
use crate::response::Response;
use crate::writing::response_json;
use ebl_base::{
    MAX_DOCUMENTS, MAX_SEALED_RESPONSE, MAX_SIGNED_TEXT, NoMemory, PlatformCode, SignedText,
};
use signed_envelope::{ComposeFault, KeyRing, compose, is_compact};
use std::alloc::Global;

/// The text of a response of this platform, signed by the ring: at most 65,536 bytes in the compact layout (RFC 7515,
/// section 7.1), with the response as canonical JSON (RFC 8785).
///
/// Its condition is that at most 16 documents are missing, and that each evidence is in the compact layout within
/// 16,384 bytes: [`is_sealable`] tests it. Sign comes only when the ring's count of faults rose; else only NoMemory is
/// left.
pub fn seal<G: KeyRing>(
    alloc: Global,
    ring: &mut G,
    me: PlatformCode,
    r: &Response,
) -> Result<SignedText, SealFault>
    requires { IsSealable r.now }
    ensures ok { IfOk result (λ t. (s : Signature) × IsComposed (G.keys ring.old) t.0 me (response_value r.now) s) }
    ensures fits { IfOk result (λ t. length t.0 ≤ MAX_SEALED_RESPONSE) }
    ensures sign { result ≡ Err Sign → Rose (G.faults ring.old) (G.faults ring.new) }
    ensures later { G.faults ring.old ≤ G.faults ring.new }
    ensures same { G.keys ring.new ≡ G.keys ring.old }
{
    let payload = response_json(alloc, r)?;
    match compose(alloc, ring, me, &payload, MAX_SEALED_RESPONSE) {
        Ok(text) => Ok(text),
        Err(ComposeFault::Sign) => Err(SealFault::Sign),
        // No such response is too long.
        Err(ComposeFault::TooLong) => unreachable!(),
        Err(ComposeFault::NoMemory) => Err(SealFault::NoMemory),
    }
}

/// Whether a response can be sealed: at most 16 documents are missing, and each evidence is in the compact layout
/// within 16,384 bytes. It decodes the evidence. A response that was unsealed may be one that can't.
pub fn is_sealable(alloc: Global, r: &Response) -> Result<bool, NoMemory>
    ensures yes { result ≡ Ok true → IsSealable r.now }
    ensures no { result ≡ Ok false → ¬ IsSealable r.now }
{
    if r.missing.len() > MAX_DOCUMENTS {
        return Ok(false);
    }
    if !is_evidence(alloc, &r.evidence.own)? {
        return Ok(false);
    }
    is_evidence(alloc, &r.evidence.theirs)
}

fn is_evidence(alloc: Global, text: &Option<SignedText>) -> Result<bool, NoMemory>
    ensures yes { result ≡ Ok true → IsOptionalEvidence text.now }
    ensures no { result ≡ Ok false → ¬ IsOptionalEvidence text.now }
{
    match text {
        Some(text) => is_compact(alloc, text.0.as_slice(), MAX_SIGNED_TEXT),
        None => Ok(true),
    }
}
