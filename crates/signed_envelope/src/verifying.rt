//! Signed texts as they are verified.
ghost use Rattle.std.specs.Prelude.{◌≡◌, ◌≤◌, None, Some, length, IfErr, IfOk};
ghost use Rattle.canonical_json.specs.Lawful.{HasTexts, IsLawful};
ghost use Rattle.canonical_json.specs.View.{view};
ghost use Rattle.signed_envelope.specs.Refusal.{IsRefused};
ghost use Rattle.signed_envelope.specs.SignedText.{IsSigned};
ghost use Rattle.signed_envelope.specs.Steps.{IsPayload, IsPayloadRefused};

use crate::compact::{Parts, split};
use crate::fault::BadSigned;
use crate::header::signer;
use crate::key_ring::KeyRing;
use canonical_json::{Json, read_if_any};
use ebl_base::{NoMemory, PlatformCode};
use std::alloc::Global;

/// What a signed text says, and who signed it.
#[derive(Drop)]
pub struct Verified {
    pub platform: PlatformCode,
    pub payload: Json,
}

impl Verified {
    /// A copy: the same platform, and a payload with the same value.
    pub fn copy(&self, alloc: Global) -> Result<Verified, NoMemory>
        ensures platform { IfOk result (λ v. v.platform ≡ self.now.platform) }
        ensures payload { IfOk result (λ v. view v.payload ≡ view self.now.payload) }
    {
        let payload = self.payload.copy(alloc)?;
        Ok(Verified {
            platform: self.platform,
            payload,
        })
    }
}

/// The payload of a text of at most `most` bytes that its header's platform signed.
///
/// Each refusal is the first of [`BadSigned`] that fits; WrongKey never comes.
pub fn verify_any<G: KeyRing>(
    alloc: Global,
    ring: &G,
    text: &[u8],
    most: usize,
) -> Result<Verified, BadSigned>
    ensures ok { IfOk result (λ v. IsSigned (G.keys ring.now) most text.now v.platform (view v.payload)) }
    ensures lawful { IfOk result (λ v. IsLawful (view v.payload)) }
    ensures texts { IfOk result (λ v. HasTexts (view v.payload)) }
    ensures err { IfErr result (λ e. IsRefused (G.keys ring.now) most None text.now e) }
{
    let parts = split(alloc, text, most)?;
    let platform = signer(alloc, ring.alg(), parts.header.as_slice())?;
    let payload = payload_of(alloc, ring, text, &parts, platform)?;
    Ok(Verified { platform, payload })
}

/// The payload of a text of at most `most` bytes that this platform signed.
///
/// Each refusal is the first of [`BadSigned`] that fits.
pub fn verify_text<G: KeyRing>(
    alloc: Global,
    ring: &G,
    text: &[u8],
    who: PlatformCode,
    most: usize,
) -> Result<Json, BadSigned>
    ensures ok { IfOk result (λ json. IsSigned (G.keys ring.now) most text.now who (view json)) }
    ensures lawful { IfOk result (λ json. IsLawful (view json)) }
    ensures texts { IfOk result (λ json. HasTexts (view json)) }
    ensures err { IfErr result (λ e. IsRefused (G.keys ring.now) most (Some who) text.now e) }
{
    let parts = split(alloc, text, most)?;
    let platform = signer(alloc, ring.alg(), parts.header.as_slice())?;
    if platform != who {
        return Err(BadSigned::WrongKey);
    }
    payload_of(alloc, ring, text, &parts, who)
}

fn payload_of<G: KeyRing>(
    alloc: Global,
    ring: &G,
    text: &[u8],
    parts: &Parts,
    who: PlatformCode,
) -> Result<Json, BadSigned>
    requires { parts.now.input_len ≤ length text.now }
    ensures ok { IfOk result (λ json. IsPayload (G.keys ring.now) text.now parts.now who (view json)) }
    ensures lawful { IfOk result (λ json. IsLawful (view json)) }
    ensures texts { IfOk result (λ json. HasTexts (view json)) }
    ensures err { IfErr result (λ e. IsPayloadRefused (G.keys ring.now) text.now parts.now who e) }
{
    let input = &text[..parts.input_len];
    if !ring.verify(who, input, parts.signature) {
        return Err(BadSigned::Wrong);
    }
    match read_if_any(alloc, parts.payload.as_slice())? {
        Some(json) => Ok(json),
        None => Err(BadSigned::PayloadForm),
    }
}
