//! Whether a body or a reply that comes from outside is honest.
ghost use Rattle.std.specs.Prelude.{◌≡◌, ◌≢◌, ◌↔◌, false, IfOk, IsTrue, map};
ghost use Rattle.ebl_base.specs.declared.limits.TheConstants.{MAX_SIGNED_TEXT};
ghost use Rattle.platform_requests.specs.Request.{request_view};
ghost use Rattle.signed_envelope.specs.declared.fault.BadSigned.TheVariants as causes;
ghost use Rattle.run_safety.specs.Honest.{Comes, IsHonestBody, IsHonestReply, IsSignedByListed, WasSentInChain};
ghost use Rattle.honest_texts.specs.Sent.{AreHonest, one_ring, sent_view};

use crate::sent::{SentText, was_sent_as_reply, was_sent_in_chain};
use ebl_base::{MAX_SEALED_RESPONSE, MAX_SIGNED_TEXT, NoMemory, SignedText};
use envelope_manifest::{Body, BodyFault, texts_have_one_body};
use party_roster::Roster;
use platform_requests::Request;
use signed_envelope::{
    BadSigned, KeyRing, refused_text_is_not_signed, signed_text_has_one_reading, verify_any,
};
use std::alloc::Global;

/// Whether what a request brings was sent before, or is honest: the body of a start, a reply. All other requests bring
/// no text that is signed, so they are honest. All platforms have the keys of one ring.
pub fn is_honest<G: KeyRing>(
    alloc: Global,
    roster: &Roster,
    ring: &G,
    sent: &[SentText],
    request: &Request,
) -> Result<bool, NoMemory>
    ensures { IfOk result (λ honest. IsTrue honest
        ↔ Comes roster.now (one_ring (G.keys ring.now)) (map sent_view sent.now) (request_view request.now)) }
{
    match request {
        Request::Start { body } => is_honest_body(alloc, roster, ring, sent, body.as_slice()),
        Request::StartReply { bytes, .. } => is_honest_reply(
            alloc,
            roster,
            ring,
            sent,
            bytes.as_slice(),
        ),
        Request::FinishReply { bytes, .. } => is_honest_reply(
            alloc,
            roster,
            ring,
            sent,
            bytes.as_slice(),
        ),
        Request::Command { .. }
        | Request::Put { .. }
        | Request::Finish { .. }
        | Request::Resend { .. }
        | Request::Ask { .. } => Ok(true),
    }
}

/// Whether the body of a start is honest: each text of its chain that a platform of the roster signed was sent in a
/// chain before. All platforms have the keys of one ring.
///
/// Bytes that are no body are honest. Each text of the chain is verified once, and each body that was sent is read
/// again for each that is signed.
pub fn is_honest_body<G: KeyRing>(
    alloc: Global,
    roster: &Roster,
    ring: &G,
    sent: &[SentText],
    body: &[u8],
) -> Result<bool, NoMemory>
    ensures { IfOk result (λ honest. IsTrue honest
        ↔ IsHonestBody roster.now (one_ring (G.keys ring.now)) (map sent_view sent.now) body.now) }
{
    texts_have_one_body();
    match Body::read(alloc, body) {
        Ok(body) => are_honest(alloc, roster, ring, sent, body.chain.as_slice()),
        Err(BodyFault::BodyForm(_)) => Ok(true),
        Err(BodyFault::NoMemory) => Err(NoMemory),
    }
}

fn are_honest<G: KeyRing>(
    alloc: Global,
    roster: &Roster,
    ring: &G,
    sent: &[SentText],
    texts: &[SignedText],
) -> Result<bool, NoMemory>
    ensures { IfOk result (λ honest. IsTrue honest
        ↔ AreHonest roster.now (G.keys ring.now) (map sent_view sent.now) texts.now) }
{
    for text in texts {
        if !is_honest_text(alloc, roster, ring, sent, text)? {
            return Ok(false);
        }
    }
    Ok(true)
}

// Whether a text was sent in a chain, where a platform of the roster signed it.
fn is_honest_text<G: KeyRing>(
    alloc: Global,
    roster: &Roster,
    ring: &G,
    sent: &[SentText],
    text: &SignedText,
) -> Result<bool, NoMemory>
    ensures { IfOk result (λ honest. IsTrue honest
        ↔ (IsSignedByListed roster.now (one_ring (G.keys ring.now)) MAX_SIGNED_TEXT text.now.0
        → WasSentInChain (map sent_view sent.now) text.now)) }
{
    if is_signed_by_listed(alloc, roster, ring, text.0.as_slice(), MAX_SIGNED_TEXT)? {
        was_sent_in_chain(alloc, sent, text)
    } else {
        Ok(true)
    }
}

/// Whether a reply is honest: it was sent as a reply before, if a platform of the roster signed it. All platforms have
/// the keys of one ring.
pub fn is_honest_reply<G: KeyRing>(
    alloc: Global,
    roster: &Roster,
    ring: &G,
    sent: &[SentText],
    bytes: &[u8],
) -> Result<bool, NoMemory>
    ensures { IfOk result (λ honest. IsTrue honest
        ↔ IsHonestReply roster.now (one_ring (G.keys ring.now)) (map sent_view sent.now) bytes.now) }
{
    if is_signed_by_listed(alloc, roster, ring, bytes, MAX_SEALED_RESPONSE)? {
        Ok(was_sent_as_reply(sent, bytes))
    } else {
        Ok(true)
    }
}

// Whether a platform of the roster signed a text.
fn is_signed_by_listed<G: KeyRing>(
    alloc: Global,
    roster: &Roster,
    ring: &G,
    text: &[u8],
    most: usize,
) -> Result<bool, NoMemory>
    ensures { IfOk result (λ signed. IsTrue signed
        ↔ IsSignedByListed roster.now (one_ring (G.keys ring.now)) most text.now) }
{
    signed_text_has_one_reading();
    refused_text_is_not_signed();
    match verify_any(alloc, ring, text, most) {
        Ok(verified) => Ok(roster.has_platform(verified.platform)),
        Err(why) => unsigned(why),
    }
}

// That a text isn't signed, for this reason.
fn unsigned(why: BadSigned) -> Result<bool, NoMemory>
    ensures { IfOk result (λ signed. (signed ≡ false) × (why ≢ causes.NoMemory)) }
{
    match why {
        BadSigned::NoMemory => Err(NoMemory),
        _ => Ok(false),
    }
}
