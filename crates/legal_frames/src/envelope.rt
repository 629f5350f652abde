//! Envelopes: a Begun's body with the chain and the manifest that it has, and the texts that platforms signed.
ghost use Rattle.std.specs.Prelude.{◌≡◌, ◌≢◌, ◌↔◌, IfOk, IsTrue, MatchOption, false, bytes_eq};
ghost use Rattle.bill_chain.specs.Chain.{last_of};
ghost use Rattle.envelope_manifest.specs.Body.{IsBody, ReadsAs, body_view};
ghost use Rattle.envelope_manifest.specs.declared.manifest.Manifest.{Manifest};
ghost use Rattle.bill_diary.specs.History.{newest_first};
ghost use Rattle.bill_diary.specs.Sound.{IsSound};
ghost use Rattle.bill_diary.specs.Texts.{ManifestIsItsText};
ghost use Rattle.record_bytes.specs.Forms.{IsBegun};
ghost use Rattle.transfer_judge.specs.Judgement.{judgement_of};
ghost use Rattle.transfer_judge.specs.Legal.{IsSignedBy};
ghost use Rattle.legal_frames.specs.Rows.{IsEnvelope, IsGoodBody, IsManifestBy, IsNewEnvelope, is_again};

use bill_chain::last_link;
use bill_diary::BegunRef;
use ebl_base::{ByteList, Checksum, MAX_SIGNED_TEXT, NoMemory, PlatformCode, SignedText};
use envelope_manifest::{Body, BodyFault, Manifest, ManifestFault, decode};
use party_roster::Roster;
use signed_envelope::{BadSigned, KeyRing, verify_text};
use std::alloc::Global;
use title_register::{Register, last_with_reference};
use transfer_chain::{ChainRefusal, check, refused_texts_are_no_good_chain};
use transfer_judge::{Judgement, judge};
use transport_document::{Document, DocumentFault};
use upload_state::reference_of;

/// The judgement on a Begun, where its envelope is right and isn't that of the last Begun with its reference.
pub(crate) fn judge_new<G: KeyRing>(
    alloc: Global,
    roster: &Roster,
    ring: &G,
    me: PlatformCode,
    register: &Register,
    begun: BegunRef<'_>,
) -> Result<Option<Judgement>, NoMemory>
    requires sound { IsSound me register.now.diary }
    requires spelled { IsBegun begun.bill begun.chain.now begun.manifest.now begun.body.now }
    ensures { IfOk result (λ judged. MatchOption judged
        (¬ IsNewEnvelope roster.now (G.keys ring.now) (newest_first register.now.diary) begun.entry.bill
        begun.entry.chain.now begun.entry.manifest.now begun.entry.body.now)
        (λ judgement. IsNewEnvelope roster.now (G.keys ring.now) (newest_first register.now.diary) begun.entry.bill
        begun.entry.chain.now begun.entry.manifest.now begun.entry.body.now
        × (judgement ≡ judgement_of roster.now me begun.entry.bill (newest_first register.now.diary)
        begun.entry.chain.now begun.entry.manifest.now))) }
{
    let right = is_envelope(alloc, roster, ring, begun)?;
    if !right {
        return Ok(None);
    }
    if is_again(register, begun) {
        return Ok(None);
    }
    let judgement = judge(alloc, register, roster, me, begun.chain, begun.manifest)?;
    Ok(Some(judgement))
}

// Whether the last Begun with the reference of this one is of its body.
fn is_again(register: &Register, begun: BegunRef<'_>) -> bool
    ensures { result ≡ is_again begun.entry.bill begun.entry.body.now (newest_first register.now.diary)
        (last_of begun.entry.chain.now) }
{
    let Some(last) = last_link(begun.chain.as_slice()) else {
        return false;
    };
    match last_with_reference(register, reference_of(begun.bill, last.name)) {
        Some(found) => are_same(found.body, begun.body),
        None => false,
    }
}

fn are_same(bytes: &ByteList, others: &ByteList) -> bool
    ensures { result ≡ bytes_eq bytes.now others.now }
{
    bytes.as_slice() == others.as_slice()
}

// Whether a Begun's body has a good chain of its document, and its manifest is by the platform of the last entry and
// names both.
fn is_envelope<G: KeyRing>(
    alloc: Global,
    roster: &Roster,
    ring: &G,
    begun: BegunRef<'_>,
) -> Result<bool, NoMemory>
    requires { IsBegun begun.bill begun.chain.now begun.manifest.now begun.body.now }
    ensures { IfOk result (λ so. IsTrue so ↔ IsEnvelope roster.now (G.keys ring.now) begun.entry.bill
        begun.entry.chain.now begun.entry.manifest.now begun.entry.body.now) }
{
    let body = body_of(alloc, begun)?;
    let good = is_good_body(alloc, roster, ring, &body)?;
    if !good {
        return Ok(false);
    }
    let Some(last) = last_link(begun.chain.as_slice()) else {
        return Ok(false);
    };
    is_manifest_by(
        alloc,
        ring,
        last.entry.platform,
        begun.bill,
        last.name,
        begun.manifest,
        &body.manifest,
    )
}

// What the body of a Begun reads as.
fn body_of(alloc: Global, begun: BegunRef<'_>) -> Result<Body, NoMemory>
    requires { IsBegun begun.bill begun.chain.now begun.manifest.now begun.body.now }
    ensures reads { IfOk result (λ body. ReadsAs begun.entry.body.now (body_view body)) }
    ensures form { IfOk result (λ body. IsBody (body_view body)) }
{
    match Body::read(alloc, begun.body.as_slice()) {
        Ok(body) => Ok(body),
        Err(BodyFault::NoMemory) => Err(NoMemory),
        Err(BodyFault::BodyForm(_)) => unreachable!(),
    }
}

// Whether the texts of a body are a good chain of its document.
fn is_good_body<G: KeyRing>(
    alloc: Global,
    roster: &Roster,
    ring: &G,
    body: &Body,
) -> Result<bool, NoMemory>
    ensures { IfOk result (λ so. IsTrue so ↔ IsGoodBody roster.now (G.keys ring.now) (body_view body.now)) }
{
    refused_texts_are_no_good_chain();
    let document = match Document::of_json(alloc, &body.document) {
        Ok(document) => document,
        Err(fault) => return no_document(fault),
    };
    match check(alloc, roster, ring, &document, &body.chain) {
        Ok(_) => {}
        Err(refusal) => return no_chain(refusal),
    }
    Ok(true)
}

// A value that is refused is no document, unless memory ran out.
fn no_document(fault: DocumentFault) -> Result<bool, NoMemory>
    ensures { IfOk result (λ so. (so ≡ false) × (fault ≢ DocumentFault.NoMemory)) }
{
    match fault {
        DocumentFault::NoMemory => Err(NoMemory),
        _ => Ok(false),
    }
}

// Texts that are refused are no chain, unless memory ran out.
fn no_chain(refusal: ChainRefusal) -> Result<bool, NoMemory>
    ensures { IfOk result (λ so. (so ≡ false) × (refusal ≢ ChainRefusal.NoMemory)) }
{
    match refusal {
        ChainRefusal::NoMemory => Err(NoMemory),
        _ => Ok(false),
    }
}

/// Whether a manifest, which is that of its text, is well-formed, names this bill and this entry, and is signed by the
/// platform.
pub(crate) fn is_manifest_by<G: KeyRing>(
    alloc: Global,
    ring: &G,
    who: PlatformCode,
    bill: Checksum,
    last: Checksum,
    manifest: &Manifest,
    text: &SignedText,
) -> Result<bool, NoMemory>
    requires { ManifestIsItsText text.now manifest.now }
    ensures { IfOk result (λ so. IsTrue so
        ↔ IsManifestBy (G.keys ring.now) who bill last manifest.now text.now) }
{
    if !names_both(manifest, bill, last) {
        return Ok(false);
    }
    let payload = match verify_text(alloc, ring, text.0.as_slice(), who, MAX_SIGNED_TEXT) {
        Ok(payload) => payload,
        Err(why) => return not_signed(why),
    };
    match decode(alloc, &payload) {
        Ok(_) => Ok(true),
        Err(ManifestFault::NoMemory) => Err(NoMemory),
        Err(ManifestFault::ManifestForm(_)) => Ok(false),
    }
}

// Whether a manifest names this bill and this entry.
fn names_both(manifest: &Manifest, bill: Checksum, last: Checksum) -> bool
    ensures { IsTrue result ↔ ((manifest.now.bill ≡ bill) × (manifest.now.last ≡ last)) }
{
    manifest.bill == bill && manifest.last == last
}

/// Whether the platform signed the text.
pub(crate) fn is_signed_by<G: KeyRing>(
    alloc: Global,
    ring: &G,
    who: PlatformCode,
    text: &SignedText,
) -> Result<bool, NoMemory>
    ensures { IfOk result (λ so. IsTrue so ↔ IsSignedBy (G.keys ring.now) who text.now) }
{
    match verify_text(alloc, ring, text.0.as_slice(), who, MAX_SIGNED_TEXT) {
        Ok(_) => Ok(true),
        Err(why) => not_signed(why),
    }
}

// A text that is refused isn't signed by the platform, unless memory ran out.
fn not_signed(why: BadSigned) -> Result<bool, NoMemory>
    ensures { IfOk result (λ so. (so ≡ false) × (why ≢ BadSigned.NoMemory)) }
{
    match why {
        BadSigned::NoMemory => Err(NoMemory),
        _ => Ok(false),
    }
}
