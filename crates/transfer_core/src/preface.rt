//! What a body shows, before any diary is looked at.
ghost use Rattle.std.specs.Prelude.{◌≡◌, IfErr, IfOk, None, Some, option_copied};
ghost use Rattle.bill_chain.specs.Chain.{last_of};
ghost use Rattle.envelope_manifest.specs.Body.{IsBody, ReadsAs, body_view};
ghost use Rattle.transport_document.specs.DocumentRecord.{bill_of};
ghost use Rattle.end_manifest.specs.EndManifest.{reason_for};
ghost use Rattle.platform_machine.specs.Preface.{ArePartsRefused, Envelops, IsEnvelopeRefused, IsRefused, Shows, ShowsIn, last_text_name, refusal_of};
ghost use Rattle.transfer_core.specs.Shown.{IsStop, shown_view, stop_with};

use bill_chain::last_link;
use document_checksum::checksum;
use ebl_base::{Chain, Checksum, NoMemory, Reason, TextList};
use end_manifest::{EndFault, read_manifest, reason_for};
use envelope_manifest::{Body, BodyFault, Manifest};
use party_roster::Roster;
use platform_machine::Refusal;
use signed_envelope::KeyRing;
use std::alloc::Global;
use transfer_chain::{ChainRefusal, check};
use transport_document::{Document, DocumentFault};

/// What a body shows: its parts, and what they were read as.
#[derive(Drop)]
pub(crate) struct Shown {
    pub(crate) body: Body,
    pub(crate) document: Document,
    pub(crate) chain: Chain,
    pub(crate) manifest: Manifest,
}

/// Why the reading of a body stopped.
#[derive(Clone, Copy, Debug)]
pub(crate) enum Stop {
    Refused(Reason),
    NoMemory,
}

/// What a body shows, or the first thing that is wrong with it. The body is read once, its document written and hashed
/// once, and each signature verified once.
pub(crate) fn show<G: KeyRing>(
    alloc: Global,
    roster: &Roster,
    ring: &G,
    bytes: &[u8],
) -> Result<Result<Shown, Refusal>, NoMemory>
    ensures shown { IfOk result (λ read. IfOk read (λ s. Shows roster.now (G.keys ring.now) bytes.now (shown_view s))) }
    ensures refused { IfOk result (λ read. IfErr read (IsRefused roster.now (G.keys ring.now) bytes.now)) }
{
    match Body::read(alloc, bytes) {
        Ok(body) => show_parts(alloc, roster, ring, body),
        Err(BodyFault::BodyForm(_)) => Ok(Err(Refusal {
            reason: Reason::Body,
            bill: None,
            last: None,
        })),
        Err(BodyFault::NoMemory) => Err(NoMemory),
    }
}

fn show_parts<G: KeyRing>(
    alloc: Global,
    roster: &Roster,
    ring: &G,
    body: Body,
) -> Result<Result<Shown, Refusal>, NoMemory>
    ensures same { IfOk result (λ read. IfOk read (λ s. s.body ≡ body)) }
    ensures shown { IfOk result (λ read. IfOk read (λ s. ShowsIn roster.now (G.keys ring.now) (shown_view s))) }
    ensures refused { IfOk result (λ read. IfErr read (ArePartsRefused roster.now (G.keys ring.now) (body_view body))) }
{
    let document = match Document::of_json(alloc, &body.document) {
        Ok(document) => document,
        Err(DocumentFault::NoMemory) => return Err(NoMemory),
        Err(_) => return Ok(Err(refusal_of(Reason::Document, None, &body))),
    };
    match read_envelope(alloc, roster, ring, &document, &body) {
        Ok(Envelope { chain, manifest }) => Ok(Ok(Shown {
            body,
            document,
            chain,
            manifest,
        })),
        Err(Stop::Refused(reason)) => Ok(Err(refusal_of(reason, Some(document.bill()), &body))),
        Err(Stop::NoMemory) => Err(NoMemory),
    }
}

// The refusal of a body whose form was read.
fn refusal_of(reason: Reason, bill: Option<Checksum>, body: &Body) -> Refusal
    ensures { result ≡ refusal_of reason bill (body_view body.now) }
{
    Refusal {
        reason,
        bill,
        last: last_text_name(&body.chain),
    }
}

// The name of the last text.
fn last_text_name(texts: &TextList) -> Option<Checksum>
    ensures { result ≡ last_text_name texts.now }
{
    match texts.as_slice().last() {
        Some(text) => Some(checksum(text.0.as_slice())),
        None => None,
    }
}

// A good chain and its manifest.
#[derive(Drop)]
struct Envelope {
    chain: Chain,
    manifest: Manifest,
}

fn read_envelope<G: KeyRing>(
    alloc: Global,
    roster: &Roster,
    ring: &G,
    document: &Document,
    body: &Body,
) -> Result<Envelope, Stop>
    ensures ok { IfOk result (λ e.
        Envelops roster.now (G.keys ring.now) document.now (body_view body.now) e.chain e.manifest) }
    ensures err { IfErr result
        (IsStop (IsEnvelopeRefused roster.now (G.keys ring.now) document.now (body_view body.now))) }
{
    let chain = match check(alloc, roster, ring, document, &body.chain) {
        Ok(chain) => chain,
        Err(refusal) => return Err(stop_for(refusal)),
    };
    let Some(end) = last_link(chain.as_slice()) else {
        unreachable!()
    };
    match read_manifest(alloc, ring, document.bill(), end, &body.manifest) {
        Ok(manifest) => Ok(Envelope { chain, manifest }),
        Err(EndFault::Refused(reason)) => Err(Stop::Refused(reason)),
        Err(EndFault::NoMemory) => Err(Stop::NoMemory),
    }
}

// How the refusal of a chain stops the reading of its body.
fn stop_for(refusal: ChainRefusal) -> Stop
    ensures { result ≡ stop_with (reason_for refusal) }
{
    match reason_for(refusal) {
        Some(reason) => Stop::Refused(reason),
        None => Stop::NoMemory,
    }
}
