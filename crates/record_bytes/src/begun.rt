//! A Begun, from its body.
ghost use Rattle.std.specs.Prelude.{◌≡◌, ◌≤◌, ◌↔◌, Ok, IsTrue, IfOk, IfSome, MatchOption, length};
ghost use Rattle.canonical_json.specs.Canon.{canon};
ghost use Rattle.canonical_json.specs.Value.{depth};
ghost use Rattle.envelope_manifest.specs.Body.{BodyRecord, IsBody, ReadsAs, body_value, body_view};
ghost use Rattle.transport_document.specs.Reading.{document_of};
ghost use Rattle.record_bytes.specs.Fields.{IsShort, text_bytes};
ghost use Rattle.record_bytes.specs.Reading.{Finds, AreFields, IsBodyWith};

use crate::fields::are_same;
use crate::texts::{chain_of, document_of, manifest_of};
use bill_diary::Record;
use ebl_base::{ByteList, MAX_CHAIN_ENTRIES, NoMemory, SignedText, TextList};
use envelope_manifest::{Body, BodyFault};
use std::alloc::Global;
use transport_document::Document;

/// The Begun with this body. None if and only if there is none.
pub(crate) fn begun_of(alloc: Global, text: &[u8]) -> Result<Option<Record>, NoMemory>
    requires { IsShort text.now }
    ensures { IfOk result (Finds (AreFields 7 (text_bytes text.now))) }
{
    match body_of(alloc, text)? {
        Some(body) => begun_in(alloc, text, body),
        None => Ok(None),
    }
}

// The body that a text reads as.
fn body_of(alloc: Global, text: &[u8]) -> Result<Option<Body>, NoMemory>
    ensures reads { IfOk result (λ found. MatchOption found ((parts : BodyRecord) → ¬ ReadsAs text.now parts)
        (λ body. ReadsAs text.now (body_view body))) }
    ensures form { IfOk result (λ found. IfSome found (λ body. IsBody (body_view body))) }
    ensures nests { IfOk result (λ found. IfSome found (λ body. depth (body_view body).document ≤ 126)) }
{
    match Body::read(alloc, text) {
        Ok(body) => Ok(Some(body)),
        Err(BodyFault::BodyForm(_)) => Ok(None),
        Err(BodyFault::NoMemory) => Err(NoMemory),
    }
}

// The Begun with the body that the text reads as, where the text is its written form.
fn begun_in(alloc: Global, text: &[u8], body: Body) -> Result<Option<Record>, NoMemory>
    requires short { IsShort text.now }
    requires reads { ReadsAs text.now (body_view body) }
    requires form { IsBody (body_view body) }
    requires nests { depth (body_view body).document ≤ 126 }
    ensures { IfOk result (Finds (AreFields 7 (text_bytes text.now))) }
{
    let Some(document) = document_of(alloc, &body.document)? else {
        return Ok(None);
    };
    if !is_written_form(alloc, text, &body, &document)? {
        return Ok(None);
    }
    let Body {
        document: _json,
        manifest,
        chain,
    } = body;
    begun_with(alloc, text, &document, &manifest, chain)
}

// Whether the text is the written form of the body, whose document is at hand.
fn is_written_form(
    alloc: Global,
    text: &[u8],
    body: &Body,
    document: &Document,
) -> Result<bool, NoMemory>
    requires { document_of (body_view body.now).document ≡ Ok document.now }
    ensures { IfOk result (λ is. IsTrue is ↔ (canon (body_value (body_view body.now)) ≡ text.now)) }
{
    let written = body.write_around(alloc, document.text().as_slice())?;
    Ok(are_same(written.as_slice(), text))
}

fn begun_with(
    alloc: Global,
    text: &[u8],
    document: &Document,
    manifest: &SignedText,
    chain: TextList,
) -> Result<Option<Record>, NoMemory>
    requires short { IsShort text.now }
    requires body { IsBodyWith text.now document.now manifest.now chain }
    ensures { IfOk result (Finds (AreFields 7 (text_bytes text.now))) }
{
    if !has_entries(&chain) {
        return Ok(None);
    }
    let Some(manifest) = manifest_of(alloc, manifest)? else {
        return Ok(None);
    };
    let Some(chain) = chain_of(alloc, chain)? else {
        return Ok(None);
    };
    let body = ByteList::from_slice(alloc, text)?;
    Ok(Some(Record::Begun {
        bill: document.bill(),
        chain,
        manifest,
        body,
    }))
}

// Whether there are 1 to 64 texts.
fn has_entries(chain: &TextList) -> bool
    ensures { IsTrue result ↔ ((1 ≤ length chain.now) × (length chain.now ≤ MAX_CHAIN_ENTRIES)) }
{
    1 <= chain.len() && chain.len() <= MAX_CHAIN_ENTRIES
}
