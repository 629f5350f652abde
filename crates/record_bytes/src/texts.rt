//! What the texts of a frame say. Each text is read once, and hashed once.
ghost use Rattle.std.specs.Prelude.{◌≡◌, ◌≤◌, Ok, IfOk, IfSome, MatchOption};
ghost use Rattle.ebl_base.specs.declared.entry.Entry.{Entry};
ghost use Rattle.canonical_json.specs.Value.{Value, depth};
ghost use Rattle.canonical_json.specs.Lawful.{IsLawful, HasTexts};
ghost use Rattle.canonical_json.specs.Reading.{Reads};
ghost use Rattle.canonical_json.specs.View.{view};
ghost use Rattle.chain_entry.specs.Reading.{entry_of, transaction_of};
ghost use Rattle.envelope_manifest.specs.Piece.{IsPiece, piece_of};
ghost use Rattle.envelope_manifest.specs.declared.piece.Piece.{Piece};
ghost use Rattle.envelope_manifest.specs.Manifest.{manifest_of};
ghost use Rattle.envelope_manifest.specs.declared.manifest.Manifest.{Manifest};
ghost use Rattle.transport_document.specs.DocumentRecord.{DocumentRecord};
ghost use Rattle.transport_document.specs.Reading.{document_of};
ghost use Rattle.bill_diary.specs.Texts.{HasPayload, IsDocumentOf, ManifestIsItsText};
ghost use Rattle.record_bytes.specs.Reading.{Finds, IsTransactionText, IsPieceText, SaysEntry, IsLinkOf, AreLinksOf};

use crate::canonical::{piece_text, transaction_text};
use crate::fields::are_same;
use canonical_json::{Json, nests_within, read_if_any};
use chain_entry::{EntryFault, decode, decode_transaction};
use document_checksum::checksum;
use ebl_base::{
    Chain, ChainLink, Checksum, Entry, MAX_SIGNED_TEXT, NoMemory, SignedText, TextList, Transaction,
};
use envelope_manifest::{Manifest, ManifestFault, Piece, decode_piece};
use signed_envelope::{SplitFault, split};
use std::alloc::Global;
use transport_document::{Document, DocumentFault};

/// The deepest that a document nests, so that it is read within a body too.
const DEEPEST: usize = 126;

/// The transaction of which this is the canonical text.
pub(crate) fn transaction_of(alloc: Global, text: &[u8]) -> Result<Option<Transaction>, NoMemory>
    ensures { IfOk result (Finds (IsTransactionText text.now)) }
{
    match read_if_any(alloc, text)? {
        Some(json) => transaction_in(alloc, text, &json),
        None => Ok(None),
    }
}

// The same, of the value that the text reads as.
fn transaction_in(alloc: Global, text: &[u8], json: &Json) -> Result<Option<Transaction>, NoMemory>
    requires { Reads text.now (view json.now) }
    ensures { IfOk result (Finds (IsTransactionText text.now)) }
{
    let Some(transaction) = transaction_said(json) else {
        return Ok(None);
    };
    let written = transaction_text(alloc, &transaction)?;
    if are_same(written.as_slice(), text) {
        Ok(Some(transaction))
    } else {
        Ok(None)
    }
}

fn transaction_said(json: &Json) -> Option<Transaction>
    ensures { result ≡ transaction_of (view json.now) }
{
    match decode_transaction(json) {
        Ok(transaction) => Some(transaction),
        Err(_) => None,
    }
}

/// The listed document of which this is the canonical text.
pub(crate) fn piece_of(alloc: Global, text: &[u8]) -> Result<Option<Piece>, NoMemory>
    ensures { IfOk result (Finds (IsPieceText text.now)) }
{
    match read_if_any(alloc, text)? {
        Some(json) => piece_in(alloc, text, &json),
        None => Ok(None),
    }
}

// The same, of the value that the text reads as.
fn piece_in(alloc: Global, text: &[u8], json: &Json) -> Result<Option<Piece>, NoMemory>
    requires { Reads text.now (view json.now) }
    ensures { IfOk result (Finds (IsPieceText text.now)) }
{
    let Some(piece) = piece_said(alloc, json)? else {
        return Ok(None);
    };
    let written = piece_text(alloc, &piece)?;
    if are_same(written.as_slice(), text) {
        Ok(Some(piece))
    } else {
        Ok(None)
    }
}

fn piece_said(alloc: Global, json: &Json) -> Result<Option<Piece>, NoMemory>
    ensures said { IfOk result (Finds (λ (piece : Piece). piece_of (view json.now) ≡ Ok piece)) }
    ensures form { IfOk result (λ found. IfSome found IsPiece) }
{
    match decode_piece(alloc, json) {
        Ok(piece) => Ok(Some(piece)),
        Err(ManifestFault::ManifestForm(_)) => Ok(None),
        Err(ManifestFault::NoMemory) => Err(NoMemory),
    }
}

/// The bill of which this is the canonical document.
pub(crate) fn bill_of(alloc: Global, text: &[u8]) -> Result<Option<Checksum>, NoMemory>
    ensures { IfOk result (Finds (λ bill. IsDocumentOf bill text.now)) }
{
    match read_if_any(alloc, text)? {
        Some(json) => bill_in(alloc, text, &json),
        None => Ok(None),
    }
}

// The same, of the value that the text reads as.
fn bill_in(alloc: Global, text: &[u8], json: &Json) -> Result<Option<Checksum>, NoMemory>
    requires reads { Reads text.now (view json.now) }
    requires lawful { IsLawful (view json.now) }
    requires texts { HasTexts (view json.now) }
    ensures { IfOk result (Finds (λ bill. IsDocumentOf bill text.now)) }
{
    if nests_within(json, DEEPEST) {
        bill_of_flat(alloc, text, json)
    } else {
        Ok(None)
    }
}

// The same, of a value that nests no deeper than a document does.
fn bill_of_flat(alloc: Global, text: &[u8], json: &Json) -> Result<Option<Checksum>, NoMemory>
    requires reads { Reads text.now (view json.now) }
    requires lawful { IsLawful (view json.now) }
    requires texts { HasTexts (view json.now) }
    requires nests { depth (view json.now) ≤ 126 }
    ensures { IfOk result (Finds (λ bill. IsDocumentOf bill text.now)) }
{
    let Some(document) = document_of(alloc, json)? else {
        return Ok(None);
    };
    if are_same(document.text().as_slice(), text) {
        Ok(Some(document.bill()))
    } else {
        Ok(None)
    }
}

/// The document that a value is.
pub(crate) fn document_of(alloc: Global, json: &Json) -> Result<Option<Document>, NoMemory>
    ensures { IfOk result (Finds (λ (document : DocumentRecord). document_of (view json.now) ≡ Ok document)) }
{
    match Document::of_json(alloc, json) {
        Ok(document) => Ok(Some(document)),
        Err(DocumentFault::NoMemory) => Err(NoMemory),
        Err(_) => Ok(None),
    }
}

/// The payload of a text in the compact layout.
fn payload_of(alloc: Global, text: &SignedText) -> Result<Option<Json>, NoMemory>
    ensures { IfOk result (λ found. MatchOption found ((payload : Value) → ¬ HasPayload text.now payload)
        (λ json. HasPayload text.now (view json))) }
{
    match split(alloc, text.0.as_slice(), MAX_SIGNED_TEXT) {
        Ok(parts) => read_if_any(alloc, parts.payload.as_slice()),
        Err(SplitFault::NotCompact) => Ok(None),
        Err(SplitFault::NoMemory) => Err(NoMemory),
    }
}

/// The manifest that a signed text says.
pub(crate) fn manifest_of(alloc: Global, text: &SignedText) -> Result<Option<Manifest>, NoMemory>
    ensures { IfOk result (Finds (ManifestIsItsText text.now)) }
{
    match payload_of(alloc, text)? {
        Some(payload) => manifest_in(alloc, &payload),
        None => Ok(None),
    }
}

fn manifest_in(alloc: Global, json: &Json) -> Result<Option<Manifest>, NoMemory>
    ensures { IfOk result (Finds (λ (manifest : Manifest). manifest_of (view json.now) ≡ Ok manifest)) }
{
    match envelope_manifest::decode(alloc, json) {
        Ok(manifest) => Ok(Some(manifest)),
        Err(ManifestFault::ManifestForm(_)) => Ok(None),
        Err(ManifestFault::NoMemory) => Err(NoMemory),
    }
}

/// The link that a signed text of an entry makes.
pub(crate) fn link_of(alloc: Global, text: SignedText) -> Result<Option<ChainLink>, NoMemory>
    ensures { IfOk result (Finds (IsLinkOf text)) }
{
    match entry_of(alloc, &text)? {
        Some(entry) => {
            let name = checksum(text.0.as_slice());
            Ok(Some(ChainLink { text, name, entry }))
        }
        None => Ok(None),
    }
}

// The entry that a signed text says.
fn entry_of(alloc: Global, text: &SignedText) -> Result<Option<Entry>, NoMemory>
    ensures { IfOk result (Finds (SaysEntry text.now)) }
{
    match payload_of(alloc, text)? {
        Some(payload) => entry_in(alloc, &payload),
        None => Ok(None),
    }
}

fn entry_in(alloc: Global, json: &Json) -> Result<Option<Entry>, NoMemory>
    ensures { IfOk result (Finds (λ (entry : Entry). entry_of (view json.now) ≡ Ok entry)) }
{
    match decode(alloc, json) {
        Ok(entry) => Ok(Some(entry)),
        Err(EntryFault::EntryForm(_)) => Ok(None),
        Err(EntryFault::NoMemory) => Err(NoMemory),
    }
}

/// The chain that signed texts make.
pub(crate) fn chain_of(alloc: Global, texts: TextList) -> Result<Option<Chain>, NoMemory>
    ensures { IfOk result (Finds (AreLinksOf texts)) }
{
    links_of(alloc, texts.into_vec())
}

fn links_of(alloc: Global, texts: Vec<SignedText>) -> Result<Option<Chain>, NoMemory>
    ensures { IfOk result (Finds (AreLinksOf texts.items)) }
{
    let mut links = Vec::with_capacity(alloc, texts.len())?;
    for text in texts {
        let Some(link) = link_of(alloc, text)? else {
            return Ok(None);
        };
        links.push(link)?;
    }
    Ok(Some(Chain::from_vec(alloc, links)?))
}
