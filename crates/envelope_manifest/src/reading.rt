//! Manifests and the documents that they list, as they are read: the first wrong field ends the reading.
ghost use Rattle.std.specs.Prelude.{◌≡◌, Ok, Some, IsTrue, option_map, nat_le, not, IfOk, IfErr, IfSome};
ghost use Rattle.std.specs.Str.{IsUtf8};
ghost use Rattle.canonical_json.specs.View.{view, items_view};
ghost use Rattle.std.specs.Set.{is_member};
ghost use Rattle.ebl_base.specs.Checksum.{checksum_eq};
ghost use Rattle.json_forms.specs.Reading.{all_of, required};
ghost use Rattle.envelope_manifest.specs.Piece.{IsPiece, has_no_control, is_control, is_plain_text, piece_in, piece_of, plain_text, required_plain_text};
ghost use Rattle.envelope_manifest.specs.Manifest.{AreDocuments, ArePieces, IsFault, IsManifest, are_distinct, checksums_of, go_together, manifest_of, pieces_in, required_pieces, total_size};
ghost use Rattle.envelope_manifest.specs.declared.fault.ManifestField.TheVariants.{Documents};

use crate::fault::{ManifestFault, ManifestField};
use crate::manifest::Manifest;
use crate::piece::{Piece, PieceList};
use canonical_json::{Json, text_of};
use ebl_base::{
    CharList, Checksum, MAX_DOCUMENT_MEDIA, MAX_DOCUMENT_NAME, MAX_DOCUMENT_SIZE, MAX_DOCUMENTS,
    MAX_DOCUMENTS_SIZE,
};
use json_forms::{required_checksum, required_items, required_number};
use std::alloc::Global;

/// The most bytes of a document, as a number that is read.
const MOST_BYTES: u64 = MAX_DOCUMENT_SIZE as u64;

/// The manifest that a value is: an object with `bill` and `last`, checksums, and `documents`, a list of at most 16
/// objects as [`decode_piece`] reads them, with distinct checksums, together of at most 4,194,304 bytes. Further
/// members are ignored.
///
/// [`ManifestFault::ManifestForm`] names the first wrong field in that order. It goes over the documents once, and
/// compares their checksums two by two: they are few.
pub fn decode(alloc: Global, json: &Json) -> Result<Manifest, ManifestFault>
    ensures ok { IfOk result (λ manifest. manifest_of (view json.now) ≡ Ok manifest) }
    ensures form { IfOk result (λ manifest. IsManifest manifest) }
    ensures err { IfErr result (IsFault (manifest_of (view json.now))) }
{
    let Some(bill) = required_checksum(json, "bill") else {
        return Err(ManifestFault::ManifestForm(ManifestField::Bill));
    };
    let Some(last) = required_checksum(json, "last") else {
        return Err(ManifestFault::ManifestForm(ManifestField::Last));
    };
    let documents = required_pieces(alloc, json)?;
    Ok(Manifest {
        bill,
        last,
        documents,
    })
}

/// The document that a value lists: an object with `name`, a text of 1 to 128 bytes; `media`, a text of 1 to 64;
/// `size`, 0 to 2,097,152 bytes; `checksum`, 64 hexadecimal digits in lower case. Bytes of a text are those of its
/// UTF-8, and neither text has a character below U+0020 or U+007F. Further members are ignored.
///
/// [`ManifestFault::ManifestForm`] of the documents comes exactly when the value is malformed.
pub fn decode_piece(alloc: Global, json: &Json) -> Result<Piece, ManifestFault>
    ensures ok { IfOk result (λ piece. piece_of (view json.now) ≡ Ok piece) }
    ensures form { IfOk result (λ piece. IsPiece piece) }
    ensures err { IfErr result (IsFault (piece_of (view json.now))) }
{
    let Some(name) = required_plain_text(json, "name", MAX_DOCUMENT_NAME) else {
        return Err(ManifestFault::ManifestForm(ManifestField::Documents));
    };
    let Some(media) = required_plain_text(json, "media", MAX_DOCUMENT_MEDIA) else {
        return Err(ManifestFault::ManifestForm(ManifestField::Documents));
    };
    let Some(size) = required_number(json, "size", 0, MOST_BYTES) else {
        return Err(ManifestFault::ManifestForm(ManifestField::Documents));
    };
    let Some(checksum) = required_checksum(json, "checksum") else {
        return Err(ManifestFault::ManifestForm(ManifestField::Documents));
    };
    let name = CharList::from_text(alloc, name)?;
    let media = CharList::from_text(alloc, media)?;
    Ok(Piece {
        name,
        media,
        size: size as u32,
        checksum,
    })
}

/// The text that the member of that name is, where it has 1 to `most` bytes of UTF-8 and no character below U+0020
/// or U+007F. None if and only if the value is no object with such a member. Allocates nothing.
pub fn required_plain_text<'a>(json: &'a Json, name: &str, most: usize) -> Option<&'a str>
    ensures text { option_map (λ t. t.now) result ≡ required_plain_text name.now most (view json.now) }
    ensures utf8 { IfSome result (λ t. IsUtf8 t.now) }
{
    plain_text(text_of(json, name)?.as_str(), most)
}

fn plain_text(text: &str, most: usize) -> Option<&str>
    ensures text { option_map (λ t. t.now) result ≡ plain_text most text.now }
    ensures utf8 { IfSome result (λ t. IsUtf8 t.now) }
{
    if is_plain_text(text, most) {
        Some(text)
    } else {
        None
    }
}

fn is_plain_text(text: &str, most: usize) -> bool
    ensures { result ≡ is_plain_text most text.now }
{
    1 <= text.len() && text.len() <= most && has_no_control(text)
}

fn has_no_control(text: &str) -> bool
    ensures { result ≡ has_no_control text.now }
{
    text.chars().all(|c| !is_control(c))
}

fn is_control(c: char) -> bool
    ensures { result ≡ is_control c }
{
    c < ' ' || c == '\u{7F}'
}

fn required_pieces(alloc: Global, json: &Json) -> Result<PieceList, ManifestFault>
    ensures ok { IfOk result (λ pieces. required_pieces (view json.now) ≡ Some pieces) }
    ensures form { IfOk result (λ pieces. AreDocuments pieces) }
    ensures err { IfErr result (IsFault (required Documents (required_pieces (view json.now)) Ok)) }
{
    let Some(items) = required_items(json, "documents", 0, MAX_DOCUMENTS) else {
        return Err(ManifestFault::ManifestForm(ManifestField::Documents));
    };
    let pieces = all_pieces(alloc, items)?;
    if !go_together(pieces.as_slice()) {
        return Err(ManifestFault::ManifestForm(ManifestField::Documents));
    }
    Ok(pieces)
}

fn all_pieces(alloc: Global, items: &[Json]) -> Result<PieceList, ManifestFault>
    ensures ok { IfOk result (λ pieces. all_of piece_in (items_view items.now) ≡ Some pieces) }
    ensures form { IfOk result (λ pieces. ArePieces pieces) }
    ensures err { IfErr result (IsFault (required Documents (all_of piece_in (items_view items.now)) Ok)) }
{
    let mut pieces = PieceList::new(alloc);
    for item in items {
        let piece = decode_piece(alloc, item)?;
        pieces.push(piece)?;
    }
    Ok(pieces)
}

fn go_together(pieces: &[Piece]) -> bool
    ensures { result ≡ go_together pieces.now }
{
    are_distinct(pieces) && fit_together(pieces)
}

fn are_distinct(pieces: &[Piece]) -> bool
    ensures { result ≡ are_distinct (checksums_of pieces.now) }
{
    for (i, piece) in pieces.iter().enumerate() {
        if has_checksum(&pieces[i + 1..], piece.checksum) {
            return false;
        }
    }
    true
}

fn has_checksum(pieces: &[Piece], checksum: Checksum) -> bool
    ensures { result ≡ is_member checksum_eq (checksums_of pieces.now) checksum }
{
    for piece in pieces {
        if checksum == piece.checksum {
            return true;
        }
    }
    false
}

fn fit_together(pieces: &[Piece]) -> bool
    ensures { result ≡ nat_le (total_size pieces.now) MAX_DOCUMENTS_SIZE }
{
    let mut room = MAX_DOCUMENTS_SIZE;
    for piece in pieces {
        if room < piece.size {
            return false;
        }
        room -= piece.size;
    }
    true
}
