//! Manifests and the documents that they list, as they are written: without further members.
ghost use Rattle.std.specs.Prelude.{◌≡◌, IfOk, IsTrue};
ghost use Rattle.canonical_json.specs.View.{view, items_view};
ghost use Rattle.canonical_json.specs.Lawful.{IsLawful, are_lawful};
ghost use Rattle.json_forms.specs.Writing.{each_written};
ghost use Rattle.envelope_manifest.specs.Piece.{piece_value};
ghost use Rattle.envelope_manifest.specs.Manifest.{manifest_value};

use crate::manifest::Manifest;
use crate::piece::Piece;
use canonical_json::Json;
use ebl_base::NoMemory;
use json_forms::{checksum_member, list_json, member, number_member, object_json, text_member};
use std::alloc::Global;

/// The written form of a manifest: an object with `bill`, `documents` and `last` alone. [`decode`](crate::decode)
/// takes it where the manifest is well-formed.
pub fn encode(alloc: Global, manifest: &Manifest) -> Result<Json, NoMemory>
    ensures value { IfOk result (λ json. view json ≡ manifest_value manifest.now) }
    ensures lawful { IfOk result (λ json. IsLawful (view json)) }
{
    let pieces = pieces_json(alloc, manifest.documents.as_slice())?;
    let mut members = Vec::with_capacity(alloc, 3)?;
    members.push(checksum_member(alloc, "bill", manifest.bill)?)?;
    members.push(member(alloc, "documents", list_json(pieces))?)?;
    members.push(checksum_member(alloc, "last", manifest.last)?)?;
    Ok(object_json(members))
}

fn pieces_json(alloc: Global, pieces: &[Piece]) -> Result<Vec<Json>, NoMemory>
    ensures value { IfOk result (λ items. items_view items.items ≡ each_written piece_value pieces.now) }
    ensures lawful { IfOk result (λ items. IsTrue (are_lawful (items_view items.items))) }
{
    let mut items = Vec::with_capacity(alloc, pieces.len())?;
    for piece in pieces {
        items.push(encode_piece(alloc, piece)?)?;
    }
    Ok(items)
}

/// The written form of a document that a manifest lists: an object with `checksum`, `media`, `name` and `size` alone.
/// [`decode_piece`](crate::decode_piece) takes it where the document is well-formed.
pub fn encode_piece(alloc: Global, piece: &Piece) -> Result<Json, NoMemory>
    ensures value { IfOk result (λ json. view json ≡ piece_value piece.now) }
    ensures lawful { IfOk result (λ json. IsLawful (view json)) }
{
    let mut members = Vec::with_capacity(alloc, 4)?;
    members.push(checksum_member(alloc, "checksum", piece.checksum)?)?;
    members.push(text_member(alloc, "media", piece.media.as_str())?)?;
    members.push(text_member(alloc, "name", piece.name.as_str())?)?;
    members.push(number_member(alloc, "size", piece.size as u64)?)?;
    Ok(object_json(members))
}
