//! What holds of every manifest and every body. The functions do nothing: their contracts are the laws.
ghost use Rattle.std.specs.Prelude.{◌≡◌, ◌≤◌, ◌<◌, ℕ, List, Ok, length};
ghost use Rattle.canonical_json.specs.Value.{Value, depth};
ghost use Rattle.canonical_json.specs.Canon.{canon};
ghost use Rattle.canonical_json.specs.Lawful.{IsLawful, HasTexts};
ghost use Rattle.canonical_json.specs.Reading.{Reads};
ghost use Rattle.envelope_manifest.specs.declared.piece.Piece.{Piece};
ghost use Rattle.envelope_manifest.specs.declared.manifest.Manifest.{Manifest};
ghost use Rattle.envelope_manifest.specs.Piece.{IsPiece, piece_of, piece_value};
ghost use Rattle.envelope_manifest.specs.Manifest.{IsManifest, manifest_of, manifest_value};
ghost use Rattle.envelope_manifest.specs.Body.{BodyRecord, IsBody, ReadsAs, body_of, body_value};

use canonical_json::{canonical_reads, equal_texts_have_equal_values};

/// A document that a manifest may list is read from its written form. That form may be written as JSON, and its text
/// reads as it.
pub fn written_pieces_read_back()
    ensures again { (piece : Piece) → IsPiece piece → piece_of (piece_value piece) ≡ Ok piece }
    ensures lawful { (piece : Piece) → IsPiece piece → IsLawful (piece_value piece) }
    ensures texts { (piece : Piece) → IsPiece piece → HasTexts (piece_value piece) }
    ensures depth { (piece : Piece) → depth (piece_value piece) ≡ 1 }
    ensures reads { (piece : Piece) → IsPiece piece → Reads (canon (piece_value piece)) (piece_value piece) }
{
    canonical_reads();
}

/// Two such documents with one text are one document.
pub fn pieces_with_one_text_are_one()
    ensures { (a b : Piece) → IsPiece a → IsPiece b → canon (piece_value a) ≡ canon (piece_value b) → a ≡ b }
{
    written_pieces_read_back();
    equal_texts_have_equal_values();
}

/// A well-formed manifest is read from its written form. That form may be written as JSON, and its text
/// reads as it.
pub fn written_manifests_read_back()
    ensures again { (manifest : Manifest) → IsManifest manifest → manifest_of (manifest_value manifest) ≡ Ok manifest }
    ensures lawful { (manifest : Manifest) → IsManifest manifest → IsLawful (manifest_value manifest) }
    ensures texts { (manifest : Manifest) → IsManifest manifest → HasTexts (manifest_value manifest) }
    ensures depth { (manifest : Manifest) → depth (manifest_value manifest) ≤ 3 }
    ensures reads { (manifest : Manifest) → IsManifest manifest
        → Reads (canon (manifest_value manifest)) (manifest_value manifest) }
{
    canonical_reads();
}

/// Two manifests with one text are one manifest.
pub fn manifests_with_one_text_are_one()
    ensures { (a b : Manifest) → IsManifest a → IsManifest b
        → canon (manifest_value a) ≡ canon (manifest_value b) → a ≡ b }
{
    written_manifests_read_back();
    equal_texts_have_equal_values();
}

/// The canonical text of a well-formed manifest has at most 8,163 bytes, and that of a document that it lists at most
/// 499.
pub fn written_manifests_are_short()
    ensures manifest { (manifest : Manifest) → IsManifest manifest
        → length (canon (manifest_value manifest)) ≤ 8163 }
    ensures piece { (piece : Piece) → IsPiece piece → length (canon (piece_value piece)) ≤ 499 }
{}

/// The document of a body nests less deep than the body: at most 126 deep, where the body nests at most 127.
pub fn documents_nest_in_their_bodies()
    ensures { (v : Value) (body : BodyRecord) → body_of v ≡ Ok body → depth body.document < depth v }
{}

/// A well-formed body, with a document that nests at most 126 deep, is read from its text.
pub fn written_bodies_read_back()
    ensures { (body : BodyRecord) → IsBody body → depth body.document ≤ 126
        → ReadsAs (canon (body_value body)) body }
{
    canonical_reads();
}

/// A text is read as one body at most.
pub fn texts_have_one_body()
    ensures { (bytes : List ℕ) (a b : BodyRecord) → ReadsAs bytes a → ReadsAs bytes b → a ≡ b }
{}

/// Two bodies with one text are one body.
pub fn bodies_with_one_text_are_one()
    ensures { (a b : BodyRecord) → IsBody a → IsBody b → canon (body_value a) ≡ canon (body_value b) → a ≡ b }
{
    equal_texts_have_equal_values();
}
