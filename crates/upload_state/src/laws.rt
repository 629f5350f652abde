//! What holds of every reference and every answer that an upload has started. The functions do nothing: their contracts
//! are the laws.
ghost use Rattle.std.specs.Prelude.{◌≡◌, ℕ, List, IsTrue, Some, filter};
ghost use Rattle.canonical_json.specs.Canon.{canon};
ghost use Rattle.ebl_base.specs.declared.checksum.Checksum.{Checksum};
ghost use Rattle.ebl_base.specs.declared.reference.Reference.{Reference};
ghost use Rattle.envelope_manifest.specs.declared.manifest.Manifest.{Manifest};
ghost use Rattle.envelope_manifest.specs.Manifest.{are_distinct, checksums_of};
ghost use Rattle.upload_state.specs.declared.started.Started.{Started};
ghost use Rattle.upload_state.specs.Piece.{is_absent, missing_of};
ghost use Rattle.upload_state.specs.Reference.{IsReference, reference_in, reference_text};
ghost use Rattle.upload_state.specs.Started.{IsStarted, ReadsAs, started_value};

use canonical_json::{canonical_reads, equal_texts_have_equal_values};

/// Of documents with distinct checksums, as a manifest has them, just those are missing that aren't stored.
pub fn distinct_documents_are_missing_where_not_stored()
    ensures { (manifest : Manifest) (stored : List Checksum) → IsTrue (are_distinct (checksums_of manifest.documents))
        → missing_of manifest stored ≡ filter (is_absent stored) (checksums_of manifest.documents) }
{}

/// A reference is read from its text, and what is read from a text is a reference.
pub fn written_references_read_back()
    ensures again { (r : Reference) → IsReference r → reference_in (reference_text r) ≡ Some r }
    ensures form { (text : List ℕ) (r : Reference) → reference_in text ≡ Some r → IsReference r }
{}

/// An answer of 1 to 16 checksums is read from its text.
pub fn written_answers_read_back()
    ensures { (started : Started) → IsStarted started → ReadsAs (canon (started_value started)) started }
{
    canonical_reads();
}

/// A text is read as one answer at most.
pub fn texts_have_one_answer()
    ensures { (bytes : List ℕ) (a b : Started) → ReadsAs bytes a → ReadsAs bytes b → a ≡ b }
{}

/// Two answers with one text are one answer.
pub fn answers_with_one_text_are_one()
    ensures { (a b : Started) → IsStarted a → IsStarted b
        → canon (started_value a) ≡ canon (started_value b) → a ≡ b }
{
    equal_texts_have_equal_values();
}
