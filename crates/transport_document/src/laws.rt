//! What holds of every document. The functions do nothing: their contracts are the laws.
ghost use Rattle.std.specs.Prelude.{◌≡◌, ◌≤◌, Ok};
ghost use Rattle.canonical_json.specs.Value.{Value, depth};
ghost use Rattle.canonical_json.specs.Lawful.{IsLawful, HasTexts};
ghost use Rattle.canonical_json.specs.Reading.{Reads};
ghost use Rattle.transport_document.specs.DocumentRecord.{DocumentRecord};
ghost use Rattle.transport_document.specs.Reading.{document_of};

use canonical_json::{canonical_reads, equal_texts_have_equal_values};

/// The text of a document reads as the value that the document was, nested at most 127 deep: so a
/// document that is kept as its text is the same document when it is read again.
pub fn document_texts_read_back()
    ensures { (v : Value) (document : DocumentRecord) → document_of v ≡ Ok document
        → IsLawful v → HasTexts v → depth v ≤ 127 → Reads document.text v }
{
    canonical_reads();
}

/// Two documents with one text are one document.
pub fn documents_with_one_text_are_one()
    ensures { (v w : Value) (a b : DocumentRecord) → document_of v ≡ Ok a → document_of w ≡ Ok b
        → IsLawful v → IsLawful w → a.text ≡ b.text → a ≡ b }
{
    equal_texts_have_equal_values();
}
