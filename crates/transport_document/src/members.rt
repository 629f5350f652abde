//! The members of a transport document that have a form of their own.
ghost use Rattle.std.specs.Prelude.{◌≡◌, length, is_some};
ghost use Rattle.std.specs.Str.{chars};
ghost use Rattle.canonical_json.specs.View.{view};
ghost use Rattle.transport_document.specs.Members.{gives_title, reference_of, required_reference, required_title};

use canonical_json::{Json, text_of};
use ebl_base::MAX_DOCUMENT_REFERENCE;

/// Whether there is a reference of 1 to 20 characters.
pub(crate) fn has_reference(json: &Json) -> bool
    ensures { result ≡ is_some (required_reference (view json.now)) }
{
    match text_of(json, "transportDocumentReference") {
        Some(text) => is_reference(text.as_str()),
        None => false,
    }
}

fn is_reference(text: &str) -> bool
    ensures { result ≡ is_some (reference_of text.now) }
{
    let count = count_of(text);
    1 <= count && count <= MAX_DOCUMENT_REFERENCE
}

// How many characters a text has. It goes over the text.
fn count_of(text: &str) -> usize
    ensures { result ≡ length (chars text.now) }
{
    text.chars().count()
}

/// Whether the document gives title: a bill of lading, `BOL`, does, and a sea waybill, `SWB`, doesn't. None exactly
/// when its type is neither.
pub(crate) fn required_title(json: &Json) -> Option<bool>
    ensures { result ≡ required_title (view json.now) }
{
    gives_title(
        text_of(json, "transportDocumentTypeCode")?
            .as_str()
            .as_bytes(),
    )
}

fn gives_title(text: &[u8]) -> Option<bool>
    ensures { result ≡ gives_title text.now }
{
    match text {
        b"BOL" => Some(true),
        b"SWB" => Some(false),
        _ => None,
    }
}
