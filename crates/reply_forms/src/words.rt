//! The words of places, titles, limits and fields.
ghost use Rattle.std.specs.Prelude.{◌≡◌};
ghost use Rattle.reply_forms.specs.Words.{field_name, limit_text, place_text, state_text};

use ebl_base::{LimitKind, PlaceTag};
use title_fold::Title;
use transport_document::DocumentField;

/// The word of a place in a reply, as `PARTING`.
pub fn place_text(place: PlaceTag) -> &'static str
    ensures { result.now ≡ place_text place }
{
    match place {
        PlaceTag::Absent => "ABSENT",
        PlaceTag::Held => "HELD",
        PlaceTag::Parting => "PARTING",
        PlaceTag::Gone => "GONE",
    }
}

/// The word of the state that a title is in, as `LIVE`.
pub fn state_text(title: Title) -> &'static str
    ensures { result.now ≡ state_text title }
{
    match title {
        Title::Signed { .. } => "SIGNED",
        Title::Live { .. } => "LIVE",
        Title::Asked { .. } => "ASKED",
        Title::Ended { .. } => "ENDED",
    }
}

/// The word of a limit, as `DOCUMENT_SIZE`.
pub fn limit_text(which: LimitKind) -> &'static str
    ensures { result.now ≡ limit_text which }
{
    match which {
        LimitKind::Entries => "ENTRIES",
        LimitKind::Transactions => "TRANSACTIONS",
        LimitKind::DocumentSize => "DOCUMENT_SIZE",
        LimitKind::Documents => "DOCUMENTS",
        LimitKind::DocumentBytes => "DOCUMENT_BYTES",
    }
}

/// The name of a member of a transport document.
pub fn field_name(field: DocumentField) -> &'static str
    ensures { result.now ≡ field_name field }
{
    match field {
        DocumentField::TransportDocumentReference => "transportDocumentReference",
        DocumentField::CarrierCode => "carrierCode",
        DocumentField::CarrierCodeListProvider => "carrierCodeListProvider",
        DocumentField::TransportDocumentTypeCode => "transportDocumentTypeCode",
        DocumentField::IsToOrder => "isToOrder",
    }
}
