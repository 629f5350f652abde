//! Why a value is no document of a bill.

use ebl_base::NoMemory;

/// A member of a transport document that is read.
#[derive(Clone, Copy, Debug, PartialEq, Eq)]
pub enum DocumentField {
    /// `transportDocumentReference`, a text of 1 to 20 characters (Unicode scalar values).
    TransportDocumentReference,
    /// `carrierCode`, a text of 1 to 4 characters `A` to `Z` or `0` to `9`.
    CarrierCode,
    /// `carrierCodeListProvider`, `SMDG` or `NMFTA`.
    CarrierCodeListProvider,
    /// `transportDocumentTypeCode`, `BOL` or `SWB`.
    TransportDocumentTypeCode,
    /// `isToOrder`, a truth value.
    IsToOrder,
}

/// Why a value is not taken as the document of a bill. The first that applies is answered.
#[derive(Clone, Copy, Debug, PartialEq, Eq)]
pub enum DocumentFault {
    /// The value is no object (the field is then the first), or this is the first field that is absent
    /// or of another form.
    DocumentForm(DocumentField),
    /// The document is a sea waybill, `SWB`, which gives no title.
    NotTitle,
    /// The canonical text has more than 262,144 bytes.
    TooLarge,
    /// Memory ran out.
    NoMemory,
}

impl From<NoMemory> for DocumentFault {
    ghost use Rattle.std.specs.Prelude.{◌≡◌};
    ghost use Rattle.transport_document.specs.declared.fault.DocumentFault.TheVariants as faults;

    ghost from_gives = { λ _ e. e ≡ faults.NoMemory };

    fn from(_: NoMemory) -> DocumentFault {
        DocumentFault::NoMemory
    }
}
