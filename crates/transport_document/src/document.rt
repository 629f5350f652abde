//! The document of a bill.
ghost use Rattle.std.specs.Prelude.{◌≡◌, ◌+◌, Ok, IfOk, IfErr};
ghost use Rattle.canonical_json.specs.View.{view};
ghost use Rattle.canonical_json.specs.Canon.{canon};
ghost use Rattle.transport_document.specs.DocumentRecord.{bill_of};
ghost use Rattle.transport_document.specs.Reading.{document_of, within_limit, IsFault};

use crate::fault::{DocumentFault, DocumentField};
use crate::members::{has_reference, required_title};
use canonical_json::{Json, flag_of, write};
use document_checksum::checksum;
use ebl_base::{
    ByteList, CarrierCode, Checksum, Copied, MAX_TRANSPORT_DOCUMENT, NoMemory, Provider,
};
use json_forms::{required_carrier_code, required_provider};
use std::alloc::Global;
use std::marker::Model;

/// A transport document that gives title, by its canonical text (RFC 8785).
///
/// Members that aren't read are part of the text, and so of the name of the bill.
#[derive(Drop)]
pub struct Document {
    text: ByteList,
    // The checksum of the text, which is computed once.
    bill: Checksum,
    provider: Provider,
    code: CarrierCode,
}

impl Model for Document {
    ghost use Rattle.std.specs.Prelude.{◌≡◌};
    ghost use Rattle.document_checksum.specs.Digest.{checksum_of};
    ghost use Rattle.transport_document.specs.DocumentRecord.{DocumentRecord};

    ghost Value = { DocumentRecord };

    ghost view = { λ s. record { text = s.text; provider = s.provider; code = s.code } };

    ghost invariant = { λ s. s.bill ≡ checksum_of s.text };
}

impl Document {
    /// The document that a value is: an object with `transportDocumentReference`, `carrierCode`,
    /// `carrierCodeListProvider`, `transportDocumentTypeCode` and `isToOrder`, each of the form that
    /// [`DocumentField`](crate::DocumentField) states. Further members are kept unread.
    ///
    /// The first fault that applies is answered: [`DocumentFault::DocumentForm`] with the first wrong field in that
    /// order, [`DocumentFault::NotTitle`] for a sea waybill, [`DocumentFault::TooLarge`] past 262,144 bytes of
    /// canonical text. It writes the text once and computes one checksum.
    pub fn of_json(alloc: Global, json: &Json) -> Result<Document, DocumentFault>
        ensures ok { IfOk result (λ document. document_of (view json.now) ≡ Ok document) }
        ensures err { IfErr result (IsFault (document_of (view json.now))) }
    {
        if !has_reference(json) {
            return Err(DocumentFault::DocumentForm(DocumentField::TransportDocumentReference));
        }
        let Some(code) = required_carrier_code(json, "carrierCode") else {
            return Err(DocumentFault::DocumentForm(DocumentField::CarrierCode));
        };
        let Some(provider) = required_provider(json, "carrierCodeListProvider") else {
            return Err(DocumentFault::DocumentForm(DocumentField::CarrierCodeListProvider));
        };
        let Some(gives_title) = required_title(json) else {
            return Err(DocumentFault::DocumentForm(DocumentField::TransportDocumentTypeCode));
        };
        if flag_of(json, "isToOrder").is_none() {
            return Err(DocumentFault::DocumentForm(DocumentField::IsToOrder));
        }
        if !gives_title {
            return Err(DocumentFault::NotTitle);
        }
        Document::with_text(write(alloc, json)?, code, provider)
    }

    fn with_text(
        text: ByteList,
        code: CarrierCode,
        provider: Provider,
    ) -> Result<Document, DocumentFault>
        ensures { result ≡ within_limit text code provider }
    {
        if text.len() > MAX_TRANSPORT_DOCUMENT {
            return Err(DocumentFault::TooLarge);
        }
        let bill = checksum(text.as_slice());
        Ok(Document {
            text,
            bill,
            provider,
            code,
        })
    }

    /// The name of the bill: the SHA-256 checksum (FIPS 180-4) of the canonical text.
    pub fn bill(&self) -> Checksum
        ensures { result ≡ bill_of self.now }
    {
        self.bill
    }

    /// The canonical text of the document (RFC 8785).
    pub fn text(&self) -> &ByteList
        ensures { result.now ≡ self.now.text }
    {
        &self.text
    }

    /// Who keeps the list of the carrier's code.
    pub fn provider(&self) -> Provider
        ensures { result ≡ self.now.provider }
    {
        self.provider
    }

    /// The carrier's code in that list.
    pub fn code(&self) -> CarrierCode
        ensures { result ≡ self.now.code }
    {
        self.code
    }
}

impl Copied for Document {
    fn copy(&self, alloc: Global) -> Result<Self, NoMemory> {
        let text = self.text.copy(alloc)?;
        Ok(Document {
            text,
            bill: self.bill,
            provider: self.provider,
            code: self.code,
        })
    }
}
