//! Documents and the bills that they begin.
ghost use Rattle.std.specs.Prelude.{◌≡◌, IfSome};
ghost use Rattle.std.specs.String.{string_bytes};
ghost use Rattle.document_checksum.specs.Digest.{IsChecksum, checksum_of};
ghost use Rattle.sample_bills.specs.Documents.{document_text, seven_digits};

use document_checksum::{checksum, texts_stand_for_checksums};
use ebl_base::Checksum;
use std::alloc::Global;

/// The canonical text of a transport document to order of the carrier OCNL, whose reference is OCNL and this number, in
/// seven digits or as many as it has. None comes if memory runs out.
#[tactic(auto, unfolding(crate::specs::Documents::document_text))]
pub fn document(alloc: Global, number: u32) -> Option<String>
    ensures { IfSome result (λ text. string_bytes text ≡ document_text number) }
{
    let digits = seven_digits(alloc, number)?;
    let digits = digits.as_str();
    format!(in alloc;
        "{{\"carrierCode\":\"OCNL\",\"carrierCodeListProvider\":\"NMFTA\",\"isToOrder\":true,\"transportDocumentReference\":\"OCNL{digits}\",\"transportDocumentTypeCode\":\"BOL\"}}"
    ).ok()
}

#[tactic(auto, using(crate::proofs::Padding::padded_to_seven))]
fn seven_digits(alloc: Global, number: u32) -> Option<String>
    ensures { IfSome result (λ text. string_bytes text ≡ seven_digits number) }
{
    format!(in alloc; "{number:07}").ok()
}

/// The name of the bill that the document of this number begins. None comes if memory runs out.
pub fn bill(alloc: Global, number: u32) -> Option<Checksum>
    ensures name { IfSome result (λ bill. bill ≡ checksum_of (document_text number)) }
    ensures form { IfSome result IsChecksum }
{
    texts_stand_for_checksums();
    Some(checksum(document(alloc, number)?.as_bytes()))
}
