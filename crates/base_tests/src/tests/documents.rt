//! Documents, and values that are none. In these texts `'` stands for `"`.
use crate::tests::comparing::{same, same_bytes};
use crate::tests::making::{json, quoted};
use document_checksum::from_text;
use ebl_base::{CarrierCode, Copied, Provider};
use std::alloc::{AllocError, Global};
use std::process::Abort;
use std::test::Fail;
use transport_document::{Document, DocumentFault, DocumentField};

// The first fault, with a second one behind it where there can be one.
const FAULTS: [(&str, DocumentFault); 17] = [
    (
        "[]",
        DocumentFault::DocumentForm(DocumentField::TransportDocumentReference),
    ),
    (
        "{}",
        DocumentFault::DocumentForm(DocumentField::TransportDocumentReference),
    ),
    (
        "{'carrierCode':[],'carrierCodeListProvider':'NMFTA','transportDocumentTypeCode':'BOL','isToOrder':true}",
        DocumentFault::DocumentForm(DocumentField::TransportDocumentReference),
    ),
    (
        "{'transportDocumentReference':'','carrierCode':'OCNL','carrierCodeListProvider':'NMFTA','transportDocumentTypeCode':'BOL','isToOrder':0}",
        DocumentFault::DocumentForm(DocumentField::TransportDocumentReference),
    ),
    (
        "{'transportDocumentReference':null,'carrierCode':'OCNL','carrierCodeListProvider':'NMFTA','transportDocumentTypeCode':'BOL','isToOrder':0}",
        DocumentFault::DocumentForm(DocumentField::TransportDocumentReference),
    ),
    (
        "{'transportDocumentReference':'OCNL0000001','carrierCodeListProvider':[],'transportDocumentTypeCode':'BOL','isToOrder':true}",
        DocumentFault::DocumentForm(DocumentField::CarrierCode),
    ),
    (
        "{'transportDocumentReference':'OCNL0000001','carrierCode':'OCNLX','carrierCodeListProvider':'NMFTA','transportDocumentTypeCode':'BOL','isToOrder':0}",
        DocumentFault::DocumentForm(DocumentField::CarrierCode),
    ),
    (
        "{'transportDocumentReference':'OCNL0000001','carrierCode':'','carrierCodeListProvider':'NMFTA','transportDocumentTypeCode':'BOL','isToOrder':0}",
        DocumentFault::DocumentForm(DocumentField::CarrierCode),
    ),
    (
        "{'transportDocumentReference':'OCNL0000001','carrierCode':'OCNL','transportDocumentTypeCode':[],'isToOrder':true}",
        DocumentFault::DocumentForm(DocumentField::CarrierCodeListProvider),
    ),
    (
        "{'transportDocumentReference':'OCNL0000001','carrierCode':'OCNL','carrierCodeListProvider':'nmfta','transportDocumentTypeCode':'BOL','isToOrder':0}",
        DocumentFault::DocumentForm(DocumentField::CarrierCodeListProvider),
    ),
    (
        "{'transportDocumentReference':'OCNL0000001','carrierCode':'OCNL','carrierCodeListProvider':'NMFTA','isToOrder':[]}",
        DocumentFault::DocumentForm(DocumentField::TransportDocumentTypeCode),
    ),
    (
        "{'transportDocumentReference':'OCNL0000001','carrierCode':'OCNL','carrierCodeListProvider':'NMFTA','transportDocumentTypeCode':'bol','isToOrder':0}",
        DocumentFault::DocumentForm(DocumentField::TransportDocumentTypeCode),
    ),
    (
        "{'transportDocumentReference':'OCNL0000001','carrierCode':'OCNL','carrierCodeListProvider':'NMFTA','transportDocumentTypeCode':true,'isToOrder':0}",
        DocumentFault::DocumentForm(DocumentField::TransportDocumentTypeCode),
    ),
    (
        "{'transportDocumentReference':'OCNL0000001','carrierCode':'OCNL','carrierCodeListProvider':'NMFTA','transportDocumentTypeCode':'SWB'}",
        DocumentFault::DocumentForm(DocumentField::IsToOrder),
    ),
    (
        "{'transportDocumentReference':'OCNL0000001','carrierCode':'OCNL','carrierCodeListProvider':'NMFTA','transportDocumentTypeCode':'BOL','isToOrder':1}",
        DocumentFault::DocumentForm(DocumentField::IsToOrder),
    ),
    (
        "{'transportDocumentReference':'OCNL0000001','carrierCode':'OCNL','carrierCodeListProvider':'NMFTA','transportDocumentTypeCode':'BOL','isToOrder':'true'}",
        DocumentFault::DocumentForm(DocumentField::IsToOrder),
    ),
    (
        "{'transportDocumentReference':'OCNL0000001','carrierCode':'OCNL','carrierCodeListProvider':'NMFTA','transportDocumentTypeCode':'SWB','isToOrder':true}",
        DocumentFault::NotTitle,
    ),
];

// The same document in another order, with white space and a further member; its canonical text; the
// SHA-256 of that by Python's hashlib.
const CAME: &str =
    "{ 'transportDocumentTypeCode':'BOL', 'grossWeight': {'value':24000, 'unit':'KGM'}, 'transportDocumentReference':'OCNL0000001', 'isToOrder':true, 'carrierCodeListProvider':'NMFTA', 'carrierCode':'OCNL' }";

const CANONICAL: &str =
    "{'carrierCode':'OCNL','carrierCodeListProvider':'NMFTA','grossWeight':{'unit':'KGM','value':24000},'isToOrder':true,'transportDocumentReference':'OCNL0000001','transportDocumentTypeCode':'BOL'}";

const BILL: &str = "98ac1e5b84a3169abca8aaaadb053b0bde6bfd0605157fb3504116e61c3b8fa3";

// Whether the value that a text is reads as a document.
fn answer(alloc: Global, text: &str) -> Option<Result<(), DocumentFault>> {
    let json = json(alloc, text).ok()?;
    let document = Document::of_json(alloc, &json);
    drop(json);
    match document {
        Ok(_) => Some(Ok(())),
        Err(fault) => Some(Err(fault)),
    }
}

fn sample_document(alloc: Global) -> Result<Document, Fail> {
    let json = json(alloc, CAME)?;
    let document = Document::of_json(alloc, &json);
    drop(json);
    match document {
        Ok(document) => Ok(document),
        Err(_) => Err("a document".into()),
    }
}

fn assert_sample(rt: &impl Abort, document: &Document, canonical: &[u8]) {
    same_bytes(rt, document.text().as_slice(), canonical);
    let bill = from_text(BILL.as_bytes());
    same(rt, &"provider", document.provider(), Provider::Nmfta);
    let code = CarrierCode::try_new(b"OCNL");
    same(rt, &"bill", Some(document.bill()), bill);
    same(rt, &"code", Some(document.code()), code);
}

fn assert_copy(
    rt: &impl Abort,
    alloc: Global,
    document: &Document,
    canonical: &[u8],
) -> Result<(), Fail> {
    let copy = document.copy(alloc)?;
    assert_sample(rt, &copy, canonical);
    drop(copy);
    Ok(())
}

#[test]
fn keeps_the_canonical_text(rt: HostRuntime) -> Result<(), Fail> {
    let canonical = quoted(rt.alloc(), CANONICAL)?;
    let document = sample_document(rt.alloc())?;
    assert_sample(&rt, &document, &canonical);
    let copied = assert_copy(&rt, rt.alloc(), &document, &canonical);
    drop(document);
    copied
}

#[test]
fn names_the_first_fault(rt: HostRuntime) {
    for &(text, want) in &FAULTS {
        same(&rt, &text, answer(rt.alloc(), text), Some(Err(want)));
    }
}

fn add_times(text: &mut String, piece: &str, count: usize) -> Result<(), AllocError> {
    for _ in 0..count {
        text.push_str(piece)?;
    }
    Ok(())
}

// Blanks, and a member of so many bytes.
fn add_further(text: &mut String, further: usize, blanks: usize) -> Result<(), AllocError> {
    add_times(text, " ", blanks)?;
    text.push_str("'more':'")?;
    add_times(text, "x", further)
}

fn add_reference(text: &mut String, reference: &str) -> Result<(), AllocError> {
    text.push_str("','transportDocumentReference':'")?;
    text.push_str(reference)?;
    text.push_str("'}")
}

// A document with this reference, and with so many bytes in a further member behind so many blanks.
fn text_of(
    alloc: Global,
    reference: &str,
    further: usize,
    blanks: usize,
) -> Result<String, AllocError> {
    let mut text = String::from_str(
        alloc,
        "{'carrierCode':'OCNL','carrierCodeListProvider':'NMFTA','isToOrder':true,'transportDocumentTypeCode':'BOL',",
    )?;
    add_further(&mut text, further, blanks)?;
    add_reference(&mut text, reference)?;
    Ok(text)
}

// Whether a document is read, or why it isn't.
type Answer = Option<Result<(), DocumentFault>>;

const READ: Answer = Some(Ok(()));

// Characters are Unicode scalar values and not bytes.
const REFERENCES: [(&str, Answer); 3] = [
    ("ABCDEFGHIJKLMNOPQRST", READ),
    (
        "ABCDEFGHIJKLMNOPQRSTU",
        Some(Err(DocumentFault::DocumentForm(DocumentField::TransportDocumentReference))),
    ),
    (
        "\u{20ac}\u{20ac}\u{20ac}\u{20ac}\u{20ac}\u{20ac}\u{20ac}\u{20ac}\u{20ac}\u{20ac}\u{1f600}\u{1f600}\u{1f600}\u{1f600}\u{1f600}\u{1f600}\u{1f600}\u{1f600}\u{1f600}\u{1f600}",
        READ,
    ),
];

fn reference_row(
    rt: &impl Abort,
    alloc: Global,
    reference: &str,
    want: Answer,
) -> Result<(), AllocError> {
    let text = text_of(alloc, reference, 0, 0)?;
    same(rt, &reference, answer(alloc, &text), want);
    Ok(())
}

// Bytes in a further member, and blanks. The limit of bytes is that of the canonical text, and not of the text as it
// came.
const SIZES: [(usize, usize, Answer); 2] = [
    (261984, 300_000, READ),
    (261985, 0, Some(Err(DocumentFault::TooLarge))),
];

fn size_row(
    rt: &impl Abort,
    alloc: Global,
    further: usize,
    blanks: usize,
    want: Answer,
) -> Result<(), AllocError> {
    let text = text_of(alloc, "OCNL0000001", further, blanks)?;
    same(rt, &further, answer(alloc, &text), want);
    Ok(())
}

#[test]
fn texts_at_their_limits(rt: HostRuntime) -> Result<(), Fail> {
    for &(reference, want) in &REFERENCES {
        reference_row(&rt, rt.alloc(), reference, want)?;
    }
    for &(further, blanks, want) in &SIZES {
        size_row(&rt, rt.alloc(), further, blanks, want)?;
    }
    Ok(())
}
