//! Replies beside their bodies, which were written by hand from docs/script.md and docs/forms.md.
use crate::tests::making::{party, same};
use ebl_base::{
    ByteList, Checksum, ChecksumList, Code, Evidence, LimitKind, NoMemory, PlaceTag, Reference,
    SignedText,
};
use pint_responses::Response;
use platform_requests::{IgnoreReason, Reply, View};
use reply_forms::{ReplyBody, reply_body};
use std::alloc::Global;
use std::process::Abort;
use std::test::Fail;
use title_fold::{FoldRefusal, Title};
use transport_document::{DocumentFault, DocumentField};

const BILL: Checksum = Checksum([0x44; 32]);

fn assert_json(rt: &impl Abort, body: &ReplyBody, text: &str) {
    match body {
        ReplyBody::Json(body) => same(rt, text, body.as_slice(), text.as_bytes()),
        _ => panic!(rt; "no JSON in place of {text}"),
    }
}

fn json_row(rt: &impl Abort, alloc: Global, reply: Reply, text: &str) -> Result<(), NoMemory> {
    let body = reply_body(alloc, reply)?;
    assert_json(rt, &body, text);
    drop(body);
    Ok(())
}

fn assert_nothing(rt: &impl Abort, body: &ReplyBody) {
    assert!(rt; matches!(body, ReplyBody::Nothing), "{body:?}");
}

fn nothing_row(rt: &impl Abort, alloc: Global, reply: Reply) -> Result<(), NoMemory> {
    let body = reply_body(alloc, reply)?;
    assert_nothing(rt, &body);
    drop(body);
    Ok(())
}

#[test]
fn refusals_of_one_word(rt: HostRuntime) -> Result<(), Fail> {
    let alloc = rt.alloc();
    json_row(&rt, alloc, Reply::NotOurs, r#"{"reply":"NOT_OURS"}"#)?;
    json_row(&rt, alloc, Reply::NotCarrier, r#"{"reply":"NOT_CARRIER"}"#)?;
    json_row(&rt, alloc, Reply::KnownBill, r#"{"reply":"KNOWN_BILL"}"#)?;
    Ok(())
}

/// A cause that a refusal names.
trait Cause {
    fn reply(&self) -> Reply;
}

struct NotHere(PlaceTag);

impl Cause for NotHere {
    fn reply(&self) -> Reply {
        Reply::NotHere(self.0)
    }
}

struct NotParting(PlaceTag);

impl Cause for NotParting {
    fn reply(&self) -> Reply {
        Reply::NotParting(self.0)
    }
}

impl Cause for LimitKind {
    fn reply(&self) -> Reply {
        Reply::Limit(*self)
    }
}

impl Cause for IgnoreReason {
    fn reply(&self) -> Reply {
        Reply::Ignored(*self)
    }
}

impl Cause for DocumentFault {
    fn reply(&self) -> Reply {
        Reply::Document(*self)
    }
}

fn assert_causes<C: Cause>(
    rt: &impl Abort,
    alloc: Global,
    rows: &[(C, &str)],
) -> Result<(), NoMemory> {
    for (cause, text) in rows {
        json_row(rt, alloc, cause.reply(), text)?;
    }
    Ok(())
}

const NOT_HERE: [(NotHere, &str); 2] = [
    (
        NotHere(PlaceTag::Absent),
        r#"{"place":"ABSENT","reply":"NOT_HERE"}"#,
    ),
    (
        NotHere(PlaceTag::Parting),
        r#"{"place":"PARTING","reply":"NOT_HERE"}"#,
    ),
];

const NOT_PARTING: [(NotParting, &str); 2] = [
    (
        NotParting(PlaceTag::Held),
        r#"{"place":"HELD","reply":"NOT_PARTING"}"#,
    ),
    (
        NotParting(PlaceTag::Gone),
        r#"{"place":"GONE","reply":"NOT_PARTING"}"#,
    ),
];

#[test]
fn refusals_by_a_party_and_a_rule(rt: HostRuntime) -> Result<(), Fail> {
    let alloc = rt.alloc();
    let unknown = Reply::NoParty(party("ALPH/EXPORT")?);
    json_row(
        &rt,
        alloc,
        unknown,
        r#"{"party":"ALPH/EXPORT","reply":"NO_PARTY"}"#,
    )?;
    let refused = Reply::NotAllowed(FoldRefusal::F7);
    json_row(
        &rt,
        alloc,
        refused,
        r#"{"reply":"NOT_ALLOWED","rule":"F7"}"#,
    )?;
    Ok(())
}

const LIMITS: [(LimitKind, &str); 5] = [
    (LimitKind::Entries, r#"{"reply":"LIMIT","which":"ENTRIES"}"#),
    (
        LimitKind::Transactions,
        r#"{"reply":"LIMIT","which":"TRANSACTIONS"}"#,
    ),
    (
        LimitKind::DocumentSize,
        r#"{"reply":"LIMIT","which":"DOCUMENT_SIZE"}"#,
    ),
    (
        LimitKind::Documents,
        r#"{"reply":"LIMIT","which":"DOCUMENTS"}"#,
    ),
    (
        LimitKind::DocumentBytes,
        r#"{"reply":"LIMIT","which":"DOCUMENT_BYTES"}"#,
    ),
];

const IGNORED: [(IgnoreReason, &str); 6] = [
    (
        IgnoreReason::NotParting,
        r#"{"reason":"NOT_PARTING","reply":"IGNORED"}"#,
    ),
    (IgnoreReason::Form, r#"{"reason":"FORM","reply":"IGNORED"}"#),
    (
        IgnoreReason::Reference,
        r#"{"reason":"REFERENCE","reply":"IGNORED"}"#,
    ),
    (
        IgnoreReason::Signature,
        r#"{"reason":"SIGNATURE","reply":"IGNORED"}"#,
    ),
    (
        IgnoreReason::OtherEntry,
        r#"{"reason":"OTHER_ENTRY","reply":"IGNORED"}"#,
    ),
    (
        IgnoreReason::Passing,
        r#"{"reason":"PASSING","reply":"IGNORED"}"#,
    ),
];

const DOCUMENTS: [(DocumentFault, &str); 7] = [
    (
        DocumentFault::DocumentForm(DocumentField::TransportDocumentReference),
        r#"{"fault":"FORM","field":"transportDocumentReference","reply":"DOCUMENT"}"#,
    ),
    (
        DocumentFault::DocumentForm(DocumentField::CarrierCode),
        r#"{"fault":"FORM","field":"carrierCode","reply":"DOCUMENT"}"#,
    ),
    (
        DocumentFault::DocumentForm(DocumentField::CarrierCodeListProvider),
        r#"{"fault":"FORM","field":"carrierCodeListProvider","reply":"DOCUMENT"}"#,
    ),
    (
        DocumentFault::DocumentForm(DocumentField::TransportDocumentTypeCode),
        r#"{"fault":"FORM","field":"transportDocumentTypeCode","reply":"DOCUMENT"}"#,
    ),
    (
        DocumentFault::DocumentForm(DocumentField::IsToOrder),
        r#"{"fault":"FORM","field":"isToOrder","reply":"DOCUMENT"}"#,
    ),
    (
        DocumentFault::NotTitle,
        r#"{"fault":"NOT_TITLE","reply":"DOCUMENT"}"#,
    ),
    (
        DocumentFault::TooLarge,
        r#"{"fault":"TOO_LARGE","reply":"DOCUMENT"}"#,
    ),
];

#[test]
fn refusals_by_their_causes(rt: HostRuntime) -> Result<(), Fail> {
    let alloc = rt.alloc();
    assert_causes(&rt, alloc, &NOT_HERE)?;
    assert_causes(&rt, alloc, &NOT_PARTING)?;
    assert_causes(&rt, alloc, &LIMITS)?;
    assert_causes(&rt, alloc, &IGNORED)?;
    assert_causes(&rt, alloc, &DOCUMENTS)?;
    Ok(())
}

#[test]
fn replies_without_a_body(rt: HostRuntime) -> Result<(), Fail> {
    let alloc = rt.alloc();
    nothing_row(&rt, alloc, Reply::Document(DocumentFault::NoMemory))?;
    nothing_row(&rt, alloc, Reply::Stored)?;
    nothing_row(&rt, alloc, Reply::UnknownReference)?;
    nothing_row(&rt, alloc, Reply::Sign)?;
    nothing_row(&rt, alloc, Reply::Full)?;
    nothing_row(&rt, alloc, Reply::Disk)?;
    nothing_row(&rt, alloc, Reply::Damaged(7))?;
    nothing_row(&rt, alloc, Reply::NoMemory)?;
    Ok(())
}

fn shown(place: PlaceTag, entries: u32, title: Option<Title>) -> Reply {
    Reply::Done(View {
        bill: BILL,
        place,
        entries,
        title,
    })
}

#[test]
fn a_bill_that_is_absent(rt: HostRuntime) -> Result<(), Fail> {
    let text =
        r#"{"bill":"4444444444444444444444444444444444444444444444444444444444444444","entries":0,"place":"ABSENT"}"#;
    json_row(&rt, rt.alloc(), shown(PlaceTag::Absent, 0, None), text)?;
    Ok(())
}

// The possessor and the holder are two parties.
#[test]
fn a_bill_that_is_held(rt: HostRuntime) -> Result<(), Fail> {
    let title = Title::Live {
        carrier: party("ALPH/CARRIER")?,
        possessor: party("ALPH/EXPORT")?,
        holder: party("BETA/BANK")?,
    };
    let text =
        r#"{"bill":"4444444444444444444444444444444444444444444444444444444444444444","entries":64,"holder":"BETA/BANK","place":"HELD","possessor":"ALPH/EXPORT","state":"LIVE"}"#;
    json_row(
        &rt,
        rt.alloc(),
        shown(PlaceTag::Held, 64, Some(title)),
        text,
    )?;
    Ok(())
}

// What was signed is the carrier's.
#[test]
fn a_bill_that_was_signed(rt: HostRuntime) -> Result<(), Fail> {
    let carrier = party("ALPH/CARRIER")?;
    let title = Title::Signed { carrier };
    let text =
        r#"{"bill":"4444444444444444444444444444444444444444444444444444444444444444","entries":1,"holder":"ALPH/CARRIER","place":"GONE","possessor":"ALPH/CARRIER","state":"SIGNED"}"#;
    json_row(&rt, rt.alloc(), shown(PlaceTag::Gone, 1, Some(title)), text)?;
    Ok(())
}

fn started(missing: ChecksumList) -> Reply {
    Reply::Started {
        reference: Reference([0x11; 16]),
        missing,
    }
}

#[test]
fn a_transfer_that_starts(rt: HostRuntime) -> Result<(), Fail> {
    let alloc = rt.alloc();
    let one = ChecksumList::from_slice(alloc, &[BILL])?;
    let text =
        r#"{"missing":["4444444444444444444444444444444444444444444444444444444444444444"],"reference":"11111111-1111-1111-1111-111111111111"}"#;
    json_row(&rt, alloc, started(one), text)?;
    Ok(())
}

fn received(alloc: Global) -> Response {
    Response {
        code: Code::Received,
        bill: None,
        last: None,
        standing: false,
        reason: None,
        missing: ChecksumList::new(alloc),
        evidence: Evidence {
            own: None,
            theirs: None,
        },
    }
}

fn signed_text(alloc: Global) -> Result<SignedText, NoMemory> {
    SignedText::from_bytes(alloc, ByteList::from_slice(alloc, b"a.b.c")?)
}

// The body of an answer with that text.
fn answer_body(alloc: Global) -> Result<ReplyBody, NoMemory> {
    let text = signed_text(alloc)?;
    let response = received(alloc);
    reply_body(alloc, Reply::Answer { response, text })
}

fn assert_signed(rt: &impl Abort, body: &ReplyBody) {
    match body {
        ReplyBody::Signed(text) => assert_eq!(rt; text.0.as_slice(), b"a.b.c".as_slice()),
        _ => panic!(rt; "no signed text"),
    }
}

#[test]
fn a_signed_answer(rt: HostRuntime) -> Result<(), Fail> {
    let body = answer_body(rt.alloc())?;
    assert_signed(&rt, &body);
    drop(body);
    Ok(())
}
