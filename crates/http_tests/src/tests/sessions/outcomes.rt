//! Each reply of a desk as its bytes; all bodies are in `replies` of the crate `form_tests`.
use crate::tests::making::CHECKSUM;
use crate::tests::sessions::{FINISH, REFERENCE, desk_with, session_with};
use ebl_base::{
    ByteList, ChecksumList, Code, Evidence, LimitKind, NoMemory, Party, PlaceTag, SignedText,
};
use pint_responses::Response;
use platform_requests::{IgnoreReason, MemoryDesk, MessageList, Outcome, Reply, View};
use std::alloc::{AllocError, Global};
use std::process::Abort;
use std::test::Fail;
use title_fold::FoldRefusal;
use transport_document::DocumentFault;

const ASK: &[u8] =
    b"GET /v3/bills/4444444444444444444444444444444444444444444444444444444444444444 HTTP/1.1\r\n\r\n";

const START: &[u8] = b"POST /v3/envelopes HTTP/1.1\r\ncontent-length: 2\r\n\r\n{}";

const DOCUMENT: &[u8] =
    b"PUT /v3/envelopes/00112233445566778899aabbccddeeff/additional-documents/4444444444444444444444444444444444444444444444444444444444444444 HTTP/1.1\r\ncontent-length: 2\r\n\r\n{}";

fn outcome(alloc: Global, reply: Reply) -> Outcome {
    Outcome {
        reply,
        messages: MessageList::new(alloc),
    }
}

// A desk whose one outcome gives this reply.
fn desk_of(alloc: Global, reply: Reply) -> Result<MemoryDesk, Fail> {
    let mut outcomes = Vec::new(alloc);
    outcomes.push(outcome(alloc, reply))?;
    desk_with(alloc, outcomes)
}

// The bytes of the reply that such a desk gives.
fn reply_row<R: Abort>(
    rt: &R,
    alloc: Global,
    input: &[u8],
    reply: Reply,
    written: &[u8],
) -> Result<(), Fail> {
    let mut desk = desk_of(alloc, reply)?;
    let served = session_with(rt, alloc, input, &mut desk, written);
    drop(desk);
    let _ = served?;
    Ok(())
}

const VIEW: View = View {
    bill: CHECKSUM,
    place: PlaceTag::Absent,
    entries: 0,
    title: None,
};

// The reply of the row with this number; one of them names a party.
fn reply_at(row: usize, party: Party) -> Reply {
    match row {
        0 => Reply::UnknownReference,
        1 => Reply::Full,
        2 => Reply::Disk,
        3 => Reply::Damaged(7),
        4 => Reply::Sign,
        5 => Reply::NoMemory,
        6 => Reply::Document(DocumentFault::NoMemory),
        7 => Reply::NotOurs,
        8 => Reply::NotCarrier,
        9 => Reply::KnownBill,
        10 => Reply::NotHere(PlaceTag::Parting),
        11 => Reply::NotParting(PlaceTag::Gone),
        12 => Reply::Ignored(IgnoreReason::OtherEntry),
        13 => Reply::NoParty(party),
        14 => Reply::NotAllowed(FoldRefusal::F7),
        15 => Reply::Limit(LimitKind::DocumentBytes),
        16 => Reply::Document(DocumentFault::NotTitle),
        _ => Reply::Done(VIEW),
    }
}

// The bytes of each, in the same order: of those without a body, of the refusals, and of a bill that is shown.
const REPLIES: &str = "HTTP/1.1 404 Not Found\r\ncontent-length: 0\r\n\r\n~\
    HTTP/1.1 507 Insufficient Storage\r\ncontent-length: 0\r\n\r\n~\
    HTTP/1.1 503 Service Unavailable\r\ncontent-length: 0\r\n\r\n~\
    HTTP/1.1 503 Service Unavailable\r\ncontent-length: 0\r\n\r\n~\
    HTTP/1.1 502 Bad Gateway\r\ncontent-length: 0\r\n\r\n~\
    HTTP/1.1 500 Internal Server Error\r\ncontent-length: 0\r\n\r\n~\
    HTTP/1.1 500 Internal Server Error\r\ncontent-length: 0\r\n\r\n~\
    HTTP/1.1 409 Conflict\r\ncontent-type: application/json\r\ncontent-length: 20\r\n\r\n{\"reply\":\"NOT_OURS\"}~\
    HTTP/1.1 409 Conflict\r\ncontent-type: application/json\r\ncontent-length: 23\r\n\r\n{\"reply\":\"NOT_CARRIER\"}~\
    HTTP/1.1 409 Conflict\r\ncontent-type: application/json\r\ncontent-length: 22\r\n\r\n{\"reply\":\"KNOWN_BILL\"}~\
    HTTP/1.1 409 Conflict\r\ncontent-type: application/json\r\ncontent-length: 38\r\n\r\n\
        {\"place\":\"PARTING\",\"reply\":\"NOT_HERE\"}~\
    HTTP/1.1 409 Conflict\r\ncontent-type: application/json\r\ncontent-length: 38\r\n\r\n\
        {\"place\":\"GONE\",\"reply\":\"NOT_PARTING\"}~\
    HTTP/1.1 409 Conflict\r\ncontent-type: application/json\r\ncontent-length: 42\r\n\r\n\
        {\"reason\":\"OTHER_ENTRY\",\"reply\":\"IGNORED\"}~\
    HTTP/1.1 409 Conflict\r\ncontent-type: application/json\r\ncontent-length: 42\r\n\r\n\
        {\"party\":\"ALPH/EXPORT\",\"reply\":\"NO_PARTY\"}~\
    HTTP/1.1 409 Conflict\r\ncontent-type: application/json\r\ncontent-length: 35\r\n\r\n\
        {\"reply\":\"NOT_ALLOWED\",\"rule\":\"F7\"}~\
    HTTP/1.1 409 Conflict\r\ncontent-type: application/json\r\ncontent-length: 42\r\n\r\n\
        {\"reply\":\"LIMIT\",\"which\":\"DOCUMENT_BYTES\"}~\
    HTTP/1.1 409 Conflict\r\ncontent-type: application/json\r\ncontent-length: 40\r\n\r\n\
        {\"fault\":\"NOT_TITLE\",\"reply\":\"DOCUMENT\"}~\
    HTTP/1.1 200 OK\r\ncontent-type: application/json\r\ncontent-length: 104\r\n\r\n{\"bill\":\"4444444444444444444444444444444444444444444444444444444444444444\",\"entries\":0,\"place\":\"ABSENT\"}";

#[test]
fn replies_to_a_question(rt: HostRuntime) -> Result<(), Fail> {
    let party = Party::from_text(b"ALPH/EXPORT").ok_or("a party")?;
    for (row, text) in REPLIES.split('~').enumerate() {
        let reply = reply_at(row, party);
        reply_row(&rt, rt.alloc(), ASK, reply, text.as_bytes())?;
    }
    Ok(())
}

fn started(alloc: Global) -> Result<Reply, NoMemory> {
    Ok(Reply::Started {
        reference: REFERENCE,
        missing: ChecksumList::from_slice(alloc, &[CHECKSUM])?,
    })
}

#[test]
fn a_transfer_that_starts(rt: HostRuntime) -> Result<(), Fail> {
    let text =
        b"HTTP/1.1 201 Created\r\ncontent-type: application/json\r\ncontent-length: 131\r\n\r\n{\"missing\":[\"4444444444444444444444444444444444444444444444444444444444444444\"],\"reference\":\"00112233-4455-6677-8899-aabbccddeeff\"}";
    reply_row(&rt, rt.alloc(), START, started(rt.alloc())?, text)
}

#[test]
fn a_document_that_is_stored(rt: HostRuntime) -> Result<(), Fail> {
    let text = b"HTTP/1.1 204 No Content\r\n\r\n";
    reply_row(&rt, rt.alloc(), DOCUMENT, Reply::Stored, text)
}

fn response_of(alloc: Global, code: Code) -> Response {
    Response {
        code,
        bill: None,
        last: None,
        standing: false,
        reason: None,
        missing: ChecksumList::new(alloc),
        evidence: Evidence {
            own: None,
            theirs: None,
        },
    }
}

fn signed_text(alloc: Global) -> Result<SignedText, NoMemory> {
    SignedText::from_bytes(alloc, ByteList::from_slice(alloc, b"a.b.c")?)
}

fn answer_of(alloc: Global, code: Code) -> Result<Reply, NoMemory> {
    let text = signed_text(alloc)?;
    let response = response_of(alloc, code);
    Ok(Reply::Answer { response, text })
}

// The bytes of a signed answer.
fn answer_text(alloc: Global, line: &str) -> Result<String, AllocError> {
    format!(in alloc;
        "HTTP/1.1 {line}\r\ncontent-type: application/jose\r\ncontent-length: 5\r\n\r\na.b.c"
    )
}

fn answer_row<R: Abort>(rt: &R, alloc: Global, code: Code, line: &str) -> Result<(), Fail> {
    let text = answer_text(alloc, line)?;
    let reply = answer_of(alloc, code)?;
    reply_row(rt, alloc, FINISH, reply, text.as_bytes())
}

const ANSWERS: [(Code, &str); 7] = [
    (Code::Received, "200 OK"),
    (Code::Duplicate, "200 OK"),
    (Code::MissingDocuments, "409 Conflict"),
    (Code::InconsistentDocument, "409 Conflict"),
    (Code::DisputedEnvelope, "409 Conflict"),
    (Code::BadSignature, "422 Unprocessable Entity"),
    (Code::BadEnvelope, "422 Unprocessable Entity"),
];

#[test]
fn signed_answers(rt: HostRuntime) -> Result<(), Fail> {
    for (code, line) in &ANSWERS {
        answer_row(&rt, rt.alloc(), *code, line)?;
    }
    Ok(())
}
