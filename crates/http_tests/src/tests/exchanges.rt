//! Exchanges over links in memory: the bytes of each request, replies and what is none, every cut, the limits.
use crate::tests::making::{cells, link_of, same};
use ebl_base::{ByteList, Checksum, PlatformCode, Reference};
use ebl_edge::MemoryLink;
use pint_client::{ClientFault, Incoming, exchange};
use platform_requests::Message;
use std::alloc::{AllocError, Global};
use std::fmt::Debug;
use std::process::Abort;
use std::test::Fail;

const REFERENCE: Reference = Reference([0, 1, 2, 3, 4, 5, 6, 7, 8, 9, 10, 11, 12, 13, 14, 255]);

// ---- messages

fn beta() -> Result<PlatformCode, Fail> {
    Ok(PlatformCode::try_new(b"BETA").ok_or("a code")?)
}

fn start(alloc: Global, body: &[u8]) -> Result<Message, Fail> {
    Ok(Message::Start {
        to: beta()?,
        bill: Checksum([1; 32]),
        body: ByteList::from_slice(alloc, body)?,
    })
}

fn put(alloc: Global, bytes: &[u8]) -> Result<Message, Fail> {
    Ok(Message::Put {
        to: beta()?,
        bill: Checksum([1; 32]),
        reference: REFERENCE,
        checksum: Checksum([171; 32]),
        bytes: ByteList::from_slice(alloc, bytes)?,
    })
}

fn finish() -> Result<Message, Fail> {
    Ok(Message::Finish {
        to: beta()?,
        bill: Checksum([1; 32]),
        reference: REFERENCE,
    })
}

fn message_of(alloc: Global, name: &str, body: &[u8]) -> Result<Message, Fail> {
    match name {
        "start" => start(alloc, body),
        "put" => put(alloc, body),
        _ => finish(),
    }
}

// ---- what an exchange gives

// The status of a reply and its body, or why there is none.
fn told(alloc: Global, answer: &Result<Incoming, ClientFault>) -> Result<String, AllocError> {
    match answer {
        Ok(incoming) => reply_told(alloc, incoming),
        Err(fault) => format!(in alloc; "{fault:?}"),
    }
}

fn reply_told(alloc: Global, incoming: &Incoming) -> Result<String, AllocError> {
    let status = incoming.status;
    let body = str::from_utf8(incoming.body.as_slice()).unwrap_or("no text");
    format!(in alloc; "{status} {body}")
}

// What an exchange of the message over this link gives.
fn answer(alloc: Global, link: &mut MemoryLink, out: &Message) -> Result<String, AllocError> {
    let answer = exchange(alloc, link, out);
    let told = told(alloc, &answer);
    drop(answer);
    told
}

// What an exchange of a finish does.
fn finished(alloc: Global, link: &mut MemoryLink) -> Result<String, Fail> {
    let out = finish()?;
    let told = answer(alloc, link, &out);
    drop(out);
    Ok(told?)
}

// What one gives if these bytes come in pieces of these sizes.
fn came(alloc: Global, bytes: &[u8], pieces: &[usize]) -> Result<String, Fail> {
    let mut link = link_of(alloc, bytes, pieces, &[])?;
    let told = finished(alloc, &mut link);
    drop(link);
    told
}

// ---- what is written

const NO_CONTENT: &[u8] = b"HTTP/1.1 204 No Content\r\n\r\n";

// Whose message it is, its body, and the bytes of its request.
const REQUESTS: &str =
    "start|{\"a\":1}|POST /v3/envelopes HTTP/1.1\r\nhost: pint\r\ncontent-length: 7\r\n\r\n{\"a\":1}~\
    put|abcdefghij|PUT /v3/envelopes/00010203-0405-0607-0809-0a0b0c0d0eff/additional-documents/\
        abababababababababababababababababababababababababababababababab HTTP/1.1\r\nhost: pint\r\n\
        content-length: 10\r\n\r\nabcdefghij~\
    put|abc|PUT /v3/envelopes/00010203-0405-0607-0809-0a0b0c0d0eff/additional-documents/\
        abababababababababababababababababababababababababababababababab HTTP/1.1\r\nhost: pint\r\n\
        content-length: 3\r\n\r\nabc~\
    finish||PUT /v3/envelopes/00010203-0405-0607-0809-0a0b0c0d0eff/finish-transfer HTTP/1.1\r\nhost: pint\r\n\
        content-length: 0\r\n\r\n";

// Asserts which bytes one exchange of the message writes.
fn assert_written<R: Abort>(rt: &R, alloc: Global, out: &Message, text: &str) -> Result<(), Fail> {
    let mut link = link_of(alloc, NO_CONTENT, &[], &[])?;
    let told = answer(alloc, &mut link, out);
    same(rt, &text, link.written(), text.as_bytes());
    drop(link);
    same(rt, &text, told?.as_str(), "204 ");
    Ok(())
}

fn request_row<R: Abort>(rt: &R, alloc: Global, row: &str) -> Result<(), Fail> {
    let (name, rest) = cells(rt, row);
    let (body, text) = cells(rt, rest);
    let out = message_of(alloc, name, body.as_bytes())?;
    let asserted = assert_written(rt, alloc, &out, text);
    drop(out);
    asserted
}

#[test]
fn one_request_for_each_message(rt: HostRuntime) -> Result<(), Fail> {
    for row in REQUESTS.split('~') {
        request_row(&rt, rt.alloc(), row)?;
    }
    Ok(())
}

// ---- what comes

// Asserts what an exchange gives if these bytes come in pieces of these sizes.
fn assert_came<R: Abort, N: Debug>(
    rt: &R,
    alloc: Global,
    bytes: &[u8],
    pieces: &[usize],
    want: &str,
    name: &N,
) -> Result<(), Fail> {
    let told = came(alloc, bytes, pieces)?;
    same(rt, name, told.as_str(), want);
    Ok(())
}

// In each row what the exchange gives, and the bytes that come.
const HEADS: &str = "404 |HTTP/1.1 404 Not Found\r\ncontent-length: 0\r\n\r\n~\
    BadReply|hello~\
    BadReply|~\
    200 a|HTTP/1.0 200 OK\r\ncontent-length: 1\r\n\r\na~\
    200 a|\r\n\nHTTP/1.1 200\ncontent-length: 1\n\na~\
    200 a|HTTP/1.1 200 \r\ncontent-length: 1\r\n\r\nafter~\
    BadReply|HTTP/2.0 200 OK\r\ncontent-length: 1\r\n\r\na~\
    BadReply|HTTP/1.1 20 OK\r\ncontent-length: 1\r\n\r\na~\
    BadReply|HTTP/1.1 2000 OK\r\ncontent-length: 1\r\n\r\na~\
    BadReply|http/1.1 200 OK\r\ncontent-length: 1\r\n\r\na~\
    BadReply|HTTP/1.1 200 OK\r\ncontent length: 1\r\n\r\na~\
    BadReply|HTTP/1.1 200 OK\r\n content-length: 1\r\n\r\na~\
    BadReply|GET / HTTP/1.1\r\ncontent-length: 1\r\n\r\na~\
    BadReply|\r\n\r\n\r\n";

const LENGTHS: &str = "200 abcde|HTTP/1.1 200 OK\r\ncontent-length: 5\r\n\r\nabcde~\
    200 abcde|HTTP/1.1 200 OK\r\nContent-Length:5\r\n\r\nabcde~\
    200 abcde|HTTP/1.1 200 OK\r\nCONTENT-LENGTH: \t5 \r\n\r\nabcde~\
    200 abcde|HTTP/1.1 200 OK\r\ncontent-length: 00005\r\n\r\nabcde~\
    200 abcde|HTTP/1.1 200 OK\r\ncontent-length: 0000000000000000005\r\n\r\nabcde~\
    200 abcde|HTTP/1.1 200 OK\r\ncontent-length: 5\r\ncontent-length: 5\r\n\r\nabcde~\
    200 abcde|HTTP/1.1 200 OK\r\nx: y\r\ncontent-length: 5\r\nconnection: close\r\n\r\nabcde~\
    200 abcde|HTTP/1.1 200 OK\r\ncontent-length: 5\nx:\r\n\r\nabcde~\
    409 abc|HTTP/1.1 409\r\ncontent-length: 3\r\n\r\nabcde~\
    0 |HTTP/1.1 000 \r\ncontent-length: 0\r\n\r\nabcde~\
    BadReply|HTTP/1.1 200 OK\r\nx: y\r\n\r\nabcde~\
    BadReply|HTTP/1.1 200 OK\r\ncontent-length:\r\n\r\nabcde~\
    BadReply|HTTP/1.1 200 OK\r\ncontent-length: +5\r\n\r\nabcde~\
    BadReply|HTTP/1.1 200 OK\r\ncontent-length: -5\r\n\r\nabcde~\
    BadReply|HTTP/1.1 200 OK\r\ncontent-length: 5a\r\n\r\nabcde~\
    BadReply|HTTP/1.1 200 OK\r\ncontent-length: 5, 5\r\n\r\nabcde~\
    BadReply|HTTP/1.1 200 OK\r\ncontent-length: 00000000000000000005\r\n\r\nabcde~\
    BadReply|HTTP/1.1 200 OK\r\ncontent-length: 5\r\ncontent-length: 05\r\n\r\nabcde~\
    BadReply|HTTP/1.1 200 OK\r\ncontent-length: 5\r\ncontent-length: 4\r\n\r\nabcde~\
    BadReply|HTTP/1.1 200 OK\r\ncontent-length: 6\r\n\r\nabcde~\
    BadReply|HTTP/1.1 200 OK\r\ncontent-length: 4194305\r\n\r\nabcde~\
    BadReply|HTTP/1.1 200 OK\r\ncontent-length: 9999999999999999999\r\n\r\nabcde~\
    BadReply|HTTP/1.1 200 OK\r\ncontent-length: 5\r\ntransfer-encoding: identity\r\n\r\nabcde~\
    BadReply|HTTP/1.1 200 OK\r\ntransfer-encoding: chunked\r\n\r\nabcde~\
    BadReply|HTTP/1.1 100 Continue\r\nx: y\r\n\r\nabcde~\
    BadReply|HTTP/1.1 304 Not Modified\r\nx: y\r\n\r\nabcde";

// RFC 9112, section 6.3: with the status 204 the reply ends with its head, whatever the fields are.
const WITHOUT_BODY: &str = "204 |HTTP/1.1 204 No Content\r\nx: y\r\n\r\nabcde~\
    204 |HTTP/1.1 204 No Content\r\ncontent-length: 5\r\n\r\nabcde~\
    204 |HTTP/1.1 204 No Content\r\ncontent-length: no\r\n\r\nabcde~\
    204 |HTTP/1.1 204 No Content\r\ntransfer-encoding: chunked\r\n\r\nabcde";

fn reply_row<R: Abort>(rt: &R, alloc: Global, row: &str) -> Result<(), Fail> {
    let (want, bytes) = cells(rt, row);
    assert_came(rt, alloc, bytes.as_bytes(), &[], want, &row)
}

fn reply_rows<R: Abort>(rt: &R, alloc: Global, rows: &str) -> Result<(), Fail> {
    for row in rows.split('~') {
        reply_row(rt, alloc, row)?;
    }
    Ok(())
}

#[test]
fn replies_and_what_is_none(rt: HostRuntime) -> Result<(), Fail> {
    for rows in &[HEADS, LENGTHS, WITHOUT_BODY] {
        reply_rows(&rt, rt.alloc(), rows)?;
    }
    Ok(())
}

// ---- pieces, cuts and faults

const CREATED: &[u8] =
    b"\r\nHTTP/1.1 201 Created\r\ncontent-type: application/json\r\ncontent-length: 12\r\n\r\n{\"body\":1234";

#[test]
fn every_piece(rt: HostRuntime) -> Result<(), Fail> {
    let whole = "201 {\"body\":1234";
    for size in 1..CREATED.len() + 1 {
        assert_came(&rt, rt.alloc(), CREATED, &[size; 100], whole, &size)?;
    }
    Ok(())
}

#[test]
fn every_cut(rt: HostRuntime) -> Result<(), Fail> {
    for cut in 0..CREATED.len() {
        assert_came(&rt, rt.alloc(), &CREATED[..cut], &[], "BadReply", &cut)?;
    }
    Ok(())
}

const SHORT: &[u8] = b"HTTP/1.1 200 OK\r\ncontent-length: 2\r\n\r\nab";

// How many bytes a put of `abc` writes: the third of `REQUESTS`.
const SENT: usize = 187;

// The call that is one past the last: no call fails there.
const NO_CALL: u64 = SHORT.len() as u64 + 2;

// What the exchange gives where this call fails, how many calls fail, and how many bytes are written.
fn told_where_failed(call: u64) -> (&'static str, u64, usize) {
    match call {
        0 => ("Fault", 1, 0),
        1 => ("Fault", 1, SENT - 3),
        NO_CALL => ("200 ab", 0, SENT),
        _ => ("Fault", 1, SENT),
    }
}

fn assert_failed<R: Abort>(rt: &R, told: &str, faults: u64, sent: usize, call: u64) {
    same(rt, &call, (told, faults, sent), told_where_failed(call));
}

fn failed_row<R: Abort>(rt: &R, alloc: Global, out: &Message, call: u64) -> Result<(), Fail> {
    let mut link = link_of(alloc, SHORT, &[1; 100], &[call])?;
    let told = answer(alloc, &mut link, out);
    let (faults, sent) = (link.faults(), link.written().len());
    drop(link);
    assert_failed(rt, told?.as_str(), faults, sent, call);
    Ok(())
}

fn failed_rows<R: Abort>(rt: &R, alloc: Global, out: &Message) -> Result<(), Fail> {
    for call in 0..NO_CALL + 1 {
        failed_row(rt, alloc, out, call)?;
    }
    Ok(())
}

// Calls 0 and 1 write the head and the body of a put, and each later one reads one byte.
#[test]
fn each_call_of_the_link_failed(rt: HostRuntime) -> Result<(), Fail> {
    let out = put(rt.alloc(), b"abc")?;
    let failed = failed_rows(&rt, rt.alloc(), &out);
    drop(out);
    failed
}

// ---- limits

// A reply whose head has so many fields, and at least so many bytes.
fn made(alloc: Global, fields: usize, size: usize) -> Result<Vec<u8>, AllocError> {
    let mut reply = Vec::from_slice(alloc, b"HTTP/1.1 200 OK\r\ncontent-length: 2\r\n")?;
    for _ in 2..fields {
        reply.extend_from_slice(b"x: y\r\n")?;
    }
    reply.extend_from_slice(b"x: y")?;
    reply.resize(reply.len().max(size.saturating_sub(4)), b'y')?;
    reply.extend_from_slice(b"\r\n\r\nab")?;
    Ok(reply)
}

// How many fields, how many bytes, and what the exchange gives.
const LIMITS: [(usize, usize, &str); 5] = [
    (2, 16_383, "200 ab"),
    (2, 16_384, "200 ab"),
    (2, 16_385, "BadReply"),
    (64, 0, "200 ab"),
    (65, 0, "BadReply"),
];

fn limit_row<R: Abort>(
    rt: &R,
    alloc: Global,
    fields: usize,
    size: usize,
    want: &str,
) -> Result<(), Fail> {
    let reply = made(alloc, fields, size)?;
    assert_came(rt, alloc, &reply, &[], want, &(fields, size))
}

#[test]
fn the_longest_head_and_the_most_fields(rt: HostRuntime) -> Result<(), Fail> {
    for (fields, size, want) in &LIMITS {
        limit_row(&rt, rt.alloc(), *fields, *size, want)?;
    }
    Ok(())
}

// A reply with the longest body, and further bytes behind it.
fn longest(alloc: Global) -> Result<Vec<u8>, AllocError> {
    let head = b"HTTP/1.1 200 OK\r\ncontent-length: 4194304\r\n\r\n";
    let mut came = Vec::from_slice(alloc, head)?;
    came.resize(head.len() + 4_194_304, b'z')?;
    came.extend_from_slice(b"behind")?;
    Ok(came)
}

fn is_longest(told: &str) -> bool {
    match told.strip_prefix("200 ") {
        Some(body) => body.len() == 4_194_304 && body.bytes().all(|b| b == b'z'),
        None => false,
    }
}

// What an exchange gives if these bytes come, of which those are left.
fn came_before<R: Abort>(rt: &R, alloc: Global, came: &[u8], left: &[u8]) -> Result<String, Fail> {
    let mut link = link_of(alloc, came, &[], &[])?;
    let told = finished(alloc, &mut link);
    same(rt, &"left", link.left(), left);
    drop(link);
    told
}

// Of further bytes those that came with the head are dropped, the others left.
#[test]
fn the_longest_body(rt: HostRuntime) -> Result<(), Fail> {
    let came = longest(rt.alloc())?;
    let told = came_before(&rt, rt.alloc(), &came, b"behind")?;
    assert!(rt; is_longest(told.as_str()));
    Ok(())
}

#[test]
fn bytes_behind_a_head(rt: HostRuntime) -> Result<(), Fail> {
    let came = b"HTTP/1.1 204 No Content\r\n\r\nbehind";
    let told = came_before(&rt, rt.alloc(), came, b"")?;
    same(&rt, &"a 204", told.as_str(), "204 ");
    Ok(())
}
