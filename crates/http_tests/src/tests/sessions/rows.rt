//! The rows that were worked by hand, heads that end a session, and those that don't.
use crate::tests::making::{ONE_LAST, cells, head_of, joined, link_of, same};
use crate::tests::sessions::{
    FINISH, KNOWN, REFERENCE, UNKNOWN_REFERENCE, VALIDATION, bare_desk, served_bare, session,
    session_with,
};
use ebl_base::NoMemory;
use ebl_edge::MemoryLink;
use http_heads::MAX_HEAD;
use pint_http::LinkEnd;
use platform_requests::{KeptCall, MemoryDesk, Request};
use std::alloc::{AllocError, Global};
use std::process::Abort;
use std::test::Fail;

// The requests and the replies of a session that ends behind the last.
type Row = (&'static [&'static [u8]], &'static [&'static [u8]]);

const ANSWERED: [Row; 3] = [
    // The link stays open: the second request is answered too, and the input then ends between two.
    (&[FINISH, FINISH], &[UNKNOWN_REFERENCE, UNKNOWN_REFERENCE]),
    // A value that only contains `close` closes nothing; a stated body of a Finish is read and ignored.
    (
        &[
            b"\r\n\nPUT /v3/envelopes/00112233445566778899aabbccddeeff/finish-transfer HTTP/1.1\r\nconnection: close, te\r\ncontent-length: 3\r\n\r\nGET",
            VALIDATION,
        ],
        &[UNKNOWN_REFERENCE, KNOWN],
    ),
    // A server may leave the interim reply out (RFC 9110, section 10.1.1), and writes one reply.
    (
        &[
            b"POST /v3/receiver-validation HTTP/1.1\r\nExpect: 100-continue\r\nContent-Length: 23\r\n\r\n{\"party\":\"BETA/IMPORT\"}",
        ],
        &[KNOWN],
    ),
];

fn answered_row<R: Abort>(rt: &R, alloc: Global, row: &Row) -> Result<u64, Fail> {
    let (requests, replies) = row;
    let input = joined(alloc, requests)?;
    let written = joined(alloc, replies)?;
    session(rt, alloc, &input, &[], LinkEnd::Closed, &written)
}

#[test]
fn requests_that_are_answered(rt: HostRuntime) -> Result<(), Fail> {
    for row in &ANSWERED {
        let _ = answered_row(&rt, rt.alloc(), row)?;
    }
    Ok(())
}

const SINGLE_BYTES: &[u8] =
    b"POST /v3/receiver-validation HTTP/1.1\r\nContent-Length: 23\r\n\r\n{\"party\":\"BETA/IMPORT\"}GET /v3/none HTTP/1.1\r\n\r\n";

const REPLIES: &[u8] =
    b"HTTP/1.1 200 OK\r\ncontent-type: application/json\r\ncontent-length: 14\r\n\r\n{\"known\":true}HTTP/1.1 404 Not Found\r\ncontent-length: 0\r\nconnection: close\r\n\r\n";

// The clock isn't asked.
#[test]
fn http_in_single_bytes(rt: HostRuntime) -> Result<(), Fail> {
    let alloc = rt.alloc();
    let calls = session(
        &rt,
        alloc,
        SINGLE_BYTES,
        &[1; 200],
        LinkEnd::Closed,
        REPLIES,
    )?;
    same(&rt, &"calls", calls, 0);
    Ok(())
}

// In each row the status of the one reply, which closes the link, and what came: a body of 4,194,305 bytes; a chunked
// body; a method that the path lacks; an envelope without a length; a checksum in capitals.
const REFUSED: &str =
    "413 Payload Too Large|POST /v3/receiver-validation HTTP/1.1\r\nContent-Length: 4194305\r\n\r\n~\
    501 Not Implemented|POST /v3/receiver-validation HTTP/1.1\r\nContent-Length: 23\r\n\
        Transfer-Encoding: chunked\r\n\r\n~\
    405 Method Not Allowed|DELETE /v3/envelopes HTTP/1.1\r\n\r\n~\
    411 Length Required|POST /v3/envelopes HTTP/1.1\r\n\r\n~\
    404 Not Found|GET /v3/bills/44136FA355B3678A1146AD16F7E8649E94FB4FC21FE77E8310C060F61CAAFF8A HTTP/1.1\r\n\r\n";

// Each is refused by its status, and by the next in order too, which stands behind the comma: the head, and a coding; a
// coding, and no route; no route, and a method that no route has; another method, and no length; no length, where a
// malformed one would be the next; a malformed length, and too large; two lengths, each too large; too large, and
// malformed as far as it goes. The last is malformed.
const IN_ORDER: &str =
    "400 Bad Request|POST /v3/none HTTP/1.1\r\nTransfer Encoding: chunked\r\n\r\n~\
    501 Not Implemented|GET /v3/none HTTP/1.1\r\ntransfer-encoding: gzip\r\n\r\n~\
    404 Not Found|DELETE /v3/none HTTP/1.1\r\n\r\n~\
    405 Method Not Allowed|PUT /v3/envelopes HTTP/1.1\r\n\r\n~\
    411 Length Required|POST /v3/envelopes HTTP/1.1\r\nlength: +1\r\n\r\n~\
    400 Bad Request|POST /v3/envelopes HTTP/1.1\r\nContent-Length: +4194305\r\n\r\n~\
    400 Bad Request|POST /v3/envelopes HTTP/1.1\r\nContent-Length: 4194305\r\nContent-Length: 4194306\r\n\r\n~\
    413 Payload Too Large|POST /v3/holder-commands HTTP/1.1\r\nContent-Length: 4194305\r\n\r\n]~\
    400 Bad Request|POST /v3/holder-commands HTTP/1.1\r\nContent-Length: 1\r\n\r\n]";

// HTTP/1.0, and a header that says so, close the link behind the reply: what follows isn't read as a request.
const CLOSING: &str =
    "404 Not Found|PUT /v3/envelopes/00112233445566778899aabbccddeeff/finish-transfer HTTP/1.0\r\n\r\nGET~\
    404 Not Found|PUT /v3/envelopes/00112233445566778899aabbccddeeff/finish-transfer HTTP/1.0\r\n\
        connection: keep-alive\r\n\r\n~\
    404 Not Found|PUT /v3/envelopes/00112233445566778899aabbccddeeff/finish-transfer HTTP/1.1\r\n\
        Connection: CLOSE\r\n\r\n\0~\
    404 Not Found|PUT /v3/envelopes/00112233445566778899aabbccddeeff/finish-transfer HTTP/1.1\n\
        connection: x\nconnection:\tclose \n\n";

fn closing_reply(alloc: Global, line: &str) -> Result<String, AllocError> {
    format!(in alloc; "HTTP/1.1 {line}\r\ncontent-length: 0\r\nconnection: close\r\n\r\n")
}

fn refused_row<R: Abort>(rt: &R, alloc: Global, row: &str) -> Result<u64, Fail> {
    let (line, input) = cells(rt, row);
    let written = closing_reply(alloc, line)?;
    let (input, written) = (input.as_bytes(), written.as_bytes());
    session(rt, alloc, input, &[], LinkEnd::Closed, written)
}

fn refused_rows<R: Abort>(rt: &R, alloc: Global, rows: &str) -> Result<(), Fail> {
    for row in rows.split('~') {
        let _ = refused_row(rt, alloc, row)?;
    }
    Ok(())
}

#[test]
fn replies_that_close_the_link(rt: HostRuntime) -> Result<(), Fail> {
    for rows in &[REFUSED, IN_ORDER, CLOSING] {
        refused_rows(&rt, rt.alloc(), rows)?;
    }
    Ok(())
}

// A head of so many bytes that states one byte too many, and 20,000 bytes of its body, in pieces of these sizes.
fn too_large(alloc: Global, size: usize, pieces: &[usize]) -> Result<MemoryLink, NoMemory> {
    let head = head_of(alloc, b"4194305", size)?;
    let body = vec![in alloc; b'x'; 20_000]?;
    let input = joined(alloc, &[&head, &body])?;
    link_of(alloc, &input, pieces, &[])
}

// The size of a head, the sizes of its pieces, and how many of the 20,000 bytes are left: none was read but what came
// among the first 16,384 bytes, in pieces of at most 4,096.
const LEFT: [(usize, &[usize], usize); 5] = [
    (96, &[], 16_000),
    (16_380, &[], 19_996),
    (16_380, &[4095, 4096, 4096, 4080], 19_996),
    (MAX_HEAD, &[], 20_000),
    (MAX_HEAD, ONE_LAST, 20_000),
];

fn left_row<R: Abort>(
    rt: &R,
    alloc: Global,
    size: usize,
    pieces: &[usize],
    left: usize,
) -> Result<u64, Fail> {
    let written = closing_reply(alloc, "413 Payload Too Large")?;
    let mut link = too_large(alloc, size, pieces)?;
    let served = served_bare(rt, alloc, &mut link, LinkEnd::Closed, written.as_bytes());
    same(rt, &size, link.left().len(), left);
    drop(link);
    served
}

#[test]
fn a_refused_body_is_not_read(rt: HostRuntime) -> Result<(), Fail> {
    for (size, pieces, left) in &LEFT {
        let _ = left_row(&rt, rt.alloc(), *size, pieces, *left)?;
    }
    Ok(())
}

fn is_finish(request: &Request) -> bool {
    match request {
        Request::Finish { reference } => *reference == REFERENCE,
        _ => false,
    }
}

// The moment of a call, and whether it was the finish.
fn call_told(call: &KeptCall) -> (u64, bool) {
    (call.now.number(), is_finish(&call.request))
}

fn assert_asked<R: Abort>(rt: &R, desk: &MemoryDesk) {
    match desk.calls() {
        Some([call]) => same(rt, &"call", call_told(call), (1000, true)),
        _ => panic!(rt; "one call"),
    }
}

// The desk keeps what it was asked, at the moment of the clock, which is asked once.
#[test]
fn a_desk_is_asked_once(rt: HostRuntime) -> Result<(), Fail> {
    let mut desk = bare_desk(rt.alloc())?;
    let calls = session_with(&rt, rt.alloc(), FINISH, &mut desk, UNKNOWN_REFERENCE);
    assert_asked(&rt, &desk);
    drop(desk);
    same(&rt, &"calls", calls?, 1);
    Ok(())
}
