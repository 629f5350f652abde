//! A session however its bytes come, and where it ends.
use crate::tests::sessions::{FINISH, KNOWN, UNKNOWN_REFERENCE, VALIDATION, served_bare, session};
use ebl_base::{ByteList, CallList, NoMemory};
use ebl_edge::{MemoryLink, PieceList};
use pint_http::LinkEnd;
use std::alloc::Global;
use std::process::Abort;
use std::test::Fail;

// A validation, a finish, an empty line, and a validation.
const REQUESTS: &[u8] =
    b"POST /v3/receiver-validation HTTP/1.1\r\nContent-Length: 23\r\n\r\n{\"party\":\"BETA/IMPORT\"}\
    PUT /v3/envelopes/00112233-4455-6677-8899-aabbccddeeff/finish-transfer HTTP/1.1\r\n\r\n\
    \r\n\
    POST /v3/receiver-validation HTTP/1.1\r\nContent-Length: 23\r\n\r\n{\"party\":\"BETA/IMPORT\"}";

const REPLIES: &[u8] =
    b"HTTP/1.1 200 OK\r\ncontent-type: application/json\r\ncontent-length: 14\r\n\r\n{\"known\":true}\
    HTTP/1.1 404 Not Found\r\ncontent-length: 0\r\n\r\n\
    HTTP/1.1 200 OK\r\ncontent-type: application/json\r\ncontent-length: 14\r\n\r\n{\"known\":true}";

// Where the first request ends, and the second; and the replies to them.
const FIRST: usize = VALIDATION.len();

const SECOND: usize = VALIDATION.len() + FINISH.len();

const FIRST_REPLY: usize = KNOWN.len();

const SECOND_REPLY: usize = KNOWN.len() + UNKNOWN_REFERENCE.len();

// The requests in two pieces, cut at each byte.
#[test]
fn a_session_cut_at_each_byte(rt: HostRuntime) -> Result<(), Fail> {
    for at in 1..REQUESTS.len() {
        let _ = session(&rt, rt.alloc(), REQUESTS, &[at], LinkEnd::Closed, REPLIES)?;
    }
    Ok(())
}

// Sizes by a linear congruential generator, from 1 to 32.
fn made_sizes(alloc: Global, seed: u32) -> Result<Vec<usize>, NoMemory> {
    let mut state = seed;
    let mut sizes = Vec::new(alloc);
    for _ in 0..300 {
        state = state.wrapping_mul(1_664_525).wrapping_add(1_013_904_223);
        sizes.push((state >> 27) as usize + 1)?;
    }
    Ok(sizes)
}

fn made_row<R: Abort>(rt: &R, alloc: Global, seed: u32) -> Result<u64, Fail> {
    let sizes = made_sizes(alloc, seed)?;
    session(rt, alloc, REQUESTS, &sizes, LinkEnd::Closed, REPLIES)
}

#[test]
fn a_session_in_made_pieces(rt: HostRuntime) -> Result<(), Fail> {
    for seed in 0..100 {
        let _ = made_row(&rt, rt.alloc(), seed)?;
    }
    Ok(())
}

// How a session ends if so many bytes came and no more: Cut behind a part of a request, or behind the empty line.
fn end_behind(at: usize) -> LinkEnd {
    match at {
        0 | FIRST | SECOND => LinkEnd::Closed,
        _ => LinkEnd::Cut,
    }
}

// How many bytes of the replies are written by then: those to what is whole.
fn written_by(at: usize) -> usize {
    if at < FIRST {
        0
    } else if at < SECOND {
        FIRST_REPLY
    } else {
        SECOND_REPLY
    }
}

fn ending_row<R: Abort>(rt: &R, alloc: Global, at: usize) -> Result<u64, Fail> {
    let front = REQUESTS.get(..at).ok_or("a front")?;
    let written = REPLIES.get(..written_by(at)).ok_or("replies")?;
    session(rt, alloc, front, &[], end_behind(at), written)
}

#[test]
fn a_session_that_ends_at_each_byte(rt: HostRuntime) -> Result<(), Fail> {
    for at in 0..REQUESTS.len() {
        let _ = ending_row(&rt, rt.alloc(), at)?;
    }
    Ok(())
}

// Two requests in a piece each, over a link that fails at this call. A put that fails writes half of its piece.
fn tearing_link(alloc: Global, call: u64) -> Result<MemoryLink, NoMemory> {
    let bytes = ByteList::from_slice(alloc, &REQUESTS[..SECOND])?;
    let pieces = PieceList::from_slice(alloc, &[FIRST])?;
    let fails = CallList::from_slice(alloc, &[call])?;
    Ok(MemoryLink::tearing(alloc, bytes, pieces, fails))
}

// The call that fails, how the session ends, and how many bytes of the replies are written. The calls of the link are
// a read, a put, a read, a put and a read.
const FAILURES: [(u64, LinkEnd, usize); 6] = [
    (0, LinkEnd::ReadFault, 0),
    (1, LinkEnd::WriteFault, FIRST_REPLY / 2),
    (2, LinkEnd::ReadFault, FIRST_REPLY),
    (
        3,
        LinkEnd::WriteFault,
        FIRST_REPLY + UNKNOWN_REFERENCE.len() / 2,
    ),
    (4, LinkEnd::ReadFault, SECOND_REPLY),
    (5, LinkEnd::Closed, SECOND_REPLY),
];

fn failing_row<R: Abort>(
    rt: &R,
    alloc: Global,
    call: u64,
    end: LinkEnd,
    length: usize,
) -> Result<u64, Fail> {
    let written = REPLIES.get(..length).ok_or("replies")?;
    let mut link = tearing_link(alloc, call)?;
    let served = served_bare(rt, alloc, &mut link, end, written);
    drop(link);
    served
}

#[test]
fn reads_and_puts_that_fail(rt: HostRuntime) -> Result<(), Fail> {
    for (call, end, length) in &FAILURES {
        let _ = failing_row(&rt, rt.alloc(), *call, *end, *length)?;
    }
    Ok(())
}
