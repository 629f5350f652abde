//! The front of a link's bytes, however they come.
use crate::tests::making::{ONE_LAST, head_of, joined, link_of, same};
use ebl_base::NoMemory;
use ebl_edge::MemoryLink;
use http_heads::{MAX_HEAD, Plans, Route, Status};
use http_requests::{Front, LinkEnd, await_next};
use std::alloc::Global;
use std::process::Abort;
use std::test::Fail;

const VALIDATION: &[u8] =
    b"\r\nPOST /v3/receiver-validation HTTP/1.1\r\nContent-Length: 23\r\n\r\n{\"party\":\"BETA/IMPORT\"}";

// The length of the head of `VALIDATION`, with the empty line in front.
const HEAD: usize = 63;

const FRONT: Front = Front::Whole {
    route: Route::Validation,
    start: HEAD,
    end: 86,
    keeps: true,
};

// What stands at the front of a link, of which these bytes were read.
fn front_at(
    alloc: Global,
    link: &mut MemoryLink,
    buffer: &mut Vec<u8>,
) -> Result<Result<Front, LinkEnd>, NoMemory> {
    let plans = Plans::new(alloc)?;
    let front = await_next(link, &plans, buffer);
    drop(plans);
    Ok(front)
}

// What stands at the front of the input, and how many calls failed.
type Seen = (Result<Front, LinkEnd>, u64);

fn seen(alloc: Global, link: &mut MemoryLink) -> Result<Seen, NoMemory> {
    let mut buffer = Vec::new(alloc);
    let front = front_at(alloc, link, &mut buffer)?;
    Ok((front, link.faults()))
}

// What is seen of the input in pieces of these sizes, over a link that fails at these calls.
fn seen_of(alloc: Global, input: &[u8], pieces: &[usize], fails: &[u64]) -> Result<Seen, NoMemory> {
    let mut link = link_of(alloc, input, pieces, fails)?;
    let seen = seen(alloc, &mut link);
    drop(link);
    seen
}

#[test]
fn a_request_in_two_pieces(rt: HostRuntime) -> Result<(), Fail> {
    for at in 1..VALIDATION.len() {
        let seen = seen_of(rt.alloc(), VALIDATION, &[at], &[])?;
        same(&rt, &at, seen, (Ok(FRONT), 0));
    }
    Ok(())
}

// Closed before the first byte, and Cut behind any other.
fn end_behind(at: usize) -> LinkEnd {
    if at == 0 {
        LinkEnd::Closed
    } else {
        LinkEnd::Cut
    }
}

#[test]
fn a_request_that_ends_early(rt: HostRuntime) -> Result<(), Fail> {
    for at in 0..VALIDATION.len() {
        let seen = seen_of(rt.alloc(), &VALIDATION[..at], &[], &[])?;
        same(&rt, &at, seen, (Err(end_behind(at)), 0));
    }
    Ok(())
}

// Asserts that a request stands at the front, with all of the input read, and nothing left.
fn assert_two<R: Abort>(
    rt: &R,
    alloc: Global,
    link: &mut MemoryLink,
    input: &[u8],
) -> Result<(), Fail> {
    let mut buffer = Vec::new(alloc);
    let front = front_at(alloc, link, &mut buffer)?;
    same(rt, &"two", (front, link.left().len()), (Ok(FRONT), 0));
    same(rt, &"two", buffer.as_slice(), input);
    Ok(())
}

// The bytes behind a request stay at the front for the next, and nothing is read for it.
#[test]
fn two_requests_in_one_piece(rt: HostRuntime) -> Result<(), Fail> {
    let input = joined(rt.alloc(), &[VALIDATION, VALIDATION])?;
    let mut link = link_of(rt.alloc(), &input, &[], &[])?;
    let asserted = assert_two(&rt, rt.alloc(), &mut link, &input);
    drop(link);
    asserted
}

const LONGEST: Front = Front::Whole {
    route: Route::Start,
    start: MAX_HEAD,
    end: MAX_HEAD,
    keeps: true,
};

const REFUSED: Front = Front::Refused(Status::BadRequest);

// The size of a head, the sizes of its pieces, and what stands at the front.
const SIZES: [(usize, &[usize], Front); 4] = [
    (MAX_HEAD, &[], LONGEST),
    (MAX_HEAD, ONE_LAST, LONGEST),
    (MAX_HEAD + 1, &[], REFUSED),
    (MAX_HEAD + 1, ONE_LAST, REFUSED),
];

fn size_row<R: Abort>(
    rt: &R,
    alloc: Global,
    size: usize,
    pieces: &[usize],
    front: Front,
) -> Result<(), NoMemory> {
    let head = head_of(alloc, b"0", size)?;
    same(rt, &size, head.len(), size);
    same(
        rt,
        &size,
        seen_of(alloc, &head, pieces, &[])?,
        (Ok(front), 0),
    );
    Ok(())
}

#[test]
fn heads_of_16_384_bytes_and_one_more(rt: HostRuntime) -> Result<(), Fail> {
    for (size, pieces, front) in &SIZES {
        size_row(&rt, rt.alloc(), *size, pieces, *front)?;
    }
    Ok(())
}

// So many line feeds, and what is seen of them. The read behind them would fail.
const FEEDS: [(usize, &[u64], Result<Front, LinkEnd>); 2] = [
    (MAX_HEAD, &[4], Ok(REFUSED)),
    (MAX_HEAD - 1, &[], Err(LinkEnd::Cut)),
];

fn feeds_row<R: Abort>(
    rt: &R,
    alloc: Global,
    count: usize,
    fails: &[u64],
    want: Result<Front, LinkEnd>,
) -> Result<(), Fail> {
    let lines = vec![in alloc; b'\n'; count]?;
    same(rt, &count, seen_of(alloc, &lines, &[], fails)?, (want, 0));
    Ok(())
}

// 16,384 bytes without an end are refused at once: no further byte is waited for.
#[test]
fn a_head_that_does_not_end(rt: HostRuntime) -> Result<(), Fail> {
    for (count, fails, want) in &FEEDS {
        feeds_row(&rt, rt.alloc(), *count, fails, *want)?;
    }
    Ok(())
}

#[test]
fn a_read_that_fails(rt: HostRuntime) -> Result<(), Fail> {
    let seen = seen_of(rt.alloc(), VALIDATION, &[HEAD], &[1])?;
    same(&rt, &HEAD, seen, (Err(LinkEnd::ReadFault), 1));
    Ok(())
}
