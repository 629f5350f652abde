//! Whole sessions over links in memory.
mod cuts;
mod outcomes;
mod rows;

use crate::tests::making::{link_of, same};
use ebl_base::{Moment, Party, Reference};
use ebl_edge::{MemoryClock, MemoryLink};
use pint_http::{LinkEnd, serve_link};
use platform_requests::{MemoryDesk, Outcome};
use std::alloc::Global;
use std::process::Abort;
use std::test::Fail;

const KNOWN: &[u8] =
    b"HTTP/1.1 200 OK\r\ncontent-type: application/json\r\ncontent-length: 14\r\n\r\n{\"known\":true}";

const UNKNOWN_REFERENCE: &[u8] = b"HTTP/1.1 404 Not Found\r\ncontent-length: 0\r\n\r\n";

const VALIDATION: &[u8] =
    b"POST /v3/receiver-validation HTTP/1.1\r\nContent-Length: 23\r\n\r\n{\"party\":\"BETA/IMPORT\"}";

const FINISH: &[u8] =
    b"PUT /v3/envelopes/00112233-4455-6677-8899-aabbccddeeff/finish-transfer HTTP/1.1\r\n\r\n";

// The reference of `FINISH`.
const REFERENCE: Reference = Reference([
    0x00, 0x11, 0x22, 0x33, 0x44, 0x55, 0x66, 0x77, 0x88, 0x99, 0xaa, 0xbb, 0xcc, 0xdd, 0xee, 0xff,
]);

// The one party that a desk knows: `BETA/IMPORT`.
fn importers(alloc: Global) -> Result<Vec<Party>, Fail> {
    let party = Party::from_text(b"BETA/IMPORT").ok_or("a party")?;
    Ok(Vec::from_slice(alloc, &[party])?)
}

// A desk that knows `BETA/IMPORT`.
fn desk_with(alloc: Global, outcomes: Vec<Outcome>) -> Result<MemoryDesk, Fail> {
    match importers(alloc) {
        Ok(parties) => Ok(MemoryDesk::new(alloc, outcomes, parties)),
        Err(fail) => {
            drop(outcomes);
            Err(fail)
        }
    }
}

// One that has no outcome.
fn bare_desk(alloc: Global) -> Result<MemoryDesk, Fail> {
    let parties = importers(alloc)?;
    Ok(MemoryDesk::new(alloc, Vec::new(alloc), parties))
}

// Serves a session, and asserts how it ends and what it writes; how often the clock was asked.
fn served<R: Abort>(
    rt: &R,
    alloc: Global,
    link: &mut MemoryLink,
    desk: &mut MemoryDesk,
    end: LinkEnd,
    written: &[u8],
) -> Result<u64, Fail> {
    let mut clock = MemoryClock::new(Moment::try_new(1000).ok_or("a moment")?);
    let seen = serve_link(alloc, link, desk, &mut clock);
    let text = str::from_utf8(written).unwrap_or("replies");
    same(rt, &text, (seen, link.written()), (end, written));
    Ok(clock.calls())
}

// The same with a desk that has no outcome.
fn served_bare<R: Abort>(
    rt: &R,
    alloc: Global,
    link: &mut MemoryLink,
    end: LinkEnd,
    written: &[u8],
) -> Result<u64, Fail> {
    let mut desk = bare_desk(alloc)?;
    let calls = served(rt, alloc, link, &mut desk, end, written);
    drop(desk);
    calls
}

// The same over a link of these bytes in pieces of these sizes, which doesn't fail.
fn session<R: Abort>(
    rt: &R,
    alloc: Global,
    input: &[u8],
    pieces: &[usize],
    end: LinkEnd,
    written: &[u8],
) -> Result<u64, Fail> {
    let mut link = link_of(alloc, input, pieces, &[])?;
    let calls = served_bare(rt, alloc, &mut link, end, written);
    same(rt, &"faults", link.faults(), 0);
    drop(link);
    calls
}

// A session over such a link that ends behind the input, with this desk.
fn session_with<R: Abort>(
    rt: &R,
    alloc: Global,
    input: &[u8],
    desk: &mut MemoryDesk,
    written: &[u8],
) -> Result<u64, Fail> {
    let mut link = link_of(alloc, input, &[], &[])?;
    let calls = served(rt, alloc, &mut link, desk, LinkEnd::Closed, written);
    same(rt, &"faults", link.faults(), 0);
    drop(link);
    calls
}
