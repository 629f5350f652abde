//! Heads beside what they ask for.
use crate::tests::making::{CHECKSUM, REFERENCE, cells, joined, same};
use ebl_base::{NoMemory, Reference};
use http_heads::{MAX_BODY, MAX_FIELDS, Plan, Plans, Route, Scan, Status};
use std::alloc::Global;
use std::process::Abort;
use std::test::Fail;

const START: &[u8] = b"/v3/envelopes";

const DOCUMENT: &[u8] =
    b"/v3/envelopes/11111111-1111-1111-1111-111111111111/additional-documents/4444444444444444444444444444444444444444444444444444444444444444";

const FINISH: &[u8] = b"/v3/envelopes/11111111111111111111111111111111/finish-transfer";

const VALIDATION: &[u8] = b"/v3/receiver-validation";

const COMMAND: &[u8] = b"/v3/holder-commands";

const BILL: &[u8] = b"/v3/bills/4444444444444444444444444444444444444444444444444444444444444444";

// ---- where a head ends

// The end of a head in these bytes, which is found alike if they come in two parts.
fn scan_row<R: Abort>(rt: &R, bytes: &[u8], end: usize) {
    assert!(rt; end <= bytes.len());
    same(rt, &bytes, Scan::Blank.over(0, bytes), Ok(end));
    for at in 0..end {
        match Scan::Blank.over(0, &bytes[..at]) {
            Ok(_) => panic!(rt; "an end within {at} bytes"),
            Err(state) => {
                let found = state.over(at, &bytes[at..]);
                same(rt, &bytes, found, Ok(end));
            }
        }
    }
}

// RFC 9112, section 2.2: a recipient may take LF alone for a line's end, and should pass over empty lines in front.
const ENDS: [(&[u8], usize); 4] = [
    (b"GET / HTTP/1.1\r\n\r\nbody", 18),
    (b"GET / HTTP/1.1\n\nbody", 16),
    (b"\r\n\n\r\nGET / HTTP/1.1\r\na: b\r\n\n", 28),
    (b"a\r\r\n\r\n\r\n", 6),
];

#[test]
fn ends_of_heads(rt: HostRuntime) {
    for (bytes, end) in &ENDS {
        scan_row(&rt, bytes, *end);
    }
}

const ENDLESS: [(usize, &[u8], Scan); 3] = [
    (0, b"", Scan::Blank),
    (0, b"\r\n\r\n\n", Scan::Blank),
    (7, b"GET / HTTP/1.1\r\n\r", Scan::Return),
];

#[test]
fn bytes_without_an_end(rt: HostRuntime) {
    for (at, bytes, state) in &ENDLESS {
        same(&rt, bytes, Scan::Blank.over(*at, bytes), Err(*state));
    }
}

// ---- what heads ask for

fn plan_of(alloc: Global, head: &[u8]) -> Result<Plan, NoMemory> {
    let plans = Plans::new(alloc)?;
    let plan = plans.plan_of(head);
    drop(plans);
    Ok(plan)
}

// Asserts what a head asks for.
fn assert_plan<R: Abort>(rt: &R, alloc: Global, head: &[u8], want: Plan) -> Result<(), NoMemory> {
    let plan = plan_of(alloc, head)?;
    let text = str::from_utf8(head).unwrap_or("a head");
    same(rt, &text, plan, want);
    Ok(())
}

// A method, a path, the lines from the version on, and what the head asks for.
type Row = (&'static [u8], &'static [u8], &'static [u8], Plan);

fn plan_row<R: Abort>(rt: &R, alloc: Global, row: &Row) -> Result<(), NoMemory> {
    let (method, path, rest, plan) = row;
    let head = joined(alloc, &[method, b" ", path, b" ", rest, b"\r\n\r\n"])?;
    assert_plan(rt, alloc, &head, *plan)
}

// A question without a body, after which the link may stay open, or not.
const OPEN: Plan = Plan::Await {
    route: Route::Bill { bill: CHECKSUM },
    length: 0,
    keeps: true,
};

const CLOSED: Plan = Plan::Await {
    route: Route::Bill { bill: CHECKSUM },
    length: 0,
    keeps: false,
};

// A finish of 00112233-4455-6677-8899-aabbccddeeff.
const SPELT: Plan = Plan::Await {
    route: Route::Finish {
        reference: Reference([
            0, 17, 34, 51, 68, 85, 102, 119, 136, 153, 170, 187, 204, 221, 238, 255,
        ]),
    },
    length: 0,
    keeps: true,
};

const ASKED: [Row; 18] = [
    // Bodies of a stated length.
    (
        b"POST",
        START,
        b"HTTP/1.1\r\nContent-Length: 4194304",
        Plan::Await {
            route: Route::Start,
            length: MAX_BODY,
            keeps: true,
        },
    ),
    (
        b"PUT",
        DOCUMENT,
        b"HTTP/1.1\r\ncontent-length: 0000000000000000007",
        Plan::Await {
            route: Route::Document {
                reference: REFERENCE,
                checksum: CHECKSUM,
            },
            length: 7,
            keeps: true,
        },
    ),
    (
        b"POST",
        VALIDATION,
        b"HTTP/1.1\r\nContent-Length: 23\r\ncontent-length: 23",
        Plan::Await {
            route: Route::Validation,
            length: 23,
            keeps: true,
        },
    ),
    (
        b"POST",
        COMMAND,
        b"HTTP/1.1\r\nCONTENT-LENGTH:0",
        Plan::Await {
            route: Route::Command,
            length: 0,
            keeps: true,
        },
    ),
    // Requests that need no length.
    (
        b"PUT",
        FINISH,
        b"HTTP/1.1",
        Plan::Await {
            route: Route::Finish {
                reference: REFERENCE,
            },
            length: 0,
            keeps: true,
        },
    ),
    (b"GET", BILL, b"HTTP/1.1", OPEN),
    (
        b"GET",
        BILL,
        b"HTTP/1.1\r\ncontent-length: 12",
        Plan::Await {
            route: Route::Bill { bill: CHECKSUM },
            length: 12,
            keeps: true,
        },
    ),
    // Links that may stay open, and those that may not.
    (b"GET", BILL, b"HTTP/1.1\r\nconnection: keep-alive", OPEN),
    (b"GET", BILL, b"HTTP/1.1\r\nconnection: close, te", OPEN),
    (b"GET", BILL, b"HTTP/1.1\r\nproxy-connection: close", OPEN),
    (b"GET", BILL, b"HTTP/1.0", CLOSED),
    (b"GET", BILL, b"HTTP/1.0\r\nconnection: keep-alive", CLOSED),
    (b"GET", BILL, b"HTTP/1.1\r\nConnection: CLOSE", CLOSED),
    (
        b"GET",
        BILL,
        b"HTTP/1.1\nconnection: te\nconnection:\tclose ",
        CLOSED,
    ),
    // Spellings of a reference.
    (
        b"PUT",
        b"/v3/envelopes/00112233-4455-6677-8899-AABBCCDDEEFF/finish-transfer",
        b"HTTP/1.1",
        SPELT,
    ),
    (
        b"PUT",
        b"/v3/envelopes/00112233445566778899aabbccddeeff/finish-transfer",
        b"HTTP/1.1",
        SPELT,
    ),
    (
        b"PUT",
        b"/v3/envelopes/{00112233-4455-6677-8899-aabbccddeeff}/finish-transfer",
        b"HTTP/1.1",
        SPELT,
    ),
    (
        b"PUT",
        b"/v3/envelopes/urn:uuid:00112233-4455-6677-8899-aabbccddeeff/finish-transfer",
        b"HTTP/1.1",
        SPELT,
    ),
];

#[test]
fn what_heads_ask_for(rt: HostRuntime) -> Result<(), Fail> {
    for row in &ASKED {
        plan_row(&rt, rt.alloc(), row)?;
    }
    Ok(())
}

// ---- paths near the six

const NO_ROUTE: Plan = Plan::Refuse(Status::NotFound);

// A path of these two parts has no route.
fn assert_no_route<R: Abort>(
    rt: &R,
    alloc: Global,
    front: &[u8],
    back: &[u8],
) -> Result<(), NoMemory> {
    let rest = b" HTTP/1.1\r\ncontent-length: 0\r\n\r\n";
    let head = joined(alloc, &[b"POST ", front, back, rest])?;
    assert_plan(rt, alloc, &head, NO_ROUTE)
}

// A path with one byte left out, and with one twice, has no route; nor has it one behind a further byte at its end.
const ENDINGS: [&[u8]; 5] = [b"/", b"?", b"#", b"x", b"*"];

fn near_paths<R: Abort>(rt: &R, alloc: Global, path: &[u8]) -> Result<(), NoMemory> {
    for at in 0..path.len() {
        assert_no_route(rt, alloc, &path[..at], &path[at + 1..])?;
        assert_no_route(rt, alloc, &path[..at + 1], &path[at..])?;
    }
    endings(rt, alloc, path)
}

fn endings<R: Abort>(rt: &R, alloc: Global, path: &[u8]) -> Result<(), NoMemory> {
    for end in &ENDINGS {
        assert_no_route(rt, alloc, path, end)?;
    }
    Ok(())
}

const SIX: [&[u8]; 6] = [START, DOCUMENT, FINISH, VALIDATION, COMMAND, BILL];

#[test]
fn paths_near_the_six(rt: HostRuntime) -> Result<(), Fail> {
    for path in &SIX {
        near_paths(&rt, rt.alloc(), path)?;
    }
    Ok(())
}

// ---- heads that are refused

// In each row the phrase of the status that refuses a head, and the head. Each of these is refused by the next status
// in order too: no head, and a coding; a coding, and no route; no route, and a method that no route has; another method
// than the route's, and no length; no length, neither malformed nor too large; a malformed length, and two that differ,
// each too large. The last is only too large.
const IN_ORDER: &str = "Bad Request|POST /v3/none HTTP/1.1\r\nTransfer Encoding: x\r\n\r\n~\
    Bad Request|\r\n\r\n~\
    Bad Request|nothing\r\n\r\n~\
    Bad Request|GET /v3/none HTTP/2.0\r\n\r\n~\
    Bad Request|GET /v3/none HTTP/1.1\r\n\r\n\r\n~\
    Not Implemented|GET /v3/none HTTP/1.1\r\ntransfer-encoding: identity\r\n\r\n~\
    Not Implemented|GET /v3/none HTTP/1.1\r\nTRANSFER-ENCODING:\r\n\r\n~\
    Not Found|DELETE /v3/none HTTP/1.1\r\n\r\n~\
    Method Not Allowed|DELETE /v3/envelopes HTTP/1.1\r\n\r\n~\
    Method Not Allowed|post /v3/envelopes HTTP/1.1\r\n\r\n~\
    Length Required|POST /v3/envelopes HTTP/1.1\r\n\r\n~\
    Length Required|POST /v3/envelopes HTTP/1.1\r\ncontent_length: 1\r\n\r\n~\
    Bad Request|POST /v3/envelopes HTTP/1.1\r\nContent-Length: +4194305\r\n\r\n~\
    Bad Request|POST /v3/envelopes HTTP/1.1\r\nContent-Length: 4194305\r\nContent-Length: 4194306\r\n\r\n~\
    Payload Too Large|POST /v3/envelopes HTTP/1.1\r\nContent-Length: 4194305\r\n\r\n";

const LENGTHS: &str = "Bad Request|POST /v3/envelopes HTTP/1.1\r\ncontent-length: \r\n\r\n~\
    Bad Request|POST /v3/envelopes HTTP/1.1\r\ncontent-length: x\r\n\r\n~\
    Bad Request|POST /v3/envelopes HTTP/1.1\r\ncontent-length: -1\r\n\r\n~\
    Bad Request|POST /v3/envelopes HTTP/1.1\r\ncontent-length: 1 2\r\n\r\n~\
    Bad Request|POST /v3/envelopes HTTP/1.1\r\ncontent-length: 5, 5\r\n\r\n~\
    Bad Request|POST /v3/envelopes HTTP/1.1\r\ncontent-length: 0x10\r\n\r\n~\
    Bad Request|POST /v3/envelopes HTTP/1.1\r\ncontent-length: 1.5\r\n\r\n~\
    Bad Request|POST /v3/envelopes HTTP/1.1\r\ncontent-length: 00000000000000000007\r\n\r\n~\
    Payload Too Large|POST /v3/envelopes HTTP/1.1\r\ncontent-length: 4194305\r\n\r\n~\
    Payload Too Large|POST /v3/envelopes HTTP/1.1\r\ncontent-length: 9999999999999999999\r\n\r\n~\
    Payload Too Large|POST /v3/envelopes HTTP/1.1\r\ncontent-length: 0000000000004194305\r\n\r\n~\
    Bad Request|POST /v3/envelopes HTTP/1.1\r\ncontent-length: 0\r\ncontent-length: 00\r\n\r\n";

// Paths that are none of the six.
const OTHER_PATHS: &str = "Not Found|POST / HTTP/1.1\r\ncontent-length: 0\r\n\r\n~\
    Not Found|POST * HTTP/1.1\r\ncontent-length: 0\r\n\r\n~\
    Not Found|POST /v3 HTTP/1.1\r\ncontent-length: 0\r\n\r\n~\
    Not Found|POST /v2/envelopes HTTP/1.1\r\ncontent-length: 0\r\n\r\n~\
    Not Found|POST /V3/envelopes HTTP/1.1\r\ncontent-length: 0\r\n\r\n~\
    Not Found|POST /v3/Envelopes HTTP/1.1\r\ncontent-length: 0\r\n\r\n~\
    Not Found|POST /v3/%65nvelopes HTTP/1.1\r\ncontent-length: 0\r\n\r\n~\
    Not Found|POST http://pint/v3/envelopes HTTP/1.1\r\ncontent-length: 0\r\n\r\n~\
    Not Found|POST /v3/envelopes/{reference}/finish-transfer HTTP/1.1\r\ncontent-length: 0\r\n\r\n~\
    Not Found|POST /v3/envelopes/11111111-1111-1111-1111-111111111111 HTTP/1.1\r\ncontent-length: 0\r\n\r\n~\
    Not Found|POST /v3/envelopes/11111111-1111-1111-1111-111111111111/additional-documents HTTP/1.1\r\n\
        content-length: 0\r\n\r\n~\
    Not Found|POST /v3/envelopes/11111111-1111-1111-1111-111111111111/additional-documents/\
        finish-transfer HTTP/1.1\r\ncontent-length: 0\r\n\r\n~\
    Not Found|POST /v3/envelopes/additional-documents/\
        4444444444444444444444444444444444444444444444444444444444444444 HTTP/1.1\r\ncontent-length: 0\r\n\r\n~\
    Not Found|POST /v3/envelopes/g1111111-1111-1111-1111-111111111111/finish-transfer HTTP/1.1\r\n\
        content-length: 0\r\n\r\n~\
    Not Found|POST /v3/bills/444444444444444444444444444444444444444444444444444444444444444g HTTP/1.1\r\n\
        content-length: 0\r\n\r\n~\
    Not Found|POST /v3/bills/44136FA355B3678A1146AD16F7E8649E94FB4FC21FE77E8310C060F61CAAFF8A HTTP/1.1\r\n\
        content-length: 0\r\n\r\n";

fn refusal(plan: Plan) -> &'static str {
    match plan {
        Plan::Refuse(status) => status.phrase(),
        Plan::Await { .. } => "not refused",
    }
}

fn refused_row<R: Abort>(rt: &R, alloc: Global, row: &str) -> Result<(), NoMemory> {
    let (phrase, head) = cells(rt, row);
    let plan = plan_of(alloc, head.as_bytes())?;
    same(rt, &row, refusal(plan), phrase);
    Ok(())
}

fn refused_rows<R: Abort>(rt: &R, alloc: Global, rows: &str) -> Result<(), NoMemory> {
    for row in rows.split('~') {
        refused_row(rt, alloc, row)?;
    }
    Ok(())
}

#[test]
fn refused_heads(rt: HostRuntime) -> Result<(), Fail> {
    for rows in &[IN_ORDER, LENGTHS, OTHER_PATHS] {
        refused_rows(&rt, rt.alloc(), rows)?;
    }
    Ok(())
}

// ---- the most fields

fn head_of_fields(alloc: Global, count: usize) -> Result<Vec<u8>, NoMemory> {
    let mut head = joined(alloc, &[b"GET ", BILL, b" HTTP/1.1\r\n"])?;
    for _ in 0..count {
        head.extend_from_slice(b"a:b\r\n")?;
    }
    head.extend_from_slice(b"\r\n")?;
    Ok(head)
}

const FIELDS: [(usize, Plan); 2] = [
    (MAX_FIELDS, OPEN),
    (MAX_FIELDS + 1, Plan::Refuse(Status::BadRequest)),
];

fn field_row<R: Abort>(rt: &R, alloc: Global, count: usize, plan: Plan) -> Result<(), NoMemory> {
    let head = head_of_fields(alloc, count)?;
    assert_plan(rt, alloc, &head, plan)
}

#[test]
fn heads_of_64_fields_and_65(rt: HostRuntime) -> Result<(), Fail> {
    for (count, plan) in &FIELDS {
        field_row(&rt, rt.alloc(), *count, *plan)?;
    }
    Ok(())
}

// ---- phrases

// The phrases of RFC 9110, section 15, except that of 413, which it calls Content Too Large, and of 507 (RFC 4918).
const PHRASES: [(Status, u16, &str); 15] = [
    (Status::Ok, 200, "OK"),
    (Status::Created, 201, "Created"),
    (Status::NoContent, 204, "No Content"),
    (Status::BadRequest, 400, "Bad Request"),
    (Status::NotFound, 404, "Not Found"),
    (Status::MethodNotAllowed, 405, "Method Not Allowed"),
    (Status::Conflict, 409, "Conflict"),
    (Status::LengthRequired, 411, "Length Required"),
    (Status::PayloadTooLarge, 413, "Payload Too Large"),
    (Status::UnprocessableEntity, 422, "Unprocessable Entity"),
    (Status::InternalServerError, 500, "Internal Server Error"),
    (Status::NotImplemented, 501, "Not Implemented"),
    (Status::BadGateway, 502, "Bad Gateway"),
    (Status::ServiceUnavailable, 503, "Service Unavailable"),
    (Status::InsufficientStorage, 507, "Insufficient Storage"),
];

#[test]
fn phrases(rt: HostRuntime) {
    for (status, number, phrase) in &PHRASES {
        let seen = (status.number(), status.phrase());
        same(&rt, status, seen, (*number, *phrase));
    }
}
