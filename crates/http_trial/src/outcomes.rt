//! The outcomes that words name.

use ebl_base::{
    ByteList, Checksum, ChecksumList, Code, Evidence, NoMemory, PlaceTag, Reference, SignedText,
};
use pint_responses::Response;
use platform_requests::{MessageList, Outcome, Reply, View};
use std::alloc::Global;

/// The bill and the missing document of every reply.
const CHECKSUM: Checksum = Checksum([0x44; 32]);

/// The outcome of a word, which is its reply's in an answer line, as `DONE` or `RECE`; none for any other word. What a
/// reply says is always the same; a signed text is `a.b.c`, which nobody signed.
pub(crate) fn outcome_of(alloc: Global, word: &str) -> Result<Option<Outcome>, NoMemory> {
    let reply = match word {
        "DONE" => Ok(absent()),
        "STARTED" => started(alloc),
        "STORED" => Ok(Reply::Stored),
        "RECE" => answer(alloc, Code::Received),
        "DISE" => answer(alloc, Code::DisputedEnvelope),
        "BENV" => answer(alloc, Code::BadEnvelope),
        "UNKNOWN_REFERENCE" => Ok(Reply::UnknownReference),
        "NOT_OURS" => Ok(Reply::NotOurs),
        "NO_MEMORY" => Ok(Reply::NoMemory),
        "SIGN" => Ok(Reply::Sign),
        "DISK" => Ok(Reply::Disk),
        "FULL" => Ok(Reply::Full),
        _ => return Ok(None),
    };
    let reply = reply?;
    let messages = MessageList::new(alloc);
    Ok(Some(Outcome { reply, messages }))
}

// A bill that isn't here.
fn absent() -> Reply {
    Reply::Done(View {
        bill: CHECKSUM,
        place: PlaceTag::Absent,
        entries: 0,
        title: None,
    })
}

fn started(alloc: Global) -> Result<Reply, NoMemory> {
    let mut missing = ChecksumList::new(alloc);
    missing.push(CHECKSUM)?;
    Ok(Reply::Started {
        reference: Reference([0x11; 16]),
        missing,
    })
}

fn answer(alloc: Global, code: Code) -> Result<Reply, NoMemory> {
    let text = SignedText::from_bytes(alloc, ByteList::from_slice(alloc, b"a.b.c")?)?;
    let response = Response {
        code,
        bill: None,
        last: None,
        standing: false,
        reason: None,
        missing: ChecksumList::new(alloc),
        evidence: Evidence {
            own: None,
            theirs: None,
        },
    };
    Ok(Reply::Answer { response, text })
}
