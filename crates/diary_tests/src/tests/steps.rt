//! What platforms write down of a bill, and the registers of it. A step is written as an act, or as a verb with a
//! chain, whose last entry it is about, or with a document:
//!
//! | Step | What is written down |
//! |---|---|
//! | `sign`, or another act | a Signed, or an Acted |
//! | `attached weights` | an Attached |
//! | `parted u`, `settled u`, `regained u` | a Parted, a Settled, a Regained |
//! | `begun u`, `taken u`, `begun-taken u` | a Begun, a Taken, both at once |
//! | `stored weights` | a Stored |
//! | `taken-of-another u` | a Taken of another bill |
//! | `disputed-of-another u` | a Declined of another bill since the chains part; the evidence is the entry |
//! | `declined u` | a Declined since the roster doesn't know the party; without evidence |
use super::entries::{Sample, sample_of, texts};
use super::making::{another_bill, bill_name, document_json, document_text, signed, transaction};
use bill_diary::{Frame, Record};
use document_checksum::checksum;
use ebl_base::{
    ByteList, ChainLink, CharList, Checksum, Code, Copied, Evidence, Items, Reason, SignedText,
};
use envelope_manifest::{Body, Manifest, Piece, encode as encode_manifest};
use std::alloc::Global;
use std::process::Abort;
use title_register::Register;

// ---- documents

/// An additional document is written as its bytes.
pub(crate) fn piece_of(alloc: Global, paper: &str) -> Piece {
    Piece {
        name: CharList::new(alloc),
        media: CharList::new(alloc),
        size: u32::try_from(paper.len()).unwrap_or(0),
        checksum: checksum(paper.as_bytes()),
    }
}

/// The manifest of a chain of a bill that ends in an entry, without documents.
pub(crate) fn manifest(alloc: Global, bill: Checksum, last: Checksum) -> Manifest {
    Manifest {
        bill,
        last,
        documents: Items::new(alloc),
    }
}

// The text of the manifest of a chain without documents, as the platform of its last entry signs it.
fn manifest_text<R: Abort>(rt: &R, alloc: Global, bill: Checksum, last: &ChainLink) -> SignedText {
    let payload = encode_manifest(alloc, &manifest(alloc, bill, last.name)).expect(rt, "no error");
    let text = signed(rt, alloc, last.entry.platform, &payload);
    drop(payload);
    text
}

// ---- records

fn signed_document<R: Abort>(rt: &R, alloc: Global, bill: &str, act: &str) -> Frame {
    let transaction = transaction(rt, act);
    let text = document_text(rt, alloc, bill);
    Frame::One(Record::Signed {
        bill: checksum(text.as_bytes()),
        document: ByteList::from_slice(alloc, text.as_bytes()).expect(rt, "no error"),
        transaction,
    })
}

fn acted<R: Abort>(rt: &R, alloc: Global, bill: &str, act: &str) -> Frame {
    if act.starts_with("sign") {
        return signed_document(rt, alloc, bill, act);
    }
    Frame::One(Record::Acted {
        bill: bill_name(rt, alloc, bill),
        transaction: transaction(rt, act),
    })
}

fn attached<R: Abort>(rt: &R, alloc: Global, bill: Checksum, paper: &str) -> Frame {
    let bytes = ByteList::from_slice(alloc, paper.as_bytes()).expect(rt, "no error");
    Frame::One(Record::Attached {
        bill,
        piece: piece_of(alloc, paper),
        bytes,
    })
}

fn stored<R: Abort>(rt: &R, alloc: Global, bill: Checksum, paper: &str) -> Frame {
    let bytes = ByteList::from_slice(alloc, paper.as_bytes()).expect(rt, "no error");
    Frame::One(Record::Stored {
        bill,
        entry: bill,
        checksum: checksum(paper.as_bytes()),
        bytes,
    })
}

fn parted<R: Abort>(rt: &R, alloc: Global, bill: Checksum, last: &ChainLink) -> Frame {
    let manifest_text = manifest_text(rt, alloc, bill, last);
    let link = last.copy(alloc).expect(rt, "no error");
    Frame::One(Record::Parted {
        bill,
        link,
        manifest: manifest(alloc, bill, last.name),
        manifest_text,
    })
}

// What the body of an envelope with a chain has.
fn body_parts<R: Abort>(rt: &R, alloc: Global, bill: Checksum, sample: &Sample) -> Body {
    let manifest = manifest_text(rt, alloc, bill, sample.last(rt));
    let chain = texts(rt, alloc, sample.chain.as_slice(), sample.entries);
    Body {
        document: document_json(rt, alloc, sample.bill),
        manifest,
        chain,
    }
}

fn body<R: Abort>(rt: &R, alloc: Global, bill: Checksum, sample: &Sample) -> ByteList {
    let parts = body_parts(rt, alloc, bill, sample);
    let bytes = parts.write(alloc).expect(rt, "no error");
    drop(parts);
    bytes
}

/// A Begun of a chain, with this manifest and body.
pub(crate) fn begun_with<R: Abort>(
    rt: &R,
    alloc: Global,
    bill: Checksum,
    sample: &Sample,
    manifest: Manifest,
    body: ByteList,
) -> Record {
    Record::Begun {
        bill,
        chain: sample.chain.copy(alloc).expect(rt, "no error"),
        manifest,
        body,
    }
}

fn begun<R: Abort>(rt: &R, alloc: Global, bill: Checksum, sample: &Sample) -> Record {
    let body = body(rt, alloc, bill, sample);
    let manifest = manifest(alloc, bill, sample.last(rt).name);
    begun_with(rt, alloc, bill, sample, manifest, body)
}

// A Begun, which may be taken at once.
fn came<R: Abort>(rt: &R, alloc: Global, bill: Checksum, sample: &Sample, is_taken: bool) -> Frame {
    let record = begun(rt, alloc, bill, sample);
    if is_taken {
        return Frame::BegunTaken(record);
    }
    Frame::One(record)
}

fn disputed<R: Abort>(rt: &R, alloc: Global, entry: &ChainLink) -> Frame {
    Frame::One(Record::Declined {
        bill: another_bill(),
        entry: entry.name,
        code: Code::DisputedEnvelope,
        reason: Reason::Parts,
        evidence: Evidence {
            own: None,
            theirs: Some(entry.text.copy(alloc).expect(rt, "no error")),
        },
    })
}

fn declined(bill: Checksum, entry: Checksum) -> Record {
    Record::Declined {
        bill,
        entry,
        code: Code::BadEnvelope,
        reason: Reason::Party,
        evidence: Evidence {
            own: None,
            theirs: None,
        },
    }
}

// A record that has no more than the name of an entry.
fn of_name<R: Abort>(rt: &R, bill: Checksum, verb: &str, entry: Checksum) -> Frame {
    match verb {
        "settled" => Frame::One(Record::Settled { bill, entry }),
        "regained" => Frame::One(Record::Regained { bill, entry }),
        "taken" => Frame::One(Record::Taken { bill, entry }),
        "taken-of-another" => Frame::One(Record::Taken {
            bill: another_bill(),
            entry,
        }),
        "declined" => Frame::One(declined(bill, entry)),
        _ => panic!(rt; "a step"),
    }
}

// A record of a chain.
fn of_chain<R: Abort>(rt: &R, alloc: Global, bill: Checksum, verb: &str, sample: &Sample) -> Frame {
    let last = sample.last(rt);
    match verb {
        "parted" => parted(rt, alloc, bill, last),
        "begun" => came(rt, alloc, bill, sample, false),
        "begun-taken" => came(rt, alloc, bill, sample, true),
        "disputed-of-another" => disputed(rt, alloc, last),
        _ => of_name(rt, bill, verb, last.name),
    }
}

/// What is written down at once.
pub(crate) fn frame<R: Abort>(
    rt: &R,
    alloc: Global,
    samples: &[Sample],
    bill: &str,
    step: &str,
) -> Frame {
    let Some((verb, of)) = step.split_once(' ') else {
        return acted(rt, alloc, bill, step);
    };
    let name = bill_name(rt, alloc, bill);
    match verb {
        "attached" => attached(rt, alloc, name, of),
        "stored" => stored(rt, alloc, name, of),
        _ => of_chain(rt, alloc, name, verb, sample_of(rt, samples, bill, of)),
    }
}

// ---- registers

/// A frame follows.
pub(crate) fn add<R: Abort>(rt: &R, alloc: Global, register: &mut Register, frame: Frame) {
    register.reserve(alloc, &frame).expect(rt, "no error");
    register.add(frame)
}

/// A diary goes on, with its register; steps stand between commas.
pub(crate) fn write_down<R: Abort>(
    rt: &R,
    alloc: Global,
    samples: &[Sample],
    bill: &str,
    register: &mut Register,
    steps: &str,
) {
    for step in steps.split(", ") {
        if !step.is_empty() {
            add(rt, alloc, register, frame(rt, alloc, samples, bill, step));
        }
    }
}

/// The register of the diary of these steps.
pub(crate) fn register<R: Abort>(
    rt: &R,
    alloc: Global,
    samples: &[Sample],
    bill: &str,
    steps: &str,
) -> Register {
    let mut register = Register::new(alloc);
    write_down(rt, alloc, samples, bill, &mut register, steps);
    register
}
