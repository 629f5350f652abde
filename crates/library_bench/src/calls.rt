//! Single calls, made again and again over what a file holds.
ghost use Rattle.std.specs.Prelude.{◌≡◌, [], None};

use crate::done;
use bill_diary::Frame;
use canonical_json::{Json, read, write};
use document_checksum::checksum;
use ebl_base::{Checksum, ChecksumList, Code, Entry, Evidence, MAX_SEALED_RESPONSE, PlatformCode};
use envelope_manifest::Body;
use pint_responses::{Response, seal, unseal};
use record_bytes::{frame_read, frame_write};
use signed_envelope::verify_text;
use std::alloc::Global;
use std::fs;
use test_signer::KeyedRing;

/// The calls.
#[derive(Clone, Copy)]
pub(crate) enum Call {
    Checksum,
    Read,
    Write,
    EntryDecode,
    EntryEncode,
    ManifestDecode,
    BodyRead,
    BodyWrite,
    Verify,
    Seal,
    Unseal,
    FrameRead,
    FrameWrite,
}

// The words of the calls.
const CALLS: [(&str, Call); 13] = [
    ("checksum", Call::Checksum),
    ("read", Call::Read),
    ("write", Call::Write),
    ("entry_decode", Call::EntryDecode),
    ("entry_encode", Call::EntryEncode),
    ("manifest_decode", Call::ManifestDecode),
    ("body_read", Call::BodyRead),
    ("body_write", Call::BodyWrite),
    ("verify", Call::Verify),
    ("seal", Call::Seal),
    ("unseal", Call::Unseal),
    ("frame_read", Call::FrameRead),
    ("frame_write", Call::FrameWrite),
];

/// The call of a word.
pub(crate) fn call_of(word: &str) -> Option<Call> {
    for (named, call) in &CALLS {
        if *named == word {
            return Some(*call);
        }
    }
    None
}

/// Makes the call so often over what the file holds. None comes where the file could not be read, or the call refused
/// what it holds.
pub(crate) fn call_over(rt: &HostRuntime, call: Call, file: &str, rounds: u32) -> Option<()> {
    let bytes = fs::read(rt, file).ok()?;
    if called(rt.alloc(), call, &bytes, rounds) {
        Some(())
    } else {
        None
    }
}

// Whether a call was done so often over the bytes.
fn called(alloc: Global, call: Call, bytes: &[u8], rounds: u32) -> bool {
    match call {
        Call::Write | Call::EntryDecode | Call::ManifestDecode => {
            over_json(alloc, call, bytes, rounds)
        }
        Call::EntryEncode => over_entry(alloc, bytes, rounds),
        Call::BodyWrite => over_body(alloc, bytes, rounds),
        Call::FrameWrite => over_frame(alloc, bytes, rounds),
        Call::Seal => over_answer(alloc, bytes, rounds),
        _ => over_bytes(alloc, call, bytes, rounds),
    }
}

fn over_bytes(alloc: Global, call: Call, bytes: &[u8], rounds: u32) -> bool {
    let Some(who) = PlatformCode::try_new(b"ALPH") else {
        return false;
    };
    let ring = KeyedRing::derived();
    for _ in 0..rounds {
        if !read_once(alloc, &ring, who, call, bytes) {
            return false;
        }
    }
    true
}

fn read_once(alloc: Global, ring: &KeyedRing, who: PlatformCode, call: Call, bytes: &[u8]) -> bool {
    match call {
        // The answer is looked at, so that no work is left out.
        Call::Checksum => checksum(bytes) != Checksum([0; 32]),
        Call::Read => done(read(alloc, bytes)),
        Call::BodyRead => done(Body::read(alloc, bytes)),
        Call::FrameRead => done(frame_read(alloc, bytes)),
        Call::Verify => done(verify_text(alloc, ring, bytes, who, MAX_SEALED_RESPONSE)),
        Call::Unseal => done(unseal(alloc, ring, bytes, who)),
        _ => false,
    }
}

fn over_json(alloc: Global, call: Call, bytes: &[u8], rounds: u32) -> bool {
    match read(alloc, bytes) {
        Ok(json) => json_often(alloc, call, &json, rounds),
        Err(_) => false,
    }
}

fn json_often(alloc: Global, call: Call, json: &Json, rounds: u32) -> bool {
    for _ in 0..rounds {
        if !json_once(alloc, call, json) {
            return false;
        }
    }
    true
}

fn json_once(alloc: Global, call: Call, json: &Json) -> bool {
    match call {
        Call::Write => done(write(alloc, json)),
        Call::EntryDecode => done(chain_entry::decode(alloc, json)),
        Call::ManifestDecode => done(envelope_manifest::decode(alloc, json)),
        _ => false,
    }
}

fn over_entry(alloc: Global, bytes: &[u8], rounds: u32) -> bool {
    match entry_in(alloc, bytes) {
        Some(entry) => encode_often(alloc, &entry, rounds),
        None => false,
    }
}

fn entry_in(alloc: Global, bytes: &[u8]) -> Option<Entry> {
    let json = read(alloc, bytes).ok()?;
    chain_entry::decode(alloc, &json).ok()
}

fn encode_often(alloc: Global, entry: &Entry, rounds: u32) -> bool {
    for _ in 0..rounds {
        if !done(chain_entry::encode(alloc, entry)) {
            return false;
        }
    }
    true
}

fn over_body(alloc: Global, bytes: &[u8], rounds: u32) -> bool {
    match Body::read(alloc, bytes) {
        Ok(body) => write_body_often(alloc, &body, rounds),
        Err(_) => false,
    }
}

fn write_body_often(alloc: Global, body: &Body, rounds: u32) -> bool {
    for _ in 0..rounds {
        if !done(body.write(alloc)) {
            return false;
        }
    }
    true
}

fn over_frame(alloc: Global, bytes: &[u8], rounds: u32) -> bool {
    match frame_read(alloc, bytes) {
        Ok(frame) => {
            let is_written = write_frame_often(alloc, &frame, rounds);
            drop(frame);
            is_written
        }
        Err(_) => false,
    }
}

fn write_frame_often(alloc: Global, frame: &Frame, rounds: u32) -> bool {
    for _ in 0..rounds {
        if !done(frame_write(alloc, frame)) {
            return false;
        }
    }
    true
}

// The answer that a bill was received, whose name is the checksum of the bytes, sealed by ALPH.
fn over_answer(alloc: Global, bytes: &[u8], rounds: u32) -> bool {
    seal_often(alloc, &received(alloc, checksum(bytes)), rounds)
}

fn seal_often(alloc: Global, response: &Response, rounds: u32) -> bool
    requires missing { response.now.missing ≡ [] }
    requires own { response.now.evidence.own ≡ None }
    requires theirs { response.now.evidence.theirs ≡ None }
{
    let Some(who) = PlatformCode::try_new(b"ALPH") else {
        return false;
    };
    let mut ring = KeyedRing::derived();
    for _ in 0..rounds {
        if !done(seal(alloc, &mut ring, who, response)) {
            return false;
        }
    }
    true
}

fn received(alloc: Global, name: Checksum) -> Response
    ensures missing { result.missing ≡ [] }
    ensures own { result.evidence.own ≡ None }
    ensures theirs { result.evidence.theirs ≡ None }
{
    Response {
        code: Code::Received,
        bill: Some(name),
        last: Some(name),
        standing: true,
        reason: None,
        missing: ChecksumList::new(alloc),
        evidence: Evidence {
            own: None,
            theirs: None,
        },
    }
}
