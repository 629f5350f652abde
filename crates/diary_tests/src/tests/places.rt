//! Places of the bill by short diaries, and each search of a register.
use super::entries::{Sample, sample_of, samples, written, written_chain};
use super::families::assert_diaries;
use super::making::{THE_BILL, another_bill, assert_text, bill_name, columns};
use super::steps::{add, begun_with, manifest, piece_of, register, write_down};
use bill_diary::{DiaryIndex, Frame, History, Record, place_of, settled_chain, taken_chain};
use document_checksum::checksum;
use ebl_base::{ByteList, Chain, Checksum, Copied};
use envelope_manifest::{Manifest, Piece};
use std::alloc::{AllocError, Global};
use std::fmt::Debug;
use std::process::Abort;
use std::str::from_utf8;
use title_register::{
    Register, first_bytes, last_body, last_parted_record, last_with_reference, signed_text,
};
use upload_state::reference_of;

// The lines are those of `families`. First, into and out of each place, where the bill began: from no record on, away
// and back through a refusal, away for good, back by a chain that goes on, and back through the entry that is parting.
//
// Then, what no sound diary has, but the definition says: the longest chain counts and not the newest, of equally long
// ones the last; an entry that is parting is looked for before a settled one.
//
// Then, a title that is ended lets nobody act, though the bill is held. Last, look-ups by the name of an entry go over
// all bills.
const PLACES: &str = "\
ALPH 4|1||absent
ALPH 4|1|sign|held - 1, Signed ALPH/CARRIER, acts, signed
ALPH 4|1|issue|held - 2, Live ALPH/EXPORT, acts, signed
ALPH 4|1|parted u|parting - u, Live BETA/IMPORT, signed
ALPH 4|1|regained u|held - 2, Live ALPH/EXPORT, acts, signed
ALPH 4|1|parted o|parting - o, Live BETA/IMPORT, signed
ALPH 4|1|settled o|gone o, Live BETA/IMPORT, signed
ALPH 4|1|begun o.u|gone o, Live BETA/IMPORT, signed
ALPH 4|1|taken o.u|held o.u 0, Live ALPH/EXPORT, acts, signed, took o.u 1
ALPH 4|1|parted o.u.u|parting o.u o.u.u, Live BETA/IMPORT, signed, took o.u 1
ALPH 4|1|begun-taken o.u.u.u|held o.u.u.u 0, Live ALPH/EXPORT, acts, signed, took o.u 1, took o.u.u.u 1

ALPH 4|1|begun u.u|absent
ALPH 4|1|begun o|absent
ALPH 4|1|taken u.u|held u.u 0, Live ALPH/EXPORT, acts, took u.u 1
ALPH 4|1|taken o|unfit, held u.u 0, Live ALPH/EXPORT, acts, took u.u 1, took o 1
ALPH 4|1|begun u.o|unfit, held u.u 0, Live ALPH/EXPORT, acts, took u.u 1, took o 1
ALPH 4|1|taken u.o|unfit, held u.o 0, Live ALPH/EXPORT, acts, took u.u 1, took o 1, took u.o 1
ALPH 4|1|settled u.o|unfit, gone u.o, Live ALPH/EXPORT, took u.u 1, took o 1, took u.o 1
ALPH 4|1|parted u.u.u|unfit, parting u.o u.u.u, Live BETA/IMPORT, took u.u 1, took o 1, took u.o 1

ALPH 4|1|sign|held - 1, Signed ALPH/CARRIER, acts, signed
ALPH 4|1|issue|held - 2, Live ALPH/EXPORT, acts, signed
ALPH 4|1|for-delivery|held - 3, Asked ALPH/CARRIER, acts, signed
ALPH 4|1|accept|held - 4, Ended ALPH/CARRIER, signed

ALPH 4|1|taken-of-another u|absent, took u 1
ALPH 4|1|stored packing list|absent, took u 1
ALPH 4|1|disputed-of-another u.u|absent, took u 1, declined u.u DISE PARTS";

#[test]
fn where_bills_stand(rt: HostRuntime) {
    assert_diaries(&rt, rt.alloc(), PLACES)
}

// ---- histories

fn written_or_none(samples: &[Sample], chain: Option<&Chain>) -> &'static str {
    match chain {
        Some(chain) => written_chain(samples, chain),
        None => "none",
    }
}

fn known_of<R: Abort>(
    rt: &R,
    alloc: Global,
    samples: &[Sample],
    history: &History,
) -> &'static str {
    let place = place_of(alloc, history.restart()).expect(rt, "no error");
    let told = written_or_none(samples, place.known());
    drop(place);
    told
}

fn settled_of<R: Abort>(
    rt: &R,
    alloc: Global,
    samples: &[Sample],
    history: &History,
    entry: Checksum,
) -> &'static str {
    let settled = settled_chain(alloc, history.restart(), entry).expect(rt, "no error");
    let told = written_or_none(samples, settled.as_ref());
    drop(settled);
    told
}

// The known chain, and those that a Taken and a Settled of the last entry of a chain would tell.
fn telling<R: Abort>(
    rt: &R,
    alloc: Global,
    samples: &[Sample],
    history: &History,
    asked: &str,
) -> String {
    let entry = sample_of(rt, samples, THE_BILL, asked).last(rt).name;
    let taken = written_or_none(samples, taken_chain(history.restart(), entry));
    let settled = settled_of(rt, alloc, samples, history, entry);
    let known = known_of(rt, alloc, samples, history);
    format!(in alloc; "known {known}, taken {taken}, settled {settled}").expect(rt, "no error")
}

fn assert_tells<R: Abort>(
    rt: &R,
    alloc: Global,
    samples: &[Sample],
    history: &History,
    asked: &str,
    want: &str,
) {
    let seen = telling(rt, alloc, samples, history, asked);
    assert_text(rt, seen.as_str(), want, asked);
}

// Steps, the chain whose last entry is asked for after them, and what is told.
const TELLINGS: &str = "\
|u|known none, taken none, settled none
begun-taken u.u|u.u|known u.u, taken u.u, settled none
parted u.u.u|u.u.u|known u.u, taken none, settled u.u.u
|u.u.o|known u.u, taken none, settled none";

fn assert_telling<R: Abort>(
    rt: &R,
    alloc: Global,
    samples: &[Sample],
    register: &mut Register,
    row: &str,
) {
    let [steps, asked, want, ..] = columns(row);
    write_down(rt, alloc, samples, THE_BILL, register, steps);
    let history = History::of(register.frames(), bill_name(rt, alloc, THE_BILL));
    assert_tells(rt, alloc, samples, &history, asked, want)
}

fn assert_tellings<R: Abort>(rt: &R, alloc: Global, samples: &[Sample], register: &mut Register) {
    for row in TELLINGS.lines() {
        assert_telling(rt, alloc, samples, register, row);
    }
}

#[test]
fn chains_that_a_history_tells(rt: HostRuntime) {
    let samples = samples(&rt, rt.alloc());
    let mut register = Register::new(rt.alloc());
    assert_tellings(&rt, rt.alloc(), &samples, &mut register);
    drop(register);
}

// What the whole history tells, what the first two frames, and what that of an unknown bill.
fn assert_index<R: Abort>(
    rt: &R,
    alloc: Global,
    samples: &[Sample],
    index: &DiaryIndex,
    bill: Checksum,
) {
    assert!(rt; index.frames().len() == 3);
    let whole = index.history(bill);
    let told = "known u.u, taken none, settled u.u.u";
    assert_tells(rt, alloc, samples, &whole, "u.u.u", told);
    let in_front = index.history_in_front(2, bill);
    let told = "known u.u, taken u.u, settled none";
    assert_tells(rt, alloc, samples, &in_front, "u.u", told);
    let unknown = index.history(checksum(b"unknown"));
    let told = "known none, taken none, settled none";
    assert_tells(rt, alloc, samples, &unknown, "u.u", told)
}

fn assert_indexed<R: Abort>(rt: &R, alloc: Global, samples: &[Sample], frames: &[Frame]) {
    let bill = bill_name(rt, alloc, THE_BILL);
    let index = DiaryIndex::of(alloc, frames).expect(rt, "no error");
    assert_index(rt, alloc, samples, &index, bill)
}

const INDEXED: &str = "begun-taken u.u, taken-of-another u.u, parted u.u.u";

// The same by an index, of a diary with a frame of another bill.
#[test]
fn chains_that_an_indexed_history_tells(rt: HostRuntime) {
    let samples = samples(&rt, rt.alloc());
    let register = register(&rt, rt.alloc(), &samples, THE_BILL, INDEXED);
    assert_indexed(&rt, rt.alloc(), &samples, register.frames());
    drop(register);
}

// ---- documents

fn with_packing_list<R: Abort>(rt: &R, alloc: Global, bill: Checksum, last: Checksum) -> Manifest {
    let mut manifest = manifest(alloc, bill, last);
    manifest
        .documents
        .push(piece_of(alloc, "packing list"))
        .expect(rt, "no error");
    manifest
}

// The bill came with a packing list, in a body that is told from all others.
fn came<R: Abort>(rt: &R, alloc: Global, bill: Checksum, sample: &Sample) -> Frame {
    let manifest = with_packing_list(rt, alloc, bill, sample.last(rt).name);
    let body = ByteList::from_slice(alloc, b"the body").expect(rt, "no error");
    Frame::BegunTaken(begun_with(rt, alloc, bill, sample, manifest, body))
}

// Other bytes under the name of the weights.
fn stored_late<R: Abort>(rt: &R, alloc: Global, bill: Checksum, entry: Checksum) -> Frame {
    let bytes = ByteList::from_slice(alloc, b"other bytes").expect(rt, "no error");
    Frame::One(Record::Stored {
        bill,
        entry,
        checksum: checksum(b"weights"),
        bytes,
    })
}

fn put_came<R: Abort>(rt: &R, alloc: Global, samples: &[Sample], register: &mut Register) {
    let bill = bill_name(rt, alloc, THE_BILL);
    let sample = sample_of(rt, samples, THE_BILL, "u");
    add(rt, alloc, register, came(rt, alloc, bill, sample));
    write_down(rt, alloc, samples, THE_BILL, register, "attached weights")
}

fn put_stored<R: Abort>(rt: &R, alloc: Global, samples: &[Sample], register: &mut Register) {
    let bill = bill_name(rt, alloc, THE_BILL);
    let entry = sample_of(rt, samples, THE_BILL, "u").last(rt).name;
    add(rt, alloc, register, stored_late(rt, alloc, bill, entry));
    write_down(
        rt,
        alloc,
        samples,
        THE_BILL,
        register,
        "parted u.u, parted u.o",
    )
}

// A bill with a document came, was sent on twice, and has one document more.
fn with_documents<R: Abort>(rt: &R, alloc: Global, samples: &[Sample]) -> Register {
    let mut register = register(rt, alloc, samples, THE_BILL, "sign");
    put_came(rt, alloc, samples, &mut register);
    put_stored(rt, alloc, samples, &mut register);
    register
}

fn text_of(bytes: Option<&ByteList>) -> &str {
    match bytes {
        Some(list) => from_utf8(list.as_slice()).unwrap_or("no text"),
        None => "none",
    }
}

fn paper_of(name: Checksum) -> &'static str {
    if name == checksum(b"packing list") {
        return "packing list";
    }
    if name == checksum(b"weights") {
        "weights"
    } else {
        "another"
    }
}

// The documents that are listed, in their order.
fn put_listed(text: &mut String, pieces: &[Piece]) -> Result<(), AllocError> {
    for piece in pieces {
        let paper = paper_of(piece.checksum);
        write!(text, "{paper}, ")?;
    }
    Ok(())
}

fn put_parted(
    text: &mut String,
    samples: &[Sample],
    register: &Register,
    bill: Checksum,
) -> Result<(), AllocError> {
    let times = register.partings(bill);
    let last = match last_parted_record(register, bill) {
        Some(parted) => written(samples, Some(parted.link.name)),
        None => "none",
    };
    write!(text, "parted {times} last {last}, ")
}

// Whether the packing list's bytes are there, the first bytes of the weights, the last body, and whether the document
// was signed.
fn put_bytes(text: &mut String, register: &Register, bill: Checksum) -> Result<(), AllocError> {
    let is_there = register.kept(bill, checksum(b"packing list")).is_some();
    let weights = text_of(first_bytes(register, bill, checksum(b"weights")));
    let body = text_of(last_body(register, bill));
    let is_signed = signed_text(register, bill).is_some();
    write!(
        text,
        "bytes {is_there} {weights}, body {body}, signed {is_signed}"
    )
}

fn put_searched(
    text: &mut String,
    samples: &[Sample],
    register: &Register,
    bill: Checksum,
) -> Result<(), AllocError> {
    put_listed(text, register.pieces(bill))?;
    put_parted(text, samples, register, bill)?;
    put_bytes(text, register, bill)
}

fn assert_searched<R: Abort>(
    rt: &R,
    alloc: Global,
    samples: &[Sample],
    register: &Register,
    bill: Checksum,
    want: &str,
) {
    let mut text = String::new(alloc);
    put_searched(&mut text, samples, register, bill).expect(rt, "no error");
    assert_text(rt, text.as_str(), want, want);
}

// What the searches find of the bill, and of another one, of which nothing is written down.
fn assert_searches<R: Abort>(
    rt: &R,
    alloc: Global,
    samples: &[Sample],
    register: &Register,
    want: &str,
) {
    let bill = bill_name(rt, alloc, THE_BILL);
    assert_searched(rt, alloc, samples, register, bill, want);
    let nothing = "parted 0 last none, bytes false none, body none, signed false";
    assert_searched(rt, alloc, samples, register, another_bill(), nothing)
}

#[test]
fn searches(rt: HostRuntime) {
    let samples = samples(&rt, rt.alloc());
    let register = with_documents(&rt, rt.alloc(), &samples);
    let want =
        "packing list, weights, parted 2 last u.o, bytes false weights, body the body, signed true";
    assert_searches(&rt, rt.alloc(), &samples, &register, want);
    drop(register);
}

const STORED: &str = "taken-of-another u, stored packing list, disputed-of-another u.u";

// The bytes of a document are those of one bill.
#[test]
fn searches_for_bytes(rt: HostRuntime) {
    let samples = samples(&rt, rt.alloc());
    let register = register(&rt, rt.alloc(), &samples, THE_BILL, STORED);
    let want = "parted 0 last none, bytes true none, body none, signed false";
    assert_searches(&rt, rt.alloc(), &samples, &register, want);
    drop(register);
}

// The body of the last Begun with the reference of an upload with an entry.
fn referred(register: &Register, bill: Checksum, entry: Checksum) -> &str {
    match last_with_reference(register, reference_of(bill, entry)) {
        Some(begun) => text_of(Some(begun.body)),
        None => "none",
    }
}

fn assert_referred<R: Abort>(
    rt: &R,
    alloc: Global,
    samples: &[Sample],
    register: &Register,
    entries: &str,
    want: &str,
) {
    let entry = sample_of(rt, samples, THE_BILL, entries).last(rt).name;
    let bill = bill_name(rt, alloc, THE_BILL);
    assert_text(rt, referred(register, bill, entry), want, entries);
}

// By the reference of a Begun, which a Parted hasn't.
#[test]
fn searches_by_reference(rt: HostRuntime) {
    let samples = samples(&rt, rt.alloc());
    let register = with_documents(&rt, rt.alloc(), &samples);
    assert_referred(&rt, rt.alloc(), &samples, &register, "u", "the body");
    assert_referred(&rt, rt.alloc(), &samples, &register, "u.u", "none");
    drop(register);
}

// ---- copies

/// Asserts that two values say the same.
pub(crate) fn assert_same<R: Abort, T: Debug>(rt: &R, alloc: Global, value: &T, other: &T) {
    let text = format!(in alloc; "{value:?}").expect(rt, "no error");
    let again = format!(in alloc; "{other:?}").expect(rt, "no error");
    assert_text(rt, again.as_str(), text.as_str(), "the same");
}

fn assert_copied<R: Abort, T: Copied + Debug>(rt: &R, alloc: Global, value: &T) {
    let copy = value.copy(alloc).expect(rt, "no error");
    assert_same(rt, alloc, value, &copy)
}

// A diary and the place of its bill.
#[test]
fn copies(rt: HostRuntime) {
    let samples = samples(&rt, rt.alloc());
    let mut register = with_documents(&rt, rt.alloc(), &samples);
    register.release();
    let diary = register.into_diary();
    assert_copied(&rt, rt.alloc(), &diary);
    let history = History::of(diary.as_slice(), bill_name(&rt, rt.alloc(), THE_BILL));
    let place = place_of(rt.alloc(), history).expect(&rt, "no error");
    assert_copied(&rt, rt.alloc(), &place);
    drop(place);
}
