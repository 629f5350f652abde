//! Frames and their bytes.
use super::frames::{
    ACTED, ATTACHED, BEGUN, BEGUN_TAKEN, BILL, DECLINED, DEEP, DEEP_BILL, FIRST, OWN, PARTED,
    PARTY, REGAINED, SECOND, SETTLED, SIGNED, STORED, TAKEN, THEIRS,
};
use super::no_frames::NO_FRAMES;
use bill_diary::{Frame, Record};
use document_checksum::from_text;
use ebl_base::{Checksum, Code, Evidence, Reason, Transaction};
use hex::decode;
use record_bytes::{FrameFault, frame_read, frame_write};
use std::alloc::{AllocError, Global};
use std::fmt::{Debug, Display};
use std::process::Abort;
use std::test::Fail;

// The value is the one that is expected. A message names the row.
fn same<T: Copy + Debug + PartialEq>(rt: &impl Abort, row: &impl Display, seen: T, want: T) {
    assert_eq!(rt; seen, want, "{row}");
}

fn bytes_of(alloc: Global, digits: &str) -> Result<Vec<u8>, Fail> {
    Ok(decode(alloc, digits)?)
}

// ---- what a frame tells

/// The number of its record's kind, its bill, the entry that the record names (the last one, of a chain), whether it is
/// a Begun with its Taken, and whether it is written as the bytes that it was read of.
type Told = (u8, Checksum, Option<Checksum>, bool, bool);

fn kept(frame: &Frame) -> &Record {
    match frame {
        Frame::One(record) => record,
        Frame::BegunTaken(begun) => begun,
    }
}

fn kind_of(kept: &Record) -> u8 {
    match kept {
        Record::Signed { .. } => 1,
        Record::Acted { .. } => 2,
        Record::Attached { .. } => 3,
        Record::Parted { .. } => 4,
        Record::Settled { .. } => 5,
        Record::Regained { .. } => 6,
        Record::Begun { .. } => 7,
        Record::Stored { .. } => 8,
        Record::Taken { .. } => 9,
        Record::Declined { .. } => 10,
    }
}

fn entry_of(kept: &Record) -> Option<Checksum> {
    match kept {
        Record::Parted { link, .. } => Some(link.name),
        Record::Begun { chain, .. } => Some(chain.as_slice().last()?.name),
        Record::Settled { entry, .. }
        | Record::Regained { entry, .. }
        | Record::Stored { entry, .. }
        | Record::Taken { entry, .. }
        | Record::Declined { entry, .. } => Some(*entry),
        _ => None,
    }
}

fn is_written_as(alloc: Global, frame: &Frame, bytes: &[u8]) -> bool {
    match frame_write(alloc, frame) {
        Ok(again) => again.as_slice() == bytes,
        Err(_) => false,
    }
}

fn frame_told(alloc: Global, frame: &Frame, bytes: &[u8]) -> Told {
    let record = kept(frame);
    let is_taken = matches!(frame, Frame::BegunTaken(_));
    let again = is_written_as(alloc, frame, bytes);
    (
        kind_of(record),
        record.bill(),
        entry_of(record),
        is_taken,
        again,
    )
}

// What the frame of these bytes tells, or why they are none.
fn told(alloc: Global, bytes: &[u8]) -> Result<Told, FrameFault> {
    match frame_read(alloc, bytes) {
        Ok(frame) => {
            let told = frame_told(alloc, &frame, bytes);
            drop(frame);
            Ok(told)
        }
        Err(fault) => Err(fault),
    }
}

// What bytes tell that are refused as no frame.
const NONE: Result<Told, FrameFault> = Err(FrameFault::NotAFrame);

// Whether the bytes are.
fn is_refused(alloc: Global, bytes: &[u8]) -> bool {
    told(alloc, bytes) == NONE
}

// Whether the bytes are no frame, or the frame that they are has these bytes.
fn is_settled(alloc: Global, bytes: &[u8]) -> bool {
    match told(alloc, bytes) {
        Ok((_, _, _, _, again)) => again,
        Err(fault) => fault == FrameFault::NotAFrame,
    }
}

// ---- each record, and a Begun with its Taken

/// A frame's digits, the number of its record's kind, the names of its bill and of the entry that the record names, and
/// whether it is a Begun with its Taken.
type Row = (&'static str, u8, &'static str, Option<&'static str>, bool);

// Bills and entries have the names that Python's hashlib gives their texts.
const FRAMES: [Row; 15] = [
    (SIGNED, 1, BILL, None, false),
    (ACTED, 2, BILL, None, false),
    (ATTACHED, 3, BILL, None, false),
    (PARTED, 4, BILL, Some(FIRST), false),
    (SETTLED, 5, BILL, Some(FIRST), false),
    (REGAINED, 6, BILL, Some(FIRST), false),
    (BEGUN, 7, BILL, Some(SECOND), false),
    (BEGUN_TAKEN, 7, BILL, Some(SECOND), true),
    (STORED, 8, BILL, Some(FIRST), false),
    (TAKEN, 9, BILL, Some(FIRST), false),
    (DECLINED, 10, BILL, Some(FIRST), false),
    (PARTY, 10, BILL, Some(FIRST), false),
    (OWN, 10, BILL, Some(FIRST), false),
    (THEIRS, 10, BILL, Some(FIRST), false),
    (DEEP, 1, DEEP_BILL, None, false),
];

fn entry_named(digits: Option<&str>) -> Option<Checksum> {
    from_text(digits?.as_bytes())
}

fn wanted(row: &Row) -> Option<Told> {
    let (_, kind, bill, entry, is_taken) = row;
    let bill = from_text(bill.as_bytes())?;
    Some((*kind, bill, entry_named(*entry), *is_taken, true))
}

fn assert_frame<R: Abort>(rt: &R, alloc: Global, row: &Row) -> Result<(), Fail> {
    let digits = row.0;
    let want = wanted(row).ok_or("a name")?;
    let bytes = bytes_of(alloc, digits)?;
    same(rt, &digits, told(alloc, &bytes), Ok(want));
    Ok(())
}

#[test]
fn each_frame_is_read_and_written(rt: HostRuntime) -> Result<(), Fail> {
    for row in &FRAMES {
        assert_frame(&rt, rt.alloc(), row)?;
    }
    Ok(())
}

// ---- what stands in some of them

fn transaction_told(alloc: Global, transaction: &Transaction) -> Result<String, AllocError> {
    let kind = transaction.kind;
    let is_own = transaction.recipient == Some(transaction.actor);
    let time = transaction.time.number();
    format!(in alloc; "{kind:?} {is_own} {time}")
}

fn document_told(alloc: Global, name: &str, size: u32, bytes: &[u8]) -> Result<String, AllocError> {
    let text = str::from_utf8(bytes).unwrap_or("no text");
    format!(in alloc; "{name} {size} {text}")
}

fn cause_told(
    alloc: Global,
    code: Code,
    reason: Reason,
    evidence: &Evidence,
) -> Result<String, AllocError> {
    let own = evidence.own.is_some();
    let theirs = evidence.theirs.is_some();
    format!(in alloc; "{code:?} {reason:?} {own} {theirs}")
}

fn detail(alloc: Global, kept: &Record) -> Result<String, AllocError> {
    match kept {
        Record::Acted { transaction, .. } => transaction_told(alloc, transaction),
        Record::Attached { piece, bytes, .. } => {
            document_told(alloc, piece.name.as_str(), piece.size, bytes.as_slice())
        }
        Record::Declined {
            code,
            reason,
            evidence,
            ..
        } => cause_told(alloc, *code, *reason, evidence),
        _ => Ok(String::new(alloc)),
    }
}

fn detail_of(alloc: Global, bytes: &[u8]) -> Result<String, AllocError> {
    match frame_read(alloc, bytes) {
        Ok(frame) => {
            let detail = detail(alloc, kept(&frame));
            drop(frame);
            detail
        }
        Err(_) => String::from_str(alloc, "no frame"),
    }
}

/// The digits of a frame, and: of a transaction its kind, whether the actor hands on to itself, and the time; of a
/// listed document its name, its size and its bytes; of a Declined why the entry was declined, and whether there is own
/// evidence, and theirs.
const DETAILS: [(&str, &str); 6] = [
    (ACTED, "Issue true 1"),
    (ATTACHED, "a.txt 3 abc"),
    (DECLINED, "DisputedEnvelope Parts true true"),
    (OWN, "DisputedEnvelope Parts true false"),
    (THEIRS, "DisputedEnvelope Parts false true"),
    (PARTY, "BadEnvelope Party false false"),
];

fn detail_row<R: Abort>(rt: &R, alloc: Global, digits: &str, want: &str) -> Result<(), Fail> {
    let bytes = bytes_of(alloc, digits)?;
    let detail = detail_of(alloc, &bytes)?;
    same(rt, &digits, detail.as_str(), want);
    Ok(())
}

#[test]
fn transactions_documents_and_causes(rt: HostRuntime) -> Result<(), Fail> {
    for (digits, want) in &DETAILS {
        detail_row(&rt, rt.alloc(), digits, want)?;
    }
    Ok(())
}

// ---- bytes that are none

fn none_row<R: Abort>(rt: &R, alloc: Global, row: &str) -> Result<(), Fail> {
    let (name, digits) = row.split_once('|').ok_or("a bar")?;
    let bytes = bytes_of(alloc, digits)?;
    same(rt, &name, told(alloc, &bytes), NONE);
    Ok(())
}

#[test]
fn near_misses(rt: HostRuntime) -> Result<(), Fail> {
    for row in NO_FRAMES.lines() {
        none_row(&rt, rt.alloc(), row)?;
    }
    Ok(())
}

// The bytes of a frame are none with one byte more.
fn longer_row<R: Abort>(rt: &R, alloc: Global, digits: &str) -> Result<(), Fail> {
    let mut bytes = bytes_of(alloc, digits)?;
    bytes.push(0)?;
    same(rt, &digits, told(alloc, &bytes), NONE);
    Ok(())
}

// A Settled of 65 bytes with one byte more among them.
#[test]
fn one_byte_more(rt: HostRuntime) -> Result<(), Fail> {
    for row in &FRAMES {
        longer_row(&rt, rt.alloc(), row.0)?;
    }
    Ok(())
}

// How many bytes a Begun has without its Taken.
const ALONE: usize = BEGUN.len() / 2;

fn assert_each_front<R: Abort>(rt: &R, alloc: Global, bytes: &[u8], digits: &str) {
    for len in 0..bytes.len() {
        assert_eq!(rt;
            is_refused(alloc, &bytes[..len]),
            len != ALONE,
            "{len} bytes of {digits}"
        );
    }
}

fn assert_fronts<R: Abort>(rt: &R, alloc: Global, digits: &str) -> Result<(), Fail> {
    let bytes = bytes_of(alloc, digits)?;
    assert_each_front(rt, alloc, &bytes, digits);
    Ok(())
}

// A front of a frame is none, except for a Begun in front of its Taken: the others have fewer bytes.
#[test]
fn every_front(rt: HostRuntime) -> Result<(), Fail> {
    for digits in &[SETTLED, DECLINED, BEGUN_TAKEN] {
        assert_fronts(&rt, rt.alloc(), digits)?;
    }
    Ok(())
}

// A frame, and the first byte that is changed: of the Begun with its Taken those behind the body, as the body has its
// own tests.
const CHANGED: [(&str, usize); 4] = [(SETTLED, 0), (SIGNED, 0), (OWN, 0), (BEGUN_TAKEN, ALONE)];

fn change(bytes: &mut [u8], at: usize) {
    if let Some(byte) = bytes.get_mut(at) {
        *byte ^= 1;
    }
}

fn assert_change<R: Abort>(rt: &R, alloc: Global, digits: &str, at: usize) -> Result<(), Fail> {
    let mut bytes = bytes_of(alloc, digits)?;
    change(&mut bytes, at);
    assert!(rt; is_settled(alloc, &bytes), "byte {at} of {digits}");
    Ok(())
}

fn assert_changes<R: Abort>(rt: &R, alloc: Global, digits: &str, from: usize) -> Result<(), Fail> {
    for at in from..digits.len() / 2 {
        assert_change(rt, alloc, digits, at)?;
    }
    Ok(())
}

#[test]
fn every_changed_byte(rt: HostRuntime) -> Result<(), Fail> {
    for (digits, from) in &CHANGED {
        assert_changes(&rt, rt.alloc(), digits, *from)?;
    }
    Ok(())
}
