//! A journal without room for one byte more: FULL, and yet what settles is written.
use super::runs::{Ask, Place, Seen, run_at};
use super::scenes::{Scene, Written, body, first_run, scene_of};
use document_checksum::{checksum, to_text};
use ebl_base::{ByteList, Checksum, MAX_DOCUMENT_SIZE, MAX_JOURNAL_UNSETTLED};
use sample_bills::bill;
use std::alloc::Global;
use std::process::Abort;
use std::str::from_utf8;
use std::test::Fail;

// The bills whose documents fill the journal, two to each, and the one whose document takes the rest.
const FILLED: [u32; 3] = [2, 3, 4];

const LAST: u32 = 5;

const LARGEST: usize = MAX_DOCUMENT_SIZE as usize;

// The first byte of each document and its name, by sha256sum of GNU coreutils.
const DOCUMENTS: [(u8, &str); 2] = [
    (
        1,
        "482f7437343393b82e7e4bfce1892a8f3ddda2945f8d86b6b8f86d0feff921b0",
    ),
    (
        2,
        "6aaeaa7b0dc54cb09fd03ef94e543897f69642bb743b984dcdbd48ad5b3b48e9",
    ),
];

const ROOM: usize = MAX_JOURNAL_UNSETTLED as usize;

// The body of the start by which the bill comes back from BETA.
fn back(alloc: Global) -> Option<ByteList> {
    let body = body(alloc, "BETA/IMPORT")?;
    let asks = [
        Ask::Start(body.as_slice()),
        Ask::HandOver("BETA/IMPORT", "ALPH/EXPORT"),
    ];
    Some(first_run(alloc, "BETA", &asks)?.into_text())
}

// How many bytes more ALPH's journal has then.
fn frame_size(alloc: Global, scene: &Scene, back: &[u8]) -> Option<usize> {
    let run = run_at(alloc, scene.place(), &[Ask::Start(back)])?;
    run.bytes.len().checked_sub(scene.before.len())
}

// ---- journals written by hand

fn put_length(bytes: &mut Vec<u8>, length: usize) -> Option<()> {
    let length = u32::try_from(length).ok()?;
    bytes.extend_from_slice(&length.to_be_bytes()).ok()
}

fn put_text(bytes: &mut Vec<u8>, text: &[u8]) -> Option<()> {
    put_length(bytes, text.len())?;
    bytes.extend_from_slice(text).ok()
}

// How a document of this name and size is listed.
fn listed(alloc: Global, name: &str, size: usize) -> Option<String> {
    let size = size as u64;
    format!(in alloc;
        "{{\"checksum\":\"{name}\",\"media\":\"m\",\"name\":\"n\",\"size\":{size}}}"
    ).ok()
}

// A frame of so many bytes begins where the journal ended.
fn begin_frame(journal: &mut Vec<u8>, length: usize) -> Option<()> {
    journal.pop();
    journal.push(1).ok()?;
    put_length(journal, length)
}

// What it has of a document that is attached to a bill: a byte for its kind, the bill's name, and two texts.
fn put_record(journal: &mut Vec<u8>, bill: Checksum, listed: &[u8], document: &[u8]) -> Option<()> {
    put_kind(journal, bill)?;
    put_text(journal, listed)?;
    put_text(journal, document)
}

fn put_kind(journal: &mut Vec<u8>, bill: Checksum) -> Option<()> {
    journal.push(3).ok()?;
    journal.extend_from_slice(&bill.0).ok()
}

// A journal gets the frame of a document that is attached to a bill.
fn put_attached(
    journal: &mut Vec<u8>,
    bill: Checksum,
    listed: &[u8],
    document: &[u8],
) -> Option<()> {
    let texts = listed.len().checked_add(document.len())?;
    begin_frame(journal, texts.checked_add(41)?)?;
    put_record(journal, bill, listed, document)?;
    journal.push(0).ok()
}

// The document is listed under this name.
fn put_document(
    alloc: Global,
    journal: &mut Vec<u8>,
    bill: Checksum,
    name: &str,
    document: &[u8],
) -> Option<()> {
    let listed = listed(alloc, name, document.len())?;
    put_attached(journal, bill, listed.as_bytes(), document)
}

// So many bytes: this one, and zeros behind it.
fn document(alloc: Global, first: u8, size: usize) -> Option<Vec<u8>> {
    let mut bytes = Vec::new(alloc);
    bytes.push(first).ok()?;
    bytes.resize(size, 0).ok()?;
    Some(bytes)
}

// Both documents of the greatest size are attached to the bill of this number.
fn attach_both(alloc: Global, journal: &mut Vec<u8>, number: u32) -> Option<()> {
    let bill = bill(alloc, number)?;
    for &(first, name) in &DOCUMENTS {
        attach(alloc, journal, bill, first, name)?;
    }
    Some(())
}

fn attach(
    alloc: Global,
    journal: &mut Vec<u8>,
    bill: Checksum,
    first: u8,
    name: &str,
) -> Option<()> {
    let document = document(alloc, first, LARGEST)?;
    put_document(alloc, journal, bill, name, &document)
}

// ALPH's journal with all these bills signed.
fn signed(alloc: Global, scene: &Scene) -> Option<Vec<u8>> {
    let asks = [Ask::Sign(2), Ask::Sign(3), Ask::Sign(4), Ask::Sign(LAST)];
    let run = run_at(alloc, scene.place(), &asks)?;
    Some(run.into_bytes().into_vec())
}

// The frame takes 46 bytes beside the document and how it is listed, with a size of seven digits.
fn beside(alloc: Global) -> Option<usize> {
    listed(alloc, DOCUMENTS[0].1, LARGEST)?
        .len()
        .checked_add(46)
}

// The last bill gets a document, so that the journal has so many bytes.
fn attach_rest(alloc: Global, journal: &mut Vec<u8>, size: usize) -> Option<()> {
    let left = size.checked_sub(journal.len())?;
    let document = document(alloc, 1, left.checked_sub(beside(alloc)?)?)?;
    attach_last(alloc, journal, &document)
}

fn attach_last(alloc: Global, journal: &mut Vec<u8>, document: &[u8]) -> Option<()> {
    let bill = bill(alloc, LAST)?;
    let digits = to_text(checksum(document));
    put_document(alloc, journal, bill, from_utf8(&digits).ok()?, document)
}

fn fill(alloc: Global, journal: &mut Vec<u8>, size: usize) -> Option<()> {
    for number in &FILLED {
        attach_both(alloc, journal, *number)?;
    }
    attach_rest(alloc, journal, size)
}

// That journal with documents, so that it has so many bytes.
fn filled(alloc: Global, scene: &Scene, size: usize) -> Option<Vec<u8>> {
    let mut journal = signed(alloc, scene)?;
    fill(alloc, &mut journal, size)?;
    Some(journal)
}

// ---- the room

// The answers to the start that comes back, and then to the answer that settles, behind so many bytes.
type Answers = (&'static str, &'static str);

fn answers(alloc: Global, scene: &Scene, back: &[u8], size: usize) -> Option<Answers> {
    let journal = filled(alloc, scene, size)?;
    answers_on(alloc, scene, back, &journal)
}

fn answers_on(alloc: Global, scene: &Scene, back: &[u8], journal: &[u8]) -> Option<Answers> {
    let place = Place::sound(scene.at, journal);
    let run = run_at(alloc, place, &[Ask::Start(back), scene.ask()])?;
    words(run.seen.as_slice())
}

fn words(seen: &[Seen]) -> Option<Answers> {
    match seen {
        &[first, then] => Some((first.word, then.word)),
        _ => None,
    }
}

fn tell_answers<R: Abort>(
    rt: &R,
    alloc: Global,
    scene: &Scene,
    back: &[u8],
    (size, wanted): (usize, Answers),
) {
    assert_eq!(rt; answers(alloc, scene, back, size), Some(wanted));
}

fn tell_room<R: Abort>(rt: &R, alloc: Global, scene: &Scene, back: &[u8]) -> Result<(), Fail> {
    let size = frame_size(alloc, scene, back).ok_or("a frame")?;
    let enough = ROOM.saturating_sub(size);
    tell_answers(rt, alloc, scene, back, (enough, ("RECE", "IGNORED")));
    let one_more = enough.saturating_add(1);
    tell_answers(rt, alloc, scene, back, (one_more, ("FULL", "DONE")));
    Ok(())
}

fn tell_full<R: Abort>(rt: &R, alloc: Global, scene: &Scene) -> Result<(), Fail> {
    let back = back(alloc).ok_or("a start")?;
    tell_room(rt, alloc, scene, back.as_slice())
}

#[test]
fn full_by_one_byte(rt: HostRuntime) -> Result<(), Fail> {
    let scene = scene_of(rt.alloc(), Written::Settled).ok_or("a scene")?;
    tell_full(&rt, rt.alloc(), &scene)
}
