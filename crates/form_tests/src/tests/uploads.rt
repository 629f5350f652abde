//! Uploads beside what is stored, references, and answers in and out of their form, in tables as `making` has them.
use crate::tests::making::{Form, answer_text, assert_table, refusal, same, spelled};
use document_checksum::checksum;
use ebl_base::{ByteList, CharList, Checksum, ChecksumList, Copied, NoMemory};
use envelope_manifest::{Manifest, Piece, PieceList};
use std::alloc::Global;
use std::process::Abort;
use std::test::Fail;
use upload_state::{
    Started, fits, missing, reference_from, reference_of, reference_text, started_read,
    started_write,
};

fn piece(alloc: Global, bytes: &[u8]) -> Result<Piece, NoMemory> {
    Ok(Piece {
        name: CharList::from_text(alloc, "a")?,
        media: CharList::from_text(alloc, "b")?,
        size: u32::try_from(bytes.len()).unwrap_or(0),
        checksum: checksum(bytes),
    })
}

// A manifest that lists documents of these bytes.
fn listing(alloc: Global, listed: &[&[u8]]) -> Result<Manifest, NoMemory> {
    let mut documents = PieceList::new(alloc);
    for bytes in listed {
        documents.push(piece(alloc, bytes)?)?;
    }
    Ok(Manifest {
        bill: Checksum([1; 32]),
        last: Checksum([2; 32]),
        documents,
    })
}

fn missing_among(
    alloc: Global,
    manifest: &Manifest,
    stored: &[Checksum],
) -> Result<ChecksumList, NoMemory> {
    let stored = ChecksumList::from_slice(alloc, stored)?;
    missing(alloc, manifest, &stored)
}

// What is missing of such a manifest where these bytes are stored.
fn missing_of(
    alloc: Global,
    listed: &[&[u8]],
    stored: &[Checksum],
) -> Result<ChecksumList, NoMemory> {
    let manifest = listing(alloc, listed)?;
    let missing = missing_among(alloc, &manifest, stored);
    drop(manifest);
    missing
}

fn missing_row(
    rt: &impl Abort,
    alloc: Global,
    listed: &[&[u8]],
    stored: &[Checksum],
    want: &[Checksum],
) -> Result<(), NoMemory> {
    let found = missing_of(alloc, listed, stored)?;
    same(rt, "missing", found.as_slice(), want);
    Ok(())
}

const BOTH: [&[u8]; 2] = [b"abc", b"{}"];

const THREE: [&[u8]; 3] = [b"{}", b"abc", b"{}"];

#[test]
fn what_is_missing(rt: HostRuntime) -> Result<(), Fail> {
    let alloc = rt.alloc();
    let abc = checksum(b"abc");
    let object = checksum(b"{}");
    let other = checksum(b"x");
    missing_row(&rt, alloc, &BOTH, &[abc], &[object])?;
    missing_row(&rt, alloc, &BOTH, &[], &[abc, object])?;
    missing_row(&rt, alloc, &BOTH, &[other, object, object], &[abc])?;
    missing_row(&rt, alloc, &BOTH, &[object, abc], &[])?;
    missing_row(&rt, alloc, &THREE, &[], &[object, abc])?;
    Ok(())
}

fn assert_fits(rt: &impl Abort, listed: &Piece) {
    same(rt, "abc", fits(listed, b"abc"), true);
    same(rt, "abd", fits(listed, b"abd"), false);
    same(rt, "object", fits(listed, b"{}"), false);
}

fn assert_no_fit(rt: &impl Abort, listed: &Piece) {
    assert!(rt; !fits(listed, b"abc"));
}

#[test]
fn which_bytes_fit(rt: HostRuntime) -> Result<(), Fail> {
    let mut listed = piece(rt.alloc(), b"abc")?;
    assert_fits(&rt, &listed);
    listed.size = 4;
    assert_no_fit(&rt, &listed);
    drop(listed);
    Ok(())
}

#[test]
fn reference_and_its_text(rt: HostRuntime) {
    let reference = reference_of(checksum(b"{}"), checksum(b"abc"));
    let text = reference_text(reference);
    assert_eq!(rt;
        text.as_slice(),
        b"447816bf-8f01-cfea-4141-40de5dae2223".as_slice()
    );
    same(&rt, "read", reference_from(&text), Some(reference));
}

struct References;

impl Form for References {
    fn answer(alloc: Global, text: &[u8]) -> Result<ByteList, Fail> {
        match reference_from(text) {
            Some(reference) => {
                let text = reference_text(reference);
                answer_text(alloc, text.as_slice())
            }
            None => answer_text(alloc, b"none"),
        }
    }
}

// The forms of that reference, and texts that are none.
const REFERENCES: &str = r#"
% | %
447816BF-8F01-CFEA-4141-40DE5DAE2223 | %
447816bf8f01cfea414140de5dae2223 | %
447816bF8f01CfEa414140dE5dAe2223 | %
{447816bf-8f01-cfea-4141-40de5dae2223} | %
urn:uuid:447816bf-8f01-cfea-4141-40de5dae2223 | %
URN:UUID:447816bf-8f01-cfea-4141-40de5dae2223 | %
 | none
447816bf-8f01-cfea-4141-40de5dae222 | none
447816bf-8f01-cfea-4141-40de5dae22230 | none
447816bf8-f01-cfea-4141-40de5dae2223 | none
447816bg-8f01-cfea-4141-40de5dae2223 | none
{447816bf-8f01-cfea-4141-40de5dae2223) | none
{447816bf8f01cfea414140de5dae2223} | none
uuid:447816bf-8f01-cfea-4141-40de5dae2223 | none
 447816bf-8f01-cfea-4141-40de5dae2223 | none
"#;

#[test]
fn forms_of_a_reference(rt: HostRuntime) -> Result<(), Fail> {
    assert_table::<References, _>(&rt, REFERENCES)
}

// Answers that an upload has started.
struct Answers;

impl Form for Answers {
    fn answer(alloc: Global, text: &[u8]) -> Result<ByteList, Fail> {
        match started_read(alloc, text) {
            Ok(started) => Ok(written(alloc, started)?),
            Err(fault) => refusal(alloc, fault),
        }
    }
}

fn written(alloc: Global, started: Started) -> Result<ByteList, NoMemory> {
    let text = started_write(alloc, &started);
    drop(started);
    text
}

// An answer as it came, then answers of 0, 1, 16 and 17 checksums, and texts that are none.
const ANSWERS: &str = r#"
{ 'reference':'{447816BF-8F01-CFEA-4141-40DE5DAE2223}', 'more':0, 'missing':['@'] } | {'missing':['@'],'reference':'%'}

{'missing':[],'reference':'00000000-0000-0000-0000-000000000000'} | Form
{'missing':['0000000000000000000000000000000000000000000000000000000000000000'],'reference':'00000000-0000-0000-0000-000000000000'} | {'missing':['0000000000000000000000000000000000000000000000000000000000000000'],'reference':'00000000-0000-0000-0000-000000000000'}
{'missing':[*15*'0000000000000000000000000000000000000000000000000000000000000000',*'0000000000000000000000000000000000000000000000000000000000000000'],'reference':'00000000-0000-0000-0000-000000000000'} | {'missing':[*15*'0000000000000000000000000000000000000000000000000000000000000000',*'0000000000000000000000000000000000000000000000000000000000000000'],'reference':'00000000-0000-0000-0000-000000000000'}
{'missing':[*16*'0000000000000000000000000000000000000000000000000000000000000000',*'0000000000000000000000000000000000000000000000000000000000000000'],'reference':'00000000-0000-0000-0000-000000000000'} | Form

 | Form
[] | Form
{'missing':['@']} | Form
{'reference':'%'} | Form
{'missing':['ba7816bf8f01cfea414140de5dae2223b00361a396177a9cb410ff61f20015aD'],'reference':'%'} | Form
{'missing':['@',1.5],'reference':'%'} | Form
{'missing':['@'],'reference':'447816bf'} | Form
"#;

#[test]
fn answers_are_read_and_written(rt: HostRuntime) -> Result<(), Fail> {
    assert_table::<Answers, _>(&rt, ANSWERS)
}

fn started_of(alloc: Global, text: &str) -> Result<Started, Fail> {
    let bytes = spelled(alloc, text)?;
    Ok(started_read(alloc, &bytes)?)
}

fn copy_of(alloc: Global, text: &str) -> Result<Started, Fail> {
    let started = started_of(alloc, text)?;
    let copy = started.copy(alloc);
    drop(started);
    Ok(copy?)
}

fn assert_started(rt: &impl Abort, started: &Started, names: &[Checksum]) {
    let reference = reference_of(checksum(b"{}"), checksum(b"abc"));
    same(rt, "reference", started.reference, reference);
    same(rt, "missing", started.missing.as_slice(), names);
}

fn copy_row(rt: &impl Abort, alloc: Global, text: &str, names: &[Checksum]) -> Result<(), Fail> {
    let copy = copy_of(alloc, text)?;
    assert_started(rt, &copy, names);
    drop(copy);
    Ok(())
}

#[test]
fn copied_answers(rt: HostRuntime) -> Result<(), Fail> {
    let names = [checksum(b"abc"), checksum(b"{}")];
    let one = "{'missing':['@'],'reference':'{447816BF-8F01-CFEA-4141-40DE5DAE2223}'}";
    copy_row(&rt, rt.alloc(), one, &names[..1])?;
    copy_row(
        &rt,
        rt.alloc(),
        "{'missing':['@','$'],'reference':'%'}",
        &names,
    )
}
