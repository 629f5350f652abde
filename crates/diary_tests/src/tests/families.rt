//! What diaries tell of a bill, and families of diaries, as the tables write them.
//!
//! A case is a line for each piece of a diary, and a last one for the survey:
//!
//! ```text
//! ALPH 4|1|sign, issue|held - 2, Live ALPH/EXPORT, acts, signed
//! BETA 4|1|begun-taken u|held u 0, Live BETA/IMPORT, acts, took u 1
//! survey ALPH BETA|ALPH lacks PARTED of 1 u
//! ```
//!
//! The columns of a line are the platform and the shard of the diary, the bill, the steps, and what the diary tells of
//! the bill after them, by its register. The survey's are the platforms of the family in their order, and what it
//! finds. What a diary tells is:
//!
//! | Words | What they say |
//! |---|---|
//! | `unfit` | a step doesn't fit where the bill stood before it |
//! | `absent`, `gone u` | where the bill stands, and the known chain |
//! | `held u 2` | the same, and how many transactions were made since |
//! | `parting u u.u` | the same, and the chain whose last entry is parting |
//! | `Live ALPH/EXPORT` | how far the title there has come, and its possessor; `untitled` where there is none |
//! | `acts` | the possessor may act |
//! | `signed` | the document was signed here, whose name the bill has |
//! | `took u 1` | an entry was taken, so often |
//! | `declined u BENV PARTY` | an entry was declined for good, last with this code and reason |
use super::entries::{Sample, named, samples, written, written_chain};
use super::making::{assert_text, bill_name, code, columns};
use super::steps::write_down;
use bill_diary::{Diary, Frame, Record};
use closed_family::{Family, Member, Verdict, survey};
use document_checksum::checksum;
use ebl_base::{ByteList, Checksum, Copied, Items, PlaceTag, PlatformCode, SignedText};
use std::alloc::{AllocError, Global};
use std::process::Abort;
use title_fold::{FoldRefusal, Title, possessor};
use title_register::{PlaceRef, Register, last_declined, signed_text};

// ---- what a diary tells

// Whether a step may follow where the bill stands so; no step may always.
fn fits(step: &str, before: PlaceTag) -> bool {
    let (verb, of) = step.split_once(' ').unwrap_or((step, ""));
    match verb {
        "" => true,
        "parted" => before == PlaceTag::Held,
        "settled" | "regained" => before == PlaceTag::Parting,
        _ if of.is_empty() && verb.starts_with("sign") => before == PlaceTag::Absent,
        _ if of.is_empty() => before == PlaceTag::Held,
        _ => before != PlaceTag::Held,
    }
}

fn put_place(text: &mut String, samples: &[Sample], place: PlaceRef<'_>) -> Result<(), AllocError> {
    match place {
        PlaceRef::Absent => text.push_str("absent"),
        PlaceRef::Held { known, since } => {
            let known = written_chain(samples, known);
            let made = since.len();
            write!(text, "held {known} {made}")
        }
        PlaceRef::Parting { known, entry } => {
            let known = written_chain(samples, known);
            let parting = written(samples, Some(entry.name));
            write!(text, "parting {known} {parting}")
        }
        PlaceRef::Gone { known } => {
            let known = written_chain(samples, known);
            write!(text, "gone {known}")
        }
    }
}

fn stage(title: Title) -> &'static str {
    match title {
        Title::Signed { .. } => "Signed",
        Title::Live { .. } => "Live",
        Title::Asked { .. } => "Asked",
        Title::Ended { .. } => "Ended",
    }
}

fn put_title(
    text: &mut String,
    folded: Result<Option<Title>, FoldRefusal>,
) -> Result<(), AllocError> {
    match folded {
        Ok(Some(title)) => {
            let stage = stage(title);
            let possessor = possessor(title).to_text();
            let possessor = possessor.as_str();
            write!(text, ", {stage} {possessor}")
        }
        Ok(None) => Ok(()),
        Err(_) => text.push_str(", untitled"),
    }
}

// Whether a document is the one with this name.
fn has_name(document: Option<&ByteList>, name: Checksum) -> bool {
    match document {
        Some(document) => checksum(document.as_slice()) == name,
        None => false,
    }
}

fn put_if(text: &mut String, is_so: bool, words: &str) -> Result<(), AllocError> {
    if is_so { text.push_str(words) } else { Ok(()) }
}

// The entry that was taken with a frame.
fn taken_by(frame: &Frame) -> Option<Checksum> {
    match frame {
        Frame::One(Record::Taken { entry, .. }) => Some(*entry),
        Frame::BegunTaken(Record::Begun { chain, .. }) => {
            let last = chain.as_slice().last()?;
            Some(last.name)
        }
        _ => None,
    }
}

// How often an entry was taken.
fn takings(register: &Register, entry: Checksum) -> usize {
    register
        .frames()
        .iter()
        .filter(|frame| taken_by(frame) == Some(entry))
        .count()
}

fn put_taken(
    text: &mut String,
    register: &Register,
    entries: &str,
    entry: Checksum,
) -> Result<(), AllocError> {
    if register.taken(entry) {
        let times = takings(register, entry);
        return write!(text, ", took {entries} {times}");
    }
    Ok(())
}

fn put_declined(
    text: &mut String,
    register: &Register,
    entries: &str,
    entry: Checksum,
) -> Result<(), AllocError> {
    if let Some(declined) = last_declined(register, entry) {
        let code = declined.code.as_str();
        let reason = declined.reason.as_str();
        return write!(text, ", declined {entries} {code} {reason}");
    }
    Ok(())
}

// What became of each entry of the samples that came.
fn put_answers(
    text: &mut String,
    samples: &[Sample],
    register: &Register,
) -> Result<(), AllocError> {
    for sample in samples {
        if let Some(entry) = sample.name() {
            put_taken(text, register, sample.entries, entry)?;
            put_declined(text, register, sample.entries, entry)?;
        }
    }
    Ok(())
}

// Where a bill stands, and its title there.
fn put_standing(
    text: &mut String,
    samples: &[Sample],
    register: &Register,
    name: Checksum,
) -> Result<(), AllocError> {
    put_place(text, samples, register.place(name))?;
    put_title(text, register.title(name))
}

// Whether the possessor may act, and whether the document was signed.
fn put_marks(text: &mut String, register: &Register, name: Checksum) -> Result<(), AllocError> {
    put_if(text, register.may_act(name), ", acts")?;
    let is_signed = has_name(signed_text(register, name), name);
    put_if(text, is_signed, ", signed")
}

// What a register tells of a bill.
fn put_told(
    text: &mut String,
    samples: &[Sample],
    register: &Register,
    name: Checksum,
) -> Result<(), AllocError> {
    put_standing(text, samples, register, name)?;
    put_marks(text, register, name)?;
    put_answers(text, samples, register)
}

// ---- diaries

// A diary goes on. Whether each step fits where the bill stood before it.
fn go_on<R: Abort>(
    rt: &R,
    alloc: Global,
    samples: &[Sample],
    bill: &str,
    register: &mut Register,
    steps: &str,
) -> bool {
    let name = bill_name(rt, alloc, bill);
    let mut all_fit = true;
    for step in steps.split(", ") {
        all_fit = fits(step, register.tag(name)) && all_fit;
        write_down(rt, alloc, samples, bill, register, step);
    }
    all_fit
}

// What a register tells after steps that fit or not.
fn told<R: Abort>(
    rt: &R,
    alloc: Global,
    samples: &[Sample],
    bill: &str,
    register: &Register,
    all_fit: bool,
) -> String {
    let name = bill_name(rt, alloc, bill);
    let mut text = String::new(alloc);
    put_if(&mut text, !all_fit, "unfit, ").expect(rt, "no error");
    put_told(&mut text, samples, register, name).expect(rt, "no error");
    text
}

fn assert_line<R: Abort>(
    rt: &R,
    alloc: Global,
    samples: &[Sample],
    register: &mut Register,
    line: &str,
) {
    let [_, bill, steps, want, _] = columns(line);
    let all_fit = go_on(rt, alloc, samples, bill, register, steps);
    let seen = told(rt, alloc, samples, bill, register, all_fit);
    assert_text(rt, seen.as_str(), want, line);
}

// Whether a line is of this diary.
fn is_of(line: &str, platform: &str, shard: usize) -> bool {
    let [place, ..] = columns(line);
    match place.split_once(' ') {
        Some((of, number)) => of == platform && number.parse::<usize>() == Ok(shard),
        None => false,
    }
}

fn assert_lines<R: Abort>(
    rt: &R,
    alloc: Global,
    samples: &[Sample],
    register: &mut Register,
    lines: &str,
    platform: &str,
    shard: usize,
) {
    for line in lines.lines() {
        if is_of(line, platform, shard) {
            assert_line(rt, alloc, samples, register, line);
        }
    }
}

/// The diary of a platform and a shard by these lines, each of which is asserted.
pub(crate) fn asserted<R: Abort>(
    rt: &R,
    alloc: Global,
    samples: &[Sample],
    lines: &str,
    platform: &str,
    shard: usize,
) -> Diary {
    let mut register = Register::new(alloc);
    assert_lines(rt, alloc, samples, &mut register, lines, platform, shard);
    register.release();
    register.into_diary()
}

fn assert_each_diary<R: Abort>(rt: &R, alloc: Global, samples: &[Sample], cases: &str) {
    for lines in cases.split("\n\n") {
        drop(asserted(rt, alloc, samples, lines, "ALPH", 4));
    }
}

/// Asserts the lines of the diary of ALPH's shard 4, for each of the cases that empty lines part.
pub(crate) fn assert_diaries<R: Abort>(rt: &R, alloc: Global, cases: &str) {
    let samples = samples(rt, alloc);
    assert_each_diary(rt, alloc, &samples, cases)
}

// ---- families

fn member<R: Abort>(
    rt: &R,
    alloc: Global,
    samples: &[Sample],
    lines: &str,
    platform: &str,
) -> Member {
    let code = code(rt, platform);
    let mut diaries = Items::new(alloc);
    for shard in 0..16 {
        diaries
            .push(asserted(rt, alloc, samples, lines, platform, shard))
            .expect(rt, "no error");
    }
    Member {
        platform: code,
        diaries,
    }
}

fn family<R: Abort>(
    rt: &R,
    alloc: Global,
    samples: &[Sample],
    lines: &str,
    platforms: &str,
) -> Family {
    let mut family = Items::new(alloc);
    for platform in platforms.split_whitespace() {
        family
            .push(member(rt, alloc, samples, lines, platform))
            .expect(rt, "no error");
    }
    family
}

// What is lacking on a platform: which record, and of which entry of which bill.
fn put_lacking(
    text: &mut String,
    samples: &[Sample],
    platform: PlatformCode,
    what: &str,
    entry: &SignedText,
) -> Result<(), AllocError> {
    let platform = platform.as_str();
    match named(samples, Some(checksum(entry.0.as_slice()))) {
        Some(sample) => {
            let (bill, entries) = (sample.bill, sample.entries);
            write!(text, "{platform} lacks {what} of {bill} {entries}")
        }
        None => write!(text, "{platform} lacks {what} of no sample"),
    }
}

fn put_verdict(text: &mut String, samples: &[Sample], verdict: &Verdict) -> Result<(), AllocError> {
    match verdict {
        Verdict::Consistent => text.push_str("consistent"),
        Verdict::SameName(_) => text.push_str("one name for two texts"),
        Verdict::Lacks {
            platform,
            what,
            text: entry,
        } => put_lacking(text, samples, *platform, what.as_str(), entry),
    }
}

// What a copy of the verdict on a copy of a family says.
fn surveyed<R: Abort>(rt: &R, alloc: Global, family: &Family) -> Verdict {
    let copy = family.copy(alloc).expect(rt, "no error");
    let verdict = survey(alloc, &copy).expect(rt, "no error");
    let again = verdict.copy(alloc).expect(rt, "no error");
    drop(verdict);
    again
}

fn found<R: Abort>(rt: &R, alloc: Global, samples: &[Sample], family: &Family) -> String {
    let verdict = surveyed(rt, alloc, family);
    let mut text = String::new(alloc);
    put_verdict(&mut text, samples, &verdict).expect(rt, "no error");
    drop(verdict);
    text
}

fn assert_survey<R: Abort>(
    rt: &R,
    alloc: Global,
    samples: &[Sample],
    family: &Family,
    want: &str,
    case: &str,
) {
    let seen = found(rt, alloc, samples, family);
    assert_text(rt, seen.as_str(), want, case);
}

// Whether a line is of the diary of one of these platforms and of one of the shards, so that it is looked at.
fn is_among(line: &str, platforms: &str) -> bool {
    let [place, ..] = columns(line);
    match place.split_once(' ') {
        Some((of, number)) => platforms.contains(of)
            && number.parse::<usize>().is_ok_and(|shard| shard < 16),
        None => false,
    }
}

fn assert_case<R: Abort>(rt: &R, alloc: Global, samples: &[Sample], case: &str) {
    let (lines, last) = case.split_once("survey ").expect(rt, "a survey");
    let [platforms, want, ..] = columns(last);
    assert!(rt;
        lines.lines().all(|line| is_among(line, platforms)),
        "{case}"
    );
    let family = family(rt, alloc, samples, lines, platforms);
    assert_survey(rt, alloc, samples, &family, want, case)
}

fn assert_each_case<R: Abort>(rt: &R, alloc: Global, samples: &[Sample], cases: &str) {
    for case in cases.split("\n\n") {
        assert_case(rt, alloc, samples, case);
    }
}

/// Asserts cases, between which stand empty lines.
pub(crate) fn assert_cases<R: Abort>(rt: &R, alloc: Global, cases: &str) {
    let samples = samples(rt, alloc);
    assert_each_case(rt, alloc, &samples, cases)
}
