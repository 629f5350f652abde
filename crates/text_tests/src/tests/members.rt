//! Values in and out of each form. In these texts `'` stands for `"`.
use crate::tests::comparing::{is_written, same};
use crate::tests::making::json;
use canonical_json::{Json, Member, read, write};
use ebl_base::{ByteList, Checksum, ChecksumList, NoMemory, Party, PlatformCode};
use json_forms::{
    Malformed, checksums_in, checksums_json, number_json, number_member, object_json,
    optional_checksum, optional_party, optional_text, party_member, required_checksum,
    required_items, required_number, required_party, required_platform,
};
use std::alloc::Global;
use std::process::Abort;
use std::test::Fail;

fn assert_members(rt: &impl Abort, object: &Json) {
    let alph = PlatformCode::try_new(b"ALPH");
    let export = Party::from_text(b"ALPH/EXPORT");
    same(rt, "platform at", required_platform(object, "at"), alph);
    same(rt, "platform by", required_platform(object, "by"), None);
    same(rt, "party by", required_party(object, "by"), export);
    same(rt, "party at", required_party(object, "at"), None);
    same(rt, "checksum at", required_checksum(object, "at"), None);
}

fn assert_optional_members(rt: &impl Abort, object: &Json) {
    let export = Party::from_text(b"ALPH/EXPORT");
    same(rt, "party by", optional_party(object, "by"), Ok(export));
    same(rt, "party to", optional_party(object, "to"), Ok(None));
    same(rt, "party", optional_party(object, "none"), Err(Malformed));
    let checksum = optional_checksum(object, "none");
    same(rt, "checksum", checksum, Err(Malformed));
    same(rt, "no text", optional_text(object, "n").is_err(), true);
}

#[test]
fn members_under_their_names(rt: HostRuntime) -> Result<(), Fail> {
    let text = "{'at':'ALPH','by':'ALPH/EXPORT','n':3,'none':null}";
    let object = json(rt.alloc(), text)?;
    assert_members(&rt, &object);
    assert_optional_members(&rt, &object);
    drop(object);
    Ok(())
}

// A name, the range of its number, and the number.
const NUMBERS: [(&str, u64, u64, Option<u64>); 6] = [
    ("n", 3, 3, Some(3)),
    ("n", 4, 9, None),
    ("n", 0, 2, None),
    ("below", 0, u64::MAX, None),
    ("text", 0, 9, None),
    ("other", 0, 9, None),
];

fn assert_numbers(rt: &impl Abort, object: &Json) {
    for &(name, least, most, want) in &NUMBERS {
        same(rt, name, required_number(object, name, least, most), want);
    }
}

#[test]
fn whole_numbers_in_their_range(rt: HostRuntime) -> Result<(), Fail> {
    let object = json(rt.alloc(), "{'n':3,'below':-1,'text':'3'}")?;
    assert_numbers(&rt, &object);
    drop(object);
    Ok(())
}

// A name, the range of its list's length, and whether it has one.
const LENGTHS: [(&str, usize, usize, bool); 4] = [
    ("l", 2, 2, true),
    ("l", 0, 1, false),
    ("l", 3, 4, false),
    ("o", 0, 1, false),
];

fn assert_lengths(rt: &impl Abort, object: &Json) {
    for &(name, least, most, want) in &LENGTHS {
        let found = required_items(object, name, least, most);
        same(rt, name, found.is_some(), want);
    }
}

#[test]
fn lists_of_a_stated_length(rt: HostRuntime) -> Result<(), Fail> {
    let object = json(rt.alloc(), "{'l':[1,2],'o':{}}")?;
    assert_lengths(&rt, &object);
    drop(object);
    Ok(())
}

fn written(alloc: Global, checksums: &[Checksum]) -> Result<ByteList, NoMemory> {
    let json = checksums_json(alloc, checksums)?;
    let text = write(alloc, &json);
    drop(json);
    text
}

// The checksums that a list is, if it is one of checksums.
fn found(alloc: Global, list: &Json) -> Result<Option<ChecksumList>, Fail> {
    match list {
        Json::List(items) => Ok(checksums_in(alloc, items.as_slice())?),
        _ => Err("a list".into()),
    }
}

const TWO: [Checksum; 2] = [Checksum([0; 32]), Checksum([255; 32])];

fn has_both(rt: &impl Abort, alloc: Global, list: &Json) -> Result<(), Fail> {
    let found = found(alloc, list)?.ok_or("checksums")?;
    assert!(rt; found.as_slice() == TWO.as_slice());
    Ok(())
}

fn reads_as_both(rt: &impl Abort, alloc: Global, text: &[u8]) -> Result<(), Fail> {
    let list = read(alloc, text)?;
    let both = has_both(rt, alloc, &list);
    drop(list);
    both
}

#[test]
fn checksums_there_and_back(rt: HostRuntime) -> Result<(), Fail> {
    let text = written(rt.alloc(), &TWO)?;
    assert_eq!(rt; text.len(), 2 * 66 + 3);
    reads_as_both(&rt, rt.alloc(), text.as_slice())
}

#[test]
fn a_list_of_another_text_has_no_checksums(rt: HostRuntime) -> Result<(), Fail> {
    let mixed = json(rt.alloc(), "['44']")?;
    let found = found(rt.alloc(), &mixed);
    drop(mixed);
    assert!(rt; found?.is_none());
    Ok(())
}

fn two_members(alloc: Global, party: Party) -> Result<Vec<Member>, NoMemory> {
    let mut members = Vec::new(alloc);
    members.push(party_member(alloc, "actor", party)?)?;
    members.push(number_member(alloc, "time", 9_007_199_254_740_991)?)?;
    Ok(members)
}

fn sample_object(alloc: Global) -> Result<Json, Fail> {
    let party = Party::from_text(b"ALPH/EXPORT").ok_or("a party")?;
    Ok(object_json(two_members(alloc, party)?))
}

#[test]
fn members_written(rt: HostRuntime) -> Result<(), Fail> {
    let object = sample_object(rt.alloc())?;
    let want = b"{\"actor\":\"ALPH/EXPORT\",\"time\":9007199254740991}";
    let written = is_written(&rt, rt.alloc(), &object, want);
    drop(object);
    Ok(written?)
}

// A number, and what is written of it.
const WRITTEN: [(u64, &str); 4] = [
    (0, "0"),
    (9_007_199_254_740_991, "9007199254740991"),
    (9_007_199_254_740_992, "9007199254740991"),
    (u64::MAX, "9007199254740991"),
];

#[test]
fn numbers_past_the_greatest_are_the_greatest(rt: HostRuntime) -> Result<(), Fail> {
    for &(number, canonical) in &WRITTEN {
        let json = number_json(number);
        let written = is_written(&rt, rt.alloc(), &json, canonical.as_bytes());
        drop(json);
        written?;
    }
    Ok(())
}
