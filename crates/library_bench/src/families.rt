//! A family of two platforms, in which every bill went from the one to the other.
use crate::acts::transaction;
use bill_diary::{Diary, Frame, Record};
use closed_family::{DiaryList, Family, Member};
use ebl_base::{
    ByteList, Chain, ChainLink, Checksum, Copied, Entry, Items, Kind, PlatformCode, SignedText,
    TransactionList,
};
use envelope_manifest::Manifest;
use std::alloc::Global;

/// Adds the two platforms, with so many bills, all of the first shard. Their texts are short and of no form.
pub(crate) fn fill(alloc: Global, family: &mut Family, bills: u16) -> Option<()> {
    put_member(family, b"ALPH", diaries(alloc, bills, false))?;
    put_member(family, b"BETA", diaries(alloc, bills, true))
}

fn put_member(family: &mut Family, platform: &[u8], diaries: Option<DiaryList>) -> Option<()> {
    let diaries = diaries?;
    let platform = PlatformCode::try_new(platform)?;
    family.push(Member { platform, diaries }).ok()
}

// Sixteen diaries, of which the first one has the bills.
fn diaries(alloc: Global, bills: u16, taken: bool) -> Option<DiaryList> {
    let first = first_diary(alloc, bills, taken)?;
    let mut diaries = Items::new(alloc);
    diaries.push(first).ok()?;
    for _ in 1..16 {
        diaries.push(Items::new(alloc)).ok()?;
    }
    Some(diaries)
}

// The diary in which so many bills are sent, or in which they are taken.
fn first_diary(alloc: Global, bills: u16, taken: bool) -> Option<Diary> {
    let mut diary = Items::new(alloc);
    for number in 0..bills {
        put_bill(alloc, &mut diary, number, taken)?;
    }
    Some(diary)
}

fn put_bill(alloc: Global, diary: &mut Diary, number: u16, taken: bool) -> Option<()> {
    if taken {
        take(alloc, diary, number)
    } else {
        send(alloc, diary, number)
    }
}

// The bill of this number is signed, parted and settled.
fn send(alloc: Global, diary: &mut Diary, number: u16) -> Option<()> {
    write(diary, signed(alloc, number))?;
    write(diary, parted(alloc, number))?;
    let (bill, entry) = (name(0, number), name(1, number));
    write(diary, Some(Record::Settled { bill, entry }))
}

fn write(diary: &mut Diary, record: Option<Record>) -> Option<()> {
    diary.push(Frame::One(record?)).ok()
}

fn signed(alloc: Global, number: u16) -> Option<Record> {
    let transaction = transaction(Kind::Sign, "ALPH/CARRIER", None, 0)?;
    Some(Record::Signed {
        bill: name(0, number),
        document: text(alloc, b'd', number)?,
        transaction,
    })
}

fn parted(alloc: Global, number: u16) -> Option<Record> {
    let manifest_text = signed_text(alloc, b'm', number)?;
    Some(Record::Parted {
        bill: name(0, number),
        link: link(alloc, number)?,
        manifest: manifest(alloc, number),
        manifest_text,
    })
}

// It is taken.
fn take(alloc: Global, diary: &mut Diary, number: u16) -> Option<()> {
    diary.push(Frame::BegunTaken(begun(alloc, number)?)).ok()
}

fn begun(alloc: Global, number: u16) -> Option<Record> {
    let body = text(alloc, b'b', number)?;
    Some(Record::Begun {
        bill: name(0, number),
        chain: chain(alloc, number)?,
        manifest: manifest(alloc, number),
        body,
    })
}

fn chain(alloc: Global, number: u16) -> Option<Chain> {
    let link = link(alloc, number)?;
    Chain::new().followed_by(alloc, link).ok()
}

// The entry that moves the bill of this number to the other platform.
fn link(alloc: Global, number: u16) -> Option<ChainLink> {
    let text = signed_text(alloc, b'e', number)?;
    Some(ChainLink {
        text,
        name: name(1, number),
        entry: entry(alloc, number)?,
    })
}

fn entry(alloc: Global, number: u16) -> Option<Entry> {
    let platform = PlatformCode::try_new(b"ALPH")?;
    Some(Entry {
        platform,
        bill: name(0, number),
        previous: None,
        attempt: 1,
        transactions: transactions(alloc)?,
    })
}

fn transactions(alloc: Global) -> Option<TransactionList> {
    let sign = transaction(Kind::Sign, "ALPH/CARRIER", None, 0)?;
    let issue = transaction(Kind::Issue, "ALPH/CARRIER", Some("ALPH/EXPORT"), 0)?;
    let transfer = transaction(Kind::Transfer, "ALPH/EXPORT", Some("BETA/IMPORT"), 0)?;
    TransactionList::from_slice(alloc, &[sign, issue, transfer]).ok()
}

// The manifest of that entry.
fn manifest(alloc: Global, number: u16) -> Manifest {
    Manifest {
        bill: name(0, number),
        last: name(1, number),
        documents: Items::new(alloc),
    }
}

// A name of this kind: those of kind 0 belong to the first shard.
fn name(kind: u8, number: u16) -> Checksum {
    let [high, low] = number.to_be_bytes();
    let mut bytes = [0; 32];
    bytes[0] = kind;
    bytes[1] = low;
    bytes[2] = high;
    Checksum(bytes)
}

// A text of this kind.
fn text(alloc: Global, kind: u8, number: u16) -> Option<ByteList> {
    let [high, low] = number.to_be_bytes();
    ByteList::from_slice(alloc, &[kind, high, low]).ok()
}

fn signed_text(alloc: Global, kind: u8, number: u16) -> Option<SignedText> {
    let bytes = text(alloc, kind, number)?;
    SignedText::from_bytes(alloc, bytes).ok()
}
