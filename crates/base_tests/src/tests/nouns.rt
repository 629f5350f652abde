//! What no contract says: edges of the forms, and copies that are made when memory is there.
use crate::tests::comparing::{same, same_at, same_bytes};
use crate::tests::making::party;
use ebl_base::{
    ByteList, CallList, Calls, CarrierCode, Chain, ChainLink, CharList, Checksum, ChecksumList,
    Copied, Entry, Evidence, Kind, Moment, Name35, NoMemory, Party, PlatformCode, SignedText,
    Transaction, TransactionList, first_segment,
};
use std::alloc::{AllocError, Global};
use std::fmt::Debug;
use std::process::Abort;
use std::test::Fail;

const LONGEST: &[u8] = b"ABCDEFGHIJKLMNOPQRSTUVWXYZ-_0123456";

// Whether a text is a code, a name or a party, what it is tried as, and the text. The first name is the longest.
const FORMS: &str = "true|code|ALPH\n\
    true|code|0A9Z\n\
    false|code|ALP\n\
    false|code|ALPHA\n\
    false|code|alph\n\
    false|code|AL-H\n\
    true|name|ABCDEFGHIJKLMNOPQRSTUVWXYZ-_0123456\n\
    true|name|A\n\
    false|name|\n\
    false|name|ABCDEFGHIJKLMNOPQRSTUVWXYZ-_01234567\n\
    false|name|EXPORTER A\n\
    false|name|exporter\n\
    true|party|ALPH/EXPORT\n\
    false|party|ALPH/\n\
    false|party|ALPH-EXPORT\n\
    false|party|ALP/EXPORT\n\
    false|party|ALPH/EX/PORT";

fn is_form(form: &str, text: &[u8]) -> bool {
    match form {
        "code" => PlatformCode::try_new(text).is_some(),
        "name" => Name35::try_new(text).is_some(),
        _ => Party::from_text(text).is_some(),
    }
}

fn form_row(rt: &impl Abort, row: &str) -> Result<(), Fail> {
    let (want, rest) = row.split_once('|').ok_or("a bar")?;
    let (form, text) = rest.split_once('|').ok_or("a second bar")?;
    same(rt, &row, is_form(form, text.as_bytes()), want == "true");
    Ok(())
}

#[test]
fn forms(rt: HostRuntime) -> Result<(), Fail> {
    for row in FORMS.lines() {
        form_row(&rt, row)?;
    }
    Ok(())
}

const MOMENTS: [(u64, bool); 3] = [
    (0, true),
    (9_007_199_254_740_991, true),
    (9_007_199_254_740_992, false),
];

#[test]
fn moments(rt: HostRuntime) {
    for &(number, is_moment) in &MOMENTS {
        same(&rt, &number, Moment::try_new(number).is_some(), is_moment);
    }
}

fn assert_party(rt: &impl Abort, party: &Party) {
    let text = party.to_text();
    let seen = (text.as_str(), party.platform.as_str(), party.code.as_str());
    same(rt, &"texts", seen, ("ALPH/EXPORT", "ALPH", "EXPORT"));
}

#[test]
fn texts(rt: HostRuntime) -> Result<(), Fail> {
    let party = party(b"ALPH/EXPORT")?;
    assert_party(&rt, &party);
    let name = Name35::try_new(LONGEST).ok_or("a name")?;
    assert!(rt; name.as_bytes() == LONGEST);
    let longest = Party {
        platform: party.platform,
        code: name,
    };
    same(&rt, &"length", longest.to_text().as_bytes().len(), 40);
    Ok(())
}

// The names of the kinds, as the messages of platforms write them.
const KINDS: [(&[u8], Option<Kind>); 11] = [
    (b"SIGN", Some(Kind::Sign)),
    (b"ISSUE", Some(Kind::Issue)),
    (b"ENDORSE", Some(Kind::Endorse)),
    (b"TRANSFER", Some(Kind::Transfer)),
    (b"SURRENDER_FOR_DELIVERY", Some(Kind::SurrenderForDelivery)),
    (
        b"SURRENDER_FOR_AMENDMENT",
        Some(Kind::SurrenderForAmendment),
    ),
    (b"SURRENDER_ACCEPTED", Some(Kind::SurrenderAccepted)),
    (b"SURRENDER_REFUSED", Some(Kind::SurrenderRefused)),
    (b"", None),
    (b"sign", None),
    (b"SURRENDER", None),
];

fn kind_row(rt: &impl Abort, text: &[u8], kind: Option<Kind>) {
    same_at(rt, &text, Kind::from_text(text), kind);
    assert!(rt;
        kind.is_none_or(|kind| kind.as_str().as_bytes() == text),
        "{text:?}"
    );
}

#[test]
fn kinds(rt: HostRuntime) {
    for &(text, kind) in &KINDS {
        kind_row(&rt, text, kind);
    }
}

// A text, and its first part and what stands behind it, if it has a part.
type Parted = (&'static [u8], Option<(&'static [u8], &'static [u8])>);

const PARTS: [Parted; 5] = [
    (b"a\nb", Some((b"a", b"b"))),
    (b"a\n", Some((b"a", b""))),
    (b"a", Some((b"a", b""))),
    (b"\n\n", Some((b"", b"\n"))),
    (b"", None),
];

#[test]
fn parts(rt: HostRuntime) {
    for &(text, want) in &PARTS {
        same_at(&rt, &text, first_segment(b'\n', text), want);
    }
}

fn three_bytes(alloc: Global) -> Result<ByteList, NoMemory> {
    let mut list = ByteList::new(alloc);
    list.push(1)?;
    list.extend_from_slice(&[2, 3])?;
    Ok(list)
}

fn assert_three_bytes(rt: &impl Abort, list: ByteList) {
    same(rt, &"length", list.len(), 3);
    same_bytes(rt, list.into_vec().as_slice(), &[1, 2, 3]);
}

fn assert_size(rt: &impl Abort, text: CharList) {
    same(rt, &"length", text.len(), 7);
    same(rt, &"text", text.into_string().as_str(), "größe");
}

#[test]
fn lists(rt: HostRuntime) -> Result<(), Fail> {
    assert!(rt; ByteList::new(rt.alloc()).is_empty());
    assert_three_bytes(&rt, three_bytes(rt.alloc())?);
    assert_size(&rt, CharList::from_text(rt.alloc(), "größe")?);
    Ok(())
}

fn assert_well_formed(rt: &impl Abort, party: &Party) {
    let platform = party.platform.is_well_formed();
    let code = party.code.is_well_formed();
    let seen = (party.is_well_formed(), platform, code);
    same(rt, &"well-formed", seen, (true, true, true));
}

// A value that was made has its form.
#[test]
fn made_values_are_well_formed(rt: HostRuntime) -> Result<(), Fail> {
    assert_well_formed(&rt, &party(b"ALPH/EXPORT")?);
    let carrier = CarrierCode::try_new(b"MAEU").ok_or("a carrier")?;
    same(&rt, &"carrier", carrier.is_well_formed(), true);
    let moment = Moment::try_new(Moment::LAST).ok_or("a moment")?;
    same(&rt, &"moment", moment.is_well_formed(), true);
    Ok(())
}

fn sample_transaction() -> Result<Transaction, Fail> {
    let actor = party(b"ALPH/EXPORT")?;
    let recipient = party(b"BETA/IMPORT")?;
    Ok(Transaction {
        kind: Kind::Transfer,
        actor,
        recipient: Some(recipient),
        time: Moment::try_new(7).ok_or("a moment")?,
    })
}

// An entry of one transaction.
fn sample_entry(alloc: Global) -> Result<Entry, Fail> {
    let transaction = sample_transaction()?;
    Ok(Entry {
        platform: transaction.actor.platform,
        bill: Checksum([1; 32]),
        previous: Some(Checksum([2; 32])),
        attempt: 2,
        transactions: TransactionList::from_slice(alloc, &[transaction])?,
    })
}

fn signed_text(alloc: Global, bytes: &[u8]) -> Result<SignedText, NoMemory> {
    SignedText::from_bytes(alloc, ByteList::from_slice(alloc, bytes)?)
}

// That entry, with a text of its own.
fn sample_link(alloc: Global) -> Result<ChainLink, Fail> {
    let text = signed_text(alloc, b"a.b.c")?;
    Ok(ChainLink {
        text,
        name: Checksum([3; 32]),
        entry: sample_entry(alloc)?,
    })
}

fn debug_text<T: Debug>(alloc: Global, value: &T) -> Result<String, AllocError> {
    format!(in alloc; "{value:?}")
}

// Two values are written alike.
fn assert_alike<T: Debug>(rt: &impl Abort, alloc: Global, copy: &T, value: &T) -> Result<(), Fail> {
    let copied = debug_text(alloc, copy)?;
    let text = debug_text(alloc, value)?;
    same(rt, &"copy", copied.as_str(), text.as_str());
    Ok(())
}

// A copy tells the same as what it is a copy of.
fn assert_copied<T: Copied + Debug>(rt: &impl Abort, alloc: Global, value: &T) -> Result<(), Fail> {
    let copy = value.copy(alloc)?;
    let alike = assert_alike(rt, alloc, &copy, value);
    drop(copy);
    alike
}

// A chain of this one link.
fn chain_of(alloc: Global, link: ChainLink) -> Result<Chain, NoMemory> {
    let mut links = Vec::new(alloc);
    links.push(link)?;
    Chain::from_vec(alloc, links)
}

// That link twice.
fn sample_chain(alloc: Global) -> Result<Chain, Fail> {
    let chain = chain_of(alloc, sample_link(alloc)?)?;
    let link = sample_link(alloc)?;
    let followed = chain.followed_by(alloc, link);
    drop(chain);
    Ok(followed?)
}

#[test]
fn copies_of_a_link(rt: HostRuntime) -> Result<(), Fail> {
    let link = sample_link(rt.alloc())?;
    let copied = assert_copied(&rt, rt.alloc(), &link);
    drop(link);
    copied
}

#[test]
fn copies_of_chains(rt: HostRuntime) -> Result<(), Fail> {
    let chain = sample_chain(rt.alloc())?;
    same(&rt, &"length", chain.len(), 2);
    let copied = assert_copied(&rt, rt.alloc(), &chain);
    drop(chain);
    copied
}

#[test]
fn copies_of_bytes(rt: HostRuntime) -> Result<(), Fail> {
    let bytes = ByteList::from_slice(rt.alloc(), b"abc")?;
    assert_copied(&rt, rt.alloc(), &bytes)
}

#[test]
fn copies_of_names(rt: HostRuntime) -> Result<(), Fail> {
    let names = ChecksumList::from_slice(rt.alloc(), &[Checksum([5; 32]), Checksum([6; 32])])?;
    assert_copied(&rt, rt.alloc(), &names)
}

#[test]
fn copies_of_texts(rt: HostRuntime) -> Result<(), Fail> {
    let text = CharList::from_text(rt.alloc(), "größe")?;
    assert_copied(&rt, rt.alloc(), &text)
}

#[test]
fn copies_of_evidence(rt: HostRuntime) -> Result<(), Fail> {
    let evidence = Evidence {
        own: None,
        theirs: Some(signed_text(rt.alloc(), b"abc")?),
    };
    let copied = assert_copied(&rt, rt.alloc(), &evidence);
    drop(evidence);
    copied
}

// Calls of which the second fails, after the first.
fn calls_to_fail(rt: &impl Abort, alloc: Global) -> Result<Calls, NoMemory> {
    let mut calls = Calls::new(CallList::from_slice(alloc, &[1])?);
    assert!(rt; !calls.next_fails());
    Ok(calls)
}

fn assert_next_fails(rt: &impl Abort, copy: &mut Calls) {
    same(rt, &"number", copy.number(), 1);
    assert!(rt; copy.next_fails());
    let _ = copy.fail();
    same(rt, &"faults", copy.faults(), 1);
}

#[test]
fn copies_of_calls(rt: HostRuntime) -> Result<(), Fail> {
    let calls = calls_to_fail(&rt, rt.alloc())?;
    let mut copy = calls.copy(rt.alloc())?;
    assert_next_fails(&rt, &mut copy);
    Ok(())
}
