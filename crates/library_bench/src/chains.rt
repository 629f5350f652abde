//! Checks of a chain, by which a bill goes to and fro between two platforms.
use crate::acts::transaction;
use crate::done;
use canonical_json::{Json, is_lawful, read};
use chain_entry::encode;
use document_checksum::checksum;
use ebl_base::{Checksum, Entry, Kind, PlatformCode, SignedText, TextList, TransactionList};
use party_roster::Roster;
use signed_envelope::compose;
use std::alloc::Global;
use test_signer::KeyedRing;
use transfer_chain::check;
use transport_document::Document;

const ROSTER: &[u8] =
    br#"{"carriers":[{"code":"OCNL","party":"ALPH/CARRIER","provider":"NMFTA"}],"parties":["ALPH/CARRIER"],"platforms":["ALPH","BETA"]}"#;

const DOCUMENT: &[u8] =
    br#"{"carrierCode":"OCNL","carrierCodeListProvider":"NMFTA","isToOrder":true,"transportDocumentReference":"OCNL0000001","transportDocumentTypeCode":"BOL"}"#;

/// Makes a good chain of so many entries with so many transactions, and checks it so often. None comes where it could
/// not be made, or was refused.
pub(crate) fn check_chain(
    alloc: Global,
    entries: u32,
    transactions: usize,
    rounds: u32,
) -> Option<()> {
    let document = document(alloc)?;
    let mut ring = KeyedRing::derived();
    let texts = chain_texts(alloc, &mut ring, document.bill(), entries, transactions);
    check_often(alloc, &ring, &document, &texts?, rounds)
}

fn check_often(
    alloc: Global,
    ring: &KeyedRing,
    document: &Document,
    texts: &TextList,
    rounds: u32,
) -> Option<()> {
    let roster = roster(alloc)?;
    for _ in 0..rounds {
        if !done(check(alloc, &roster, ring, document, texts)) {
            return None;
        }
    }
    Some(())
}

fn roster(alloc: Global) -> Option<Roster> {
    let json = read(alloc, ROSTER).ok()?;
    Roster::read(alloc, &json).ok()
}

fn document(alloc: Global) -> Option<Document> {
    let json = read(alloc, DOCUMENT).ok()?;
    Document::of_json(alloc, &json).ok()
}

fn chain_texts(
    alloc: Global,
    ring: &mut KeyedRing,
    bill: Checksum,
    entries: u32,
    transactions: usize,
) -> Option<TextList> {
    let mut texts = TextList::new(alloc);
    let mut previous = None;
    for at in 0..entries {
        let text = entry_text(alloc, ring, bill, previous, at, transactions)?;
        previous = Some(checksum(text.0.as_slice()));
        texts.push(text).ok()?;
    }
    Some(texts)
}

fn entry_text(
    alloc: Global,
    ring: &mut KeyedRing,
    bill: Checksum,
    previous: Option<Checksum>,
    at: u32,
    transactions: usize,
) -> Option<SignedText> {
    let platform = PlatformCode::try_new(platform(at).as_bytes())?;
    let transactions = transactions_at(alloc, at, transactions)?;
    let entry = Entry {
        platform,
        bill,
        previous,
        attempt: 1,
        transactions,
    };
    let payload = encode(alloc, &entry).ok()?;
    sealed(alloc, ring, platform, &payload)
}

fn sealed(
    alloc: Global,
    ring: &mut KeyedRing,
    platform: PlatformCode,
    payload: &Json,
) -> Option<SignedText> {
    if is_lawful(payload) {
        compose(alloc, ring, platform, payload, 16_384).ok()
    } else {
        None
    }
}

fn transactions_at(alloc: Global, at: u32, count: usize) -> Option<TransactionList> {
    let mut list = TransactionList::new(alloc);
    fill(&mut list, at, count)?;
    Some(list)
}

// In the first entry the carrier signs, and issues the bill to the first possessor. Possession goes between two parties
// of this platform, and at last to the other one.
fn fill(list: &mut TransactionList, at: u32, count: usize) -> Option<()> {
    if at == 0 {
        put(list, Kind::Sign, "ALPH/CARRIER", None)?;
        put(list, Kind::Issue, "ALPH/CARRIER", Some(receiver(0)))?;
    }
    let (mut from, mut to) = (receiver(at), beside(at));
    for _ in 1..count.saturating_sub(list.len()) {
        put(list, Kind::Transfer, from, Some(to))?;
        (from, to) = (to, from);
    }
    put(
        list,
        Kind::Transfer,
        from,
        Some(receiver(at.wrapping_add(1))),
    )
}

fn put(list: &mut TransactionList, kind: Kind, actor: &str, recipient: Option<&str>) -> Option<()> {
    list.push(transaction(kind, actor, recipient, 1000)?).ok()
}

// The two platforms, in turn.
fn platform(at: u32) -> &'static str {
    if at % 2 == 0 { "ALPH" } else { "BETA" }
}

// The party to which the other platform hands the bill.
fn receiver(at: u32) -> &'static str {
    if at % 2 == 0 {
        "ALPH/EXPORT"
    } else {
        "BETA/IMPORT"
    }
}

// The party to which that one hands it on, on the same platform.
fn beside(at: u32) -> &'static str {
    if at % 2 == 0 {
        "ALPH/BANK"
    } else {
        "BETA/STORE"
    }
}
