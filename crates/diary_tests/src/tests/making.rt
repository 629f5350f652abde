//! Parties, acts, rosters, bills and signed texts, of which the other samples are made. All samples are written as
//! words, and the tables of the tests are texts of such words.
use canonical_json::{Json, is_lawful, read};
use document_checksum::checksum;
use ebl_base::{
    Checksum, Kind, Moment, Party, PlatformCode, SignedText, Transaction, TransactionList,
};
use party_roster::Roster;
use signed_envelope::compose;
use std::alloc::Global;
use std::process::Abort;
use test_signer::KeyedRing;
use transport_document::Document;

// Three platforms. No party NOBODY or STORE is among the parties.
const ROSTER: &[u8] = br#"{
    "carriers":[{"code":"OCNL","party":"ALPH/CARRIER","provider":"NMFTA"}],
    "parties":["ALPH/BANK","ALPH/CARRIER","ALPH/EXPORT","BETA/IMPORT","GAMM/AGENT"],
    "platforms":["ALPH","BETA","GAMM"]
}"#;

/// The roster of the tests.
pub(crate) fn roster<R: Abort>(rt: &R, alloc: Global) -> Roster {
    let json = read(alloc, ROSTER).expect(rt, "no error");
    let roster = Roster::read(alloc, &json).expect(rt, "no error");
    drop(json);
    roster
}

pub(crate) fn code<R: Abort>(rt: &R, platform: &str) -> PlatformCode {
    PlatformCode::try_new(platform.as_bytes()).expect(rt, "a code")
}

// ---- tables

/// The columns of a row; empty ones, where it has fewer.
pub(crate) fn columns(row: &str) -> [&str; 5] {
    let mut columns = [""; 5];
    for (at, column) in row.splitn(5, '|').enumerate() {
        if at < 5 {
            columns[at] = column;
        }
    }
    columns
}

/// What a table has in its second column where a word is in the first.
pub(crate) fn found_in(table: &'static str, word: &str) -> Option<&'static str> {
    for row in table.lines() {
        let [first, second, ..] = columns(row);
        if first == word {
            return Some(second);
        }
    }
    None
}

/// Asserts that what was seen is what a row wants.
pub(crate) fn assert_text<R: Abort>(rt: &R, seen: &str, want: &str, row: &str) {
    assert!(rt; seen == want, "{row}: {seen}");
}

// ---- acts

// Acts: the word for one, and its kind, the actor and the recipient, where there is one. No bill may be issued by its
// exporter; AGENT and GHOST don't have the bill.
const ACTS: &str = "\
sign|SIGN ALPH/CARRIER
sign-at-beta|SIGN BETA/CARRIER
sign-by-exporter|SIGN ALPH/EXPORT
issue|ISSUE ALPH/CARRIER ALPH/EXPORT
issue-by-exporter|ISSUE ALPH/EXPORT ALPH/EXPORT
to-bank|TRANSFER ALPH/EXPORT ALPH/BANK
from-bank|TRANSFER ALPH/BANK ALPH/EXPORT
bank-to-carrier|TRANSFER ALPH/BANK ALPH/CARRIER
from-carrier|TRANSFER ALPH/CARRIER ALPH/EXPORT
to-importer|TRANSFER ALPH/EXPORT BETA/IMPORT
to-exporter|TRANSFER BETA/IMPORT ALPH/EXPORT
to-agent|TRANSFER ALPH/EXPORT GAMM/AGENT
to-store|TRANSFER ALPH/EXPORT ALPH/STORE
to-store-at-beta|TRANSFER BETA/IMPORT BETA/STORE
ghost-to-importer|TRANSFER BETA/GHOST BETA/IMPORT
ghost-to-exporter|TRANSFER ALPH/GHOST ALPH/EXPORT
agent-to-importer|TRANSFER GAMM/AGENT BETA/IMPORT
agent-to-exporter|TRANSFER GAMM/AGENT ALPH/EXPORT
agent-to-store-at-beta|TRANSFER GAMM/AGENT BETA/STORE
for-delivery|SURRENDER_FOR_DELIVERY ALPH/EXPORT
accept|SURRENDER_ACCEPTED ALPH/CARRIER
refuse|SURRENDER_REFUSED ALPH/CARRIER";

/// When everybody acts.
pub(crate) fn moment<R: Abort>(rt: &R) -> Moment {
    Moment::try_new(1000).expect(rt, "a moment")
}

// The kind of an act, who acts, and the recipient, where there is one.
fn parts(act: &str) -> Option<(Kind, Party, Option<Party>)> {
    let (kind, parties) = found_in(ACTS, act)?.split_once(' ')?;
    let (actor, to) = parties.split_once(' ').unwrap_or((parties, ""));
    let kind = Kind::from_text(kind.as_bytes())?;
    let actor = Party::from_text(actor.as_bytes())?;
    Some((kind, actor, Party::from_text(to.as_bytes())))
}

pub(crate) fn transaction<R: Abort>(rt: &R, act: &str) -> Transaction {
    let (kind, actor, recipient) = parts(act).expect(rt, "an act");
    Transaction {
        kind,
        actor,
        recipient,
        time: moment(rt),
    }
}

fn put_transactions<R: Abort>(rt: &R, list: &mut TransactionList, acts: &str) {
    for act in acts.split(' ') {
        list.push(transaction(rt, act)).expect(rt, "no error");
    }
}

/// The transactions of acts.
pub(crate) fn transactions<R: Abort>(rt: &R, alloc: Global, acts: &str) -> TransactionList {
    let mut list = TransactionList::new(alloc);
    put_transactions(rt, &mut list, acts);
    list
}

// ---- bills

/// The bill of the tests that have one. A bill is written as the last digit of its document's reference.
pub(crate) const THE_BILL: &str = "1";

/// The canonical text of a bill's document.
pub(crate) fn document_text<R: Abort>(rt: &R, alloc: Global, bill: &str) -> String {
    format!(in alloc;
        "{{\"carrierCode\":\"OCNL\",\"carrierCodeListProvider\":\"NMFTA\",\"isToOrder\":true,\
        \"transportDocumentReference\":\"OCNL000000{bill}\",\"transportDocumentTypeCode\":\"BOL\"}}"
    )
    .expect(rt, "no error")
}

/// The name of a bill.
pub(crate) fn bill_name<R: Abort>(rt: &R, alloc: Global, bill: &str) -> Checksum {
    let text = document_text(rt, alloc, bill);
    checksum(text.as_bytes())
}

/// The name of a bill of which there is no document.
pub(crate) fn another_bill() -> Checksum {
    checksum(b"another")
}

pub(crate) fn document_json<R: Abort>(rt: &R, alloc: Global, bill: &str) -> Json {
    let text = document_text(rt, alloc, bill);
    read(alloc, text.as_bytes()).expect(rt, "no error")
}

pub(crate) fn document<R: Abort>(rt: &R, alloc: Global, bill: &str) -> Document {
    let json = document_json(rt, alloc, bill);
    let document = Document::of_json(alloc, &json).expect(rt, "no error");
    drop(json);
    document
}

// ---- signed texts

/// A payload as a platform signs it with this ring.
pub(crate) fn signed_with<R: Abort>(
    rt: &R,
    alloc: Global,
    ring: &mut KeyedRing,
    who: PlatformCode,
    payload: &Json,
) -> SignedText {
    if !is_lawful(payload) {
        panic!(rt; "a lawful payload");
    }
    compose(alloc, ring, who, payload, 16_384).expect(rt, "no error")
}

/// The same with the ring of derived keys.
pub(crate) fn signed<R: Abort>(
    rt: &R,
    alloc: Global,
    who: PlatformCode,
    payload: &Json,
) -> SignedText {
    signed_with(rt, alloc, &mut KeyedRing::derived(), who, payload)
}
