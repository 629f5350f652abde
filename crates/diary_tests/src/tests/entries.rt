//! Chains of a bill that goes to and fro between ALPH and BETA, written by what their entries do, as `u.o.u`; the empty
//! chain is `-`. A chain's name is that of its last entry too.
//!
//! | Word | What the entry does, or what is wrong with it |
//! |---|---|
//! | `u` | as usual, it hands the bill to the other platform |
//! | `o` | the same, as another attempt |
//! | `agent` | it hands the bill to GAMM, as another attempt; ALPH alone does so |
//! | `ghost` | a party that doesn't have the bill hands it on |
//! | `not-compact` | the text is no signed text |
//! | `wrong-key` | the text is signed under the key of another platform than its `kid` |
//! | `no-entry` | the payload is no entry |
//! | `other-signer` | the entry is signed by GAMM, whose it isn't |
//! | `link` | it names another entry before it |
//! | `bill` | it is of another bill |
//! | `carrier` | its first transaction is by another party than the carrier |
//! | `platform` | it is GAMM's, whose turn it isn't |
//! | `fold` | a transaction is by a party that may not make it |
//! | `inside` | possession moves to the other platform, back, and there again |
//! | `stays` | the last transaction leaves possession on the platform |
//! | `lost` | its text isn't among those of the chain |
//!
//! Where an entry has two of them, they are written as `link+bill`.
use super::making::{
    THE_BILL, another_bill, bill_name, code, columns, document, found_in, roster, signed,
    signed_with, transactions,
};
use canonical_json::read;
use chain_entry::encode;
use document_checksum::checksum;
use ebl_base::{
    ByteList, Chain, ChainLink, Checksum, Copied, Entry, PlatformCode, SignedText, TextList,
};
use std::alloc::Global;
use std::process::Abort;
use test_signer::KeyedRing;
use transfer_chain::{ChainRefusal, check};

// The acts of an entry by its words: of the first entry, of a later one at ALPH, and of one at BETA. The acts of `u`
// are those of all that isn't there.
const FIRST_ACTS: &str = "\
u|sign issue to-importer
agent|sign issue to-agent
ghost|sign issue ghost-to-importer
carrier|sign-by-exporter issue to-importer
bill+carrier|sign-by-exporter issue to-importer
carrier+platform|sign-by-exporter issue to-importer
fold|sign issue-by-exporter agent-to-importer
inside|sign issue to-importer to-exporter to-importer
stays|sign issue to-store";

const ALPH_ACTS: &str = "\
u|to-importer
inside|to-importer to-exporter to-importer";

const BETA_ACTS: &str = "\
u|to-exporter
ghost|ghost-to-exporter
fold|agent-to-exporter
platform+fold|agent-to-exporter
stays|to-store-at-beta
fold+stays|agent-to-store-at-beta";

/// The platform whose turn it is after so many entries.
fn turn(entries: usize) -> &'static str {
    if entries % 2 == 0 { "ALPH" } else { "BETA" }
}

// The acts of an entry after so many.
fn acts_of<R: Abort>(rt: &R, entries: usize, word: &str) -> &'static str {
    let table = match entries {
        0 => FIRST_ACTS,
        _ if entries % 2 == 0 => ALPH_ACTS,
        _ => BETA_ACTS,
    };
    let usual = found_in(table, "u").expect(rt, "the usual acts");
    found_in(table, word).unwrap_or(usual)
}

fn has(entry: &str, word: &str) -> bool {
    entry.split('+').any(|one| one == word)
}

// One of two values: the other one where an entry has this word.
fn chosen<T: Copy>(entry: &str, word: &str, other: T, usual: T) -> T {
    if has(entry, word) { other } else { usual }
}

// Each platform's usual attempts are counted.
fn attempt(entries: usize, word: &str) -> u32 {
    let usual = if entries < 2 { 1 } else { 2 };
    match word {
        "o" | "agent" => usual + 1,
        _ => usual,
    }
}

fn entry<R: Abort>(
    rt: &R,
    alloc: Global,
    bill: Checksum,
    previous: Option<Checksum>,
    entries: usize,
    word: &str,
) -> Entry {
    let other = another_bill();
    Entry {
        platform: code(rt, chosen(word, "platform", "GAMM", turn(entries))),
        bill: chosen(word, "bill", other, bill),
        previous: chosen(word, "link", Some(other), previous),
        attempt: attempt(entries, word),
        transactions: transactions(rt, alloc, acts_of(rt, entries, word)),
    }
}

// ---- texts

// An entry's text, signed by a platform.
fn sealed<R: Abort>(
    rt: &R,
    alloc: Global,
    ring: &mut KeyedRing,
    who: PlatformCode,
    entry: &Entry,
) -> SignedText {
    let payload = encode(alloc, entry).expect(rt, "no error");
    let text = signed_with(rt, alloc, ring, who, &payload);
    drop(payload);
    text
}

// The text under the key that BETA has on the derived ring.
fn wrongly_sealed<R: Abort>(rt: &R, alloc: Global, entry: &Entry) -> SignedText {
    let mut key = [0; 64];
    for (i, byte) in checksum(b"EBL-TEST-KEY-BETA").0.iter().enumerate() {
        key[i] = *byte;
    }
    sealed(
        rt,
        alloc,
        &mut KeyedRing::one_key(entry.platform, key),
        entry.platform,
        entry,
    )
}

fn not_compact<R: Abort>(rt: &R, alloc: Global) -> SignedText {
    let bytes = ByteList::from_slice(alloc, b"x").expect(rt, "no error");
    SignedText::from_bytes(alloc, bytes).expect(rt, "no error")
}

fn no_entry<R: Abort>(rt: &R, alloc: Global, who: PlatformCode) -> SignedText {
    let payload = read(alloc, b"{}").expect(rt, "no error");
    let text = signed(rt, alloc, who, &payload);
    drop(payload);
    text
}

// The text of an entry, with what may be wrong with a signed text.
fn text_of<R: Abort>(rt: &R, alloc: Global, entry: &Entry, word: &str) -> SignedText {
    match word {
        "not-compact" => not_compact(rt, alloc),
        "no-entry" => no_entry(rt, alloc, entry.platform),
        "wrong-key" => wrongly_sealed(rt, alloc, entry),
        "other-signer" => sealed(
            rt,
            alloc,
            &mut KeyedRing::derived(),
            code(rt, "GAMM"),
            entry,
        ),
        _ => sealed(rt, alloc, &mut KeyedRing::derived(), entry.platform, entry),
    }
}

// ---- chains

fn name_of_last(links: &[ChainLink]) -> Option<Checksum> {
    match links.last() {
        Some(link) => Some(link.name),
        None => None,
    }
}

// The entry after a chain.
fn link<R: Abort>(
    rt: &R,
    alloc: Global,
    bill: Checksum,
    before: &[ChainLink],
    word: &str,
) -> ChainLink {
    let entry = entry(rt, alloc, bill, name_of_last(before), before.len(), word);
    let text = text_of(rt, alloc, &entry, word);
    ChainLink {
        name: checksum(text.0.as_slice()),
        text,
        entry,
    }
}

fn put_links<R: Abort>(
    rt: &R,
    alloc: Global,
    links: &mut Vec<ChainLink>,
    bill: Checksum,
    entries: &str,
) {
    for word in entries.split('.') {
        if word != "-" {
            links
                .push(link(rt, alloc, bill, links.as_slice(), word))
                .expect(rt, "no error");
        }
    }
}

/// The chain of a bill with these entries.
pub(crate) fn made<R: Abort>(rt: &R, alloc: Global, bill: &str, entries: &str) -> Chain {
    let name = bill_name(rt, alloc, bill);
    let mut links = Vec::new(alloc);
    put_links(rt, alloc, &mut links, name, entries);
    Chain::from_vec(alloc, links).expect(rt, "no error")
}

/// The texts of links, but of those that are lost.
pub(crate) fn texts<R: Abort>(
    rt: &R,
    alloc: Global,
    links: &[ChainLink],
    entries: &str,
) -> TextList {
    let mut texts = TextList::new(alloc);
    for (link, word) in links.iter().zip(entries.split('.')) {
        if !has(word, "lost") {
            texts
                .push(link.text.copy(alloc).expect(rt, "no error"))
                .expect(rt, "no error");
        }
    }
    texts
}

/// What the check of texts says.
pub(crate) fn checked<R: Abort>(
    rt: &R,
    alloc: Global,
    texts: &TextList,
) -> Result<Chain, ChainRefusal> {
    let roster = roster(rt, alloc);
    let document = document(rt, alloc, THE_BILL);
    let checked = check(alloc, &roster, &KeyedRing::derived(), &document, texts);
    drop(roster);
    checked
}

// ---- samples

/// A chain of the samples, with its bill and its entries as they are written.
#[derive(Drop)]
pub(crate) struct Sample {
    pub(crate) bill: &'static str,
    pub(crate) entries: &'static str,
    pub(crate) chain: Chain,
}

// The bill and the entries of each.
const SAMPLES: &str = "\
1|-
1|u
1|u.u
1|u.u.u
1|o
1|o.u
1|o.u.u
1|o.u.u.u
1|u.o
1|u.o.u
1|u.u.o
1|agent
1|ghost
1|u.ghost
2|u
3|u
5|u
8|u";

fn put_samples<R: Abort>(rt: &R, alloc: Global, samples: &mut Vec<Sample>) {
    for row in SAMPLES.lines() {
        let [bill, entries, ..] = columns(row);
        let chain = made(rt, alloc, bill, entries);
        samples
            .push(Sample {
                bill,
                entries,
                chain,
            })
            .expect(rt, "no error");
    }
}

/// The samples, which are made once a test.
pub(crate) fn samples<R: Abort>(rt: &R, alloc: Global) -> Vec<Sample> {
    let mut samples = Vec::new(alloc);
    put_samples(rt, alloc, &mut samples);
    samples
}

/// The sample of a bill with these entries.
pub(crate) fn sample_of<'a, R: Abort>(
    rt: &R,
    samples: &'a [Sample],
    bill: &str,
    entries: &str,
) -> &'a Sample {
    for sample in samples {
        if sample.bill == bill && sample.entries == entries {
            return sample;
        }
    }
    panic!(rt; "a sample")
}

impl Sample {
    /// The last entry of the chain.
    pub(crate) fn last<R: Abort>(&self, rt: &R) -> &ChainLink {
        self.chain.as_slice().last().expect(rt, "an entry")
    }

    /// The name of the last entry; `None` of the empty chain.
    pub(crate) fn name(&self) -> Option<Checksum> {
        name_of_last(self.chain.as_slice())
    }
}

/// The sample with this name.
pub(crate) fn named(samples: &[Sample], name: Option<Checksum>) -> Option<&Sample> {
    samples.iter().find(|sample| sample.name() == name)
}

/// How the entries of the chain with this name are written.
pub(crate) fn written(samples: &[Sample], name: Option<Checksum>) -> &'static str {
    match named(samples, name) {
        Some(sample) => sample.entries,
        None => "of no sample",
    }
}

/// The same of a chain.
pub(crate) fn written_chain(samples: &[Sample], chain: &Chain) -> &'static str {
    written(samples, name_of_last(chain.as_slice()))
}

/// The same of the chain that ends in the entry with this text, `-` where there is none.
pub(crate) fn written_text(samples: &[Sample], text: &Option<SignedText>) -> &'static str {
    match text {
        Some(text) => written(samples, Some(checksum(text.0.as_slice()))),
        None => "-",
    }
}
