//! What no contract says: each function once, on chains of two entries, with rules of titles that let them through.
use crate::tests::comparing::same;
use crate::tests::making::party;
use bill_chain::{
    common_front, destination, ends_in, fold_after_chain, goes_beyond, has_entry, last_link,
    possessor_after,
};
use ebl_base::{
    Chain, ChainLink, Checksum, Entry, Kind, Moment, Party, SharedBytes, SignedText, Transaction,
    TransactionList,
};
use std::alloc::Global;
use std::process::Abort;
use std::test::Fail;
use title_fold::FoldRefusal;

fn party_if_any(text: Option<&[u8]>) -> Result<Option<Party>, Fail> {
    match text {
        Some(text) => Ok(Some(party(text)?)),
        None => Ok(None),
    }
}

fn act(kind: Kind, actor: &[u8], recipient: Option<&[u8]>) -> Result<Transaction, Fail> {
    let actor = party(actor)?;
    let recipient = party_if_any(recipient)?;
    Ok(Transaction {
        kind,
        actor,
        recipient,
        time: Moment::try_new(0).ok_or("a moment")?,
    })
}

fn link(alloc: Global, name: u8, transactions: &[Transaction]) -> Result<ChainLink, Fail> {
    let first = transactions.first().ok_or("a transaction")?;
    let transactions = TransactionList::from_slice(alloc, transactions)?;
    Ok(ChainLink {
        text: SignedText(SharedBytes::new()),
        name: Checksum([name; 32]),
        entry: Entry {
            platform: first.actor.platform,
            bill: Checksum([0; 32]),
            previous: None,
            attempt: 1,
            transactions,
        },
    })
}

// An entry that issues to BETA.
fn issuing(alloc: Global) -> Result<ChainLink, Fail> {
    let sign = act(Kind::Sign, b"ALPH/CARRIER", None)?;
    let issue = act(Kind::Issue, b"ALPH/CARRIER", Some(b"BETA/EXPORT"))?;
    link(alloc, 1, &[sign, issue])
}

// An entry of this name that transfers from there to GAMM.
fn transferring(alloc: Global, name: u8) -> Result<ChainLink, Fail> {
    let transfer = act(Kind::Transfer, b"BETA/EXPORT", Some(b"GAMM/BANK"))?;
    link(alloc, name, &[transfer])
}

fn add_links(alloc: Global, links: &mut Vec<ChainLink>, second: u8) -> Result<(), Fail> {
    links.push(issuing(alloc)?)?;
    links.push(transferring(alloc, second)?)?;
    Ok(())
}

// Both, the second under this name.
fn two_links(alloc: Global, second: u8) -> Result<Chain, Fail> {
    let mut links = Vec::new(alloc);
    add_links(alloc, &mut links, second)?;
    Ok(Chain::from_vec(alloc, links)?)
}

fn assert_names(rt: &impl Abort, links: &[ChainLink]) {
    let last = last_link(links).map(|link| link.name);
    let ends = ends_in(links, Checksum([2; 32]));
    let has = has_entry(links, Checksum([1; 32]));
    let has_other = has_entry(links, Checksum([3; 32]));
    let want = (Some(Checksum([2; 32])), true, true, false);
    same(rt, &"names", (last, ends, has, has_other), want);
}

// Two chains part after their first entries.
fn assert_parting(rt: &impl Abort, links: &[ChainLink], others: &[ChainLink]) -> Result<(), Fail> {
    let front = links.get(..1).ok_or("a front")?;
    let beyond = (goes_beyond(links, others), goes_beyond(front, others));
    same(rt, &"front", common_front(links, others), 1);
    same(rt, &"beyond", beyond, (false, true));
    Ok(())
}

#[test]
fn names_of_a_chain(rt: HostRuntime) -> Result<(), Fail> {
    let chain = two_links(rt.alloc(), 2)?;
    let other = two_links(rt.alloc(), 3)?;
    assert_names(&rt, chain.as_slice());
    let parting = assert_parting(&rt, chain.as_slice(), other.as_slice());
    drop(other);
    drop(chain);
    parting
}

fn assert_title(rt: &impl Abort, links: &[ChainLink], bank: Party, again: Transaction) {
    let after = fold_after_chain(links, &[again]);
    same(rt, &"possessor", possessor_after(links), Some(bank));
    same(rt, &"destination", destination(links), Some(bank.platform));
    same(rt, &"title", after, Err(FoldRefusal::F7));
}

fn assert_no_title(rt: &impl Abort) {
    same(rt, &"destination", destination(&[]), None);
    same(rt, &"title", fold_after_chain(&[], &[]), Ok(None));
}

#[test]
fn the_title_after_a_chain(rt: HostRuntime) -> Result<(), Fail> {
    let bank = party(b"GAMM/BANK")?;
    let again = act(Kind::Transfer, b"BETA/EXPORT", Some(b"GAMM/BANK"))?;
    let chain = two_links(rt.alloc(), 2)?;
    assert_title(&rt, chain.as_slice(), bank, again);
    drop(chain);
    assert_no_title(&rt);
    Ok(())
}
