//! The known chain of a bill, and the chain that a Settled tells.
ghost use Rattle.std.specs.Prelude.{◌≡◌, ◌∷◌, [], ◌++◌, IfOk, map, option_map};
ghost use Rattle.bill_diary.specs.History.{record_at};
ghost use Rattle.bill_diary.specs.Known.{known, settled_chain};

use crate::known_chains::KnownChains;
use crate::links::Links;
use crate::record::Record;
use crate::record_ref::RecordRef;
use crate::walk::History;
use ebl_base::{Chain, ChainLink, Checksum, Copied, NoMemory};
use std::alloc::Global;

/// The known chain of a bill by what is left of its history: the longest of the chains that the records tell, of
/// equally long ones the last. `None` where neither a Signed nor a Taken is left.
///
/// It goes over the history twice, keeps references to its chains and the entries that were parted, and copies the
/// chain that it answers.
pub(crate) fn known_chain(alloc: Global, h: History) -> Result<Option<Chain>, NoMemory>
    ensures { IfOk result (λ chain. chain ≡ known h.entry) }
{
    match known_links(alloc, h)? {
        Some(links) => Ok(Some(links.chain(alloc)?)),
        None => Ok(None),
    }
}

/// The same chain by references to its links: none is copied.
pub(crate) fn known_links<'a>(alloc: Global, h: History<'a>) -> Result<Option<Links<'a>>, NoMemory>
    ensures { IfOk result (λ links. links ≡ known h.entry) }
{
    let mut left = records(alloc, h)?;
    let mut told = KnownChains::nothing(alloc);
    while let Some(record) = left.pop() {
        told.add(alloc, record)?;
    }
    Ok(told.known())
}

// The records that are left, newest first.
fn records<'a>(alloc: Global, mut h: History<'a>) -> Result<Vec<RecordRef<'a>>, NoMemory>
    ensures { IfOk result (λ records. map record_at records.items ≡ h.entry) }
{
    let mut records = Vec::new(alloc);
    while let Some(record) = h.next() {
        records.push(record)?;
    }
    Ok(records)
}

/// The chain that a Settled of this entry tells, with the records before it: the known chain before the last Parted of
/// the entry, followed by the entry. `None` where the entry wasn't parted, or no chain was known then.
///
/// It goes over the records before that Parted twice, and copies the chain that it answers.
pub fn settled_chain(
    alloc: Global,
    mut before: History,
    entry: Checksum,
) -> Result<Option<Chain>, NoMemory>
    ensures { IfOk result (λ chain. chain ≡ settled_chain entry before.entry) }
{
    while let Some(record) = before.next() {
        if let RecordRef::Kept(Record::Parted { link, .. }) = record {
            if link.name == entry {
                return with_link(alloc, known_links(alloc, before)?, link);
            }
        }
    }
    Ok(None)
}

// A chain, where there is one, followed by one link more.
fn with_link<'a>(
    alloc: Global,
    known: Option<Links<'a>>,
    link: &'a ChainLink,
) -> Result<Option<Chain>, NoMemory>
    ensures { IfOk result (λ chain. chain ≡ option_map (λ chain. chain ++ link.now ∷ []) known.entry) }
{
    let Some(mut links) = known else {
        return Ok(None);
    };
    links.push(link)?;
    Ok(Some(links.chain(alloc)?))
}
