//! Which entry of a bill is parting: sent to another platform that hasn't answered for good.
ghost use Rattle.std.specs.Prelude.{◌≡◌, option_copied};
ghost use Rattle.std.specs.List.{list_any};
ghost use Rattle.std.specs.Option.{option_to_list};
ghost use Rattle.bill_chain.specs.Chain.{has_entry};
ghost use Rattle.bill_diary.specs.Known.{taken_chain};
ghost use Rattle.bill_diary.specs.Place.{is_settled, is_regained, is_over, last_parted, parting, taken_chains};

use crate::begun::taken_chain;
use crate::record::Record;
use crate::record_ref::RecordRef;
use crate::walk::History;
use bill_chain::has_entry;
use ebl_base::{ChainLink, Checksum};

/// The entry of the last Parted, where its parting isn't over.
pub(crate) fn parting<'a>(h: History<'a>) -> Option<&'a ChainLink>
    ensures { option_copied result ≡ parting h.entry }
{
    let link = last_parted(h.restart())?;
    if is_over(h, link.name) {
        None
    } else {
        Some(link)
    }
}

// The entry of the last Parted.
fn last_parted<'a>(mut h: History<'a>) -> Option<&'a ChainLink>
    ensures { option_copied result ≡ last_parted h.entry }
{
    while let Some(record) = h.next() {
        if let RecordRef::Kept(Record::Parted { link, .. }) = record {
            return Some(link);
        }
    }
    None
}

// Whether the parting of an entry is over: it is settled or regained, or a chain with it was taken.
fn is_over(h: History, entry: Checksum) -> bool
    ensures { result ≡ is_over entry h.entry }
{
    is_settled(h.restart(), entry) || is_regained(h.restart(), entry) || is_taken_along(h, entry)
}

/// Whether an entry is settled.
pub(crate) fn is_settled(mut h: History, entry: Checksum) -> bool
    ensures { result ≡ is_settled entry h.entry }
{
    while let Some(record) = h.next() {
        if let RecordRef::Kept(Record::Settled { entry: other, .. }) = record {
            if *other == entry {
                return true;
            }
        }
    }
    false
}

// Whether an entry is regained.
fn is_regained(mut h: History, entry: Checksum) -> bool
    ensures { result ≡ is_regained entry h.entry }
{
    while let Some(record) = h.next() {
        if let RecordRef::Kept(Record::Regained { entry: other, .. }) = record {
            if *other == entry {
                return true;
            }
        }
    }
    false
}

// Whether a chain with the entry was taken.
fn is_taken_along(mut h: History, entry: Checksum) -> bool
    ensures { result ≡ list_any (has_entry entry) (taken_chains h.entry) }
{
    while let Some(record) = h.next() {
        if let Some(last) = record.taken() {
            if comes_along(h.restart(), last, entry) {
                return true;
            }
        }
    }
    false
}

// Whether the chain of a Taken has an entry, with the records before it.
fn comes_along(before: History, last: Checksum, entry: Checksum) -> bool
    ensures { result ≡ list_any (has_entry entry) (option_to_list (taken_chain last before.entry)) }
{
    match taken_chain(before, last) {
        Some(chain) => has_entry(chain.as_slice(), entry),
        None => false,
    }
}
