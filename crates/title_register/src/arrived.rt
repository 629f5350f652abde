//! What a frame changes in the names of the entries that came to a bill, and in whether its known chain is fresh.
#![tactic(auto, using(crate::proofs::PastLemmas::arrivals))]

ghost use Rattle.std.specs.Prelude.{◌≡◌, ◌∷◌, ◌++◌, IfOk, List, reverse, unwrap_or};
ghost use Rattle.bill_chain.specs.Chain.{names_of};
ghost use Rattle.bill_diary.specs.declared.record.Record.{Record};
ghost use Rattle.bill_diary.specs.History.{records_of};
ghost use Rattle.title_register.specs.Past.{arrived, is_fresh, with_names};

use crate::past::{Past, is_among};
use bill_chain::last_link;
use bill_diary::{Frame, Record};
use ebl_base::{ChainLink, ChecksumList, Copied, NoMemory};
use std::alloc::Global;

/// The names of the entries that came, after a frame. `None` where they stay.
pub(crate) fn arrived_after(
    alloc: Global,
    before: &Past<'_>,
    names: &ChecksumList,
    frame: &Frame,
) -> Result<Option<ChecksumList>, NoMemory>
    requires { names.now ≡ arrived before.now }
    ensures { IfOk result (λ after.
        unwrap_or after names.now ≡ arrived (reverse (records_of frame.now) ++ before.now)) }
{
    match frame {
        Frame::One(kept) => arrived_by(alloc, before, names, kept),
        Frame::BegunTaken(kept) => match kept {
            Record::Begun { chain, .. } => if last_link(chain.as_slice()).is_some() {
                Ok(Some(with_names(alloc, names, chain.as_slice())?))
            } else {
                Ok(None)
            },
            _ => arrived_by(alloc, before, names, kept),
        },
    }
}

// The names after a record.
fn arrived_by(
    alloc: Global,
    before: &Past<'_>,
    names: &ChecksumList,
    kept: &Record,
) -> Result<Option<ChecksumList>, NoMemory>
    requires { names.now ≡ arrived before.now }
    ensures { IfOk result (λ after. unwrap_or after names.now ≡ arrived (kept.now ∷ before.now)) }
{
    match kept {
        Record::Taken { entry, .. } => match before.taken_chain(*entry) {
            Some(chain) => Ok(Some(with_names(alloc, names, chain.as_slice())?)),
            None => Ok(None),
        },
        _ => Ok(None),
    }
}

// Some names, followed by those of a chain that aren't among them.
fn with_names(
    alloc: Global,
    names: &ChecksumList,
    chain: &[ChainLink],
) -> Result<ChecksumList, NoMemory>
    ensures { IfOk result (λ list. list ≡ with_names names.now (names_of chain.now)) }
{
    let mut list = names.copy(alloc)?;
    let mut left = chain;
    while let Some((link, rest)) = left.split_first() {
        if !is_among(names.as_slice(), link.name) {
            list.push(link.name)?;
        }
        left = rest;
    }
    Ok(list)
}

/// Whether no record told a chain since the last Parted, after a frame.
pub(crate) fn fresh_after(before: &Past<'_>, fresh: bool, frame: &Frame) -> bool
    requires { fresh ≡ is_fresh before.now }
    ensures { result ≡ is_fresh (reverse (records_of frame.now) ++ before.now) }
{
    match frame {
        Frame::One(kept) => fresh_by(fresh, kept),
        Frame::BegunTaken(kept) => match kept {
            Record::Begun { chain, .. } => if last_link(chain.as_slice()).is_some() {
                false
            } else {
                fresh
            },
            _ => fresh_by(fresh, kept),
        },
    }
}

// The same, after a record.
fn fresh_by(fresh: bool, kept: &Record) -> bool
    ensures { (h : List Record) → fresh ≡ is_fresh h → result ≡ is_fresh (kept.now ∷ h) }
{
    match kept {
        Record::Parted { .. } => true,
        Record::Signed { .. } | Record::Settled { .. } | Record::Taken { .. } => false,
        _ => fresh,
    }
}
