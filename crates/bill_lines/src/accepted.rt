//! The accepted chains of a bill, and the longest of them. No link is copied.
ghost use Rattle.std.specs.Prelude.{◌≡◌, [], filter, map, reverse, unwrap_or, IfOk};
ghost use Rattle.bill_diary.specs.Known.{longest};
ghost use Rattle.bill_diary.specs.Place.{taken_chains};
ghost use Rattle.closed_family.specs.Longest.{accepted_chains, ends_on};
ghost use Rattle.bill_lines.specs.Diaries.{histories_in, platforms_in};

use crate::diaries::{PlatformDiary, history_on};
use bill_chain::destination;
use bill_diary::{History, taken_chain};
use ebl_base::{ChainLink, Checksum, NoMemory, PlatformCode};
use std::alloc::Global;

/// The accepted chains: the empty one, and then those of the platforms, in their order.
#[tactic(auto, using(crate::proofs::ChainLists::chain_lists))]
pub(crate) fn accepted_chains<'a>(
    alloc: Global,
    bill: Checksum,
    diaries: &[PlatformDiary<'a>],
) -> Result<Vec<&'a [ChainLink]>, NoMemory>
    ensures { IfOk result (λ chains. map (λ c. c.now) chains.items
        ≡ accepted_chains (histories_in bill diaries.now) (platforms_in diaries.now)) }
{
    let mut chains = Vec::new(alloc);
    let empty: &[ChainLink] = &[];
    chains.push(empty)?;
    for d in diaries {
        let accepted = accepted_on(alloc, history_on(diaries, bill, d.platform), d.platform)?;
        chains.extend_from_slice(accepted.as_slice())?;
    }
    Ok(chains)
}

// Those of one platform: the chains that were taken there and end there, from the earliest on.
fn accepted_on<'a>(
    alloc: Global,
    h: History<'a>,
    p: PlatformCode,
) -> Result<Vec<&'a [ChainLink]>, NoMemory>
    ensures { IfOk result (λ chains. map (λ c. c.now) chains.items
        ≡ filter (ends_on p) (reverse (taken_chains h.entry))) }
{
    let taken = taken_chains(alloc, h)?;
    ending_on(alloc, p, taken)
}

// Those of some chains that end on a platform, from the last on.
#[tactic(auto, using(crate::proofs::ChainLists::chain_lists))]
fn ending_on<'a>(
    alloc: Global,
    p: PlatformCode,
    mut taken: Vec<&'a [ChainLink]>,
) -> Result<Vec<&'a [ChainLink]>, NoMemory>
    ensures { IfOk result (λ chains. map (λ c. c.now) chains.items
        ≡ filter (ends_on p) (reverse (map (λ c. c.now) taken.entry.items))) }
{
    let mut chains = Vec::new(alloc);
    while let Some(chain) = taken.pop() {
        if ends_on(p, chain) {
            chains.push(chain)?;
        }
    }
    Ok(chains)
}

// The chains of all Taken records, newest first.
#[tactic(auto, using(crate::proofs::ChainLists::taken_records))]
fn taken_chains<'a>(alloc: Global, mut h: History<'a>) -> Result<Vec<&'a [ChainLink]>, NoMemory>
    ensures { IfOk result (λ chains. map (λ c. c.now) chains.items ≡ taken_chains h.entry) }
{
    let mut chains = Vec::new(alloc);
    while let Some(record) = h.next() {
        if let Some(entry) = record.taken() {
            if let Some(chain) = taken_chain(h.restart(), entry) {
                chains.push(chain.as_slice())?;
            }
        }
    }
    Ok(chains)
}

// Whether a chain moves possession to this platform.
fn ends_on(p: PlatformCode, chain: &[ChainLink]) -> bool
    ensures { result ≡ ends_on p chain.now }
{
    match destination(chain) {
        Some(to) => to == p,
        None => false,
    }
}

/// The longest of some chains, of equally long ones the first; the empty one, if there is none.
#[tactic(auto, using(crate::proofs::ChainLists::longest_ones))]
pub(crate) fn longest<'a>(mut chains: Vec<&'a [ChainLink]>) -> &'a [ChainLink]
    ensures { result.now ≡ unwrap_or (longest (map (λ c. c.now) chains.entry.items)) [] }
{
    let mut best: &[ChainLink] = &[];
    while let Some(chain) = chains.pop() {
        if chain.len() >= best.len() {
            best = chain;
        }
    }
    best
}
