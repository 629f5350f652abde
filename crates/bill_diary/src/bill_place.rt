//! Where a bill stands on a platform.
ghost use Rattle.std.specs.Prelude.{◌≡◌, IfOk, Some, false, option_copied};
ghost use Rattle.std.specs.Option.{option_map_or};
ghost use Rattle.bill_diary.specs.declared.bill_place.BillPlace.TheVariants.{Parting};
ghost use Rattle.bill_diary.specs.Known.{known};
ghost use Rattle.bill_diary.specs.Place.{is_settled, known_at, place_of, tag_of};

use crate::known::known_chain;
use crate::parting::{is_settled, parting};
use crate::since::since;
use crate::walk::History;
use bill_chain::last_link;
use ebl_base::{Chain, ChainLink, Copied, NoMemory, PlaceTag, TransactionList};
use std::alloc::Global;

/// Where a bill stands on a platform, with what the platform knows of it.
#[derive(Debug, Drop)]
pub enum BillPlace {
    /// The platform doesn't know the bill.
    Absent,
    /// The platform holds the bill: its possessor may act there, unless its title is ended.
    Held {
        /// The chain by which the bill came here; empty where it began here.
        known: Chain,
        /// The transactions made here since.
        since: TransactionList,
    },
    /// The platform has sent the bill to another one, which hasn't answered for good.
    Parting {
        known: Chain,
        /// The entry that was sent.
        entry: ChainLink,
    },
    /// Another platform has received the bill from this one: its entry is the last of the chain.
    Gone {
        known: Chain,
    },
}

impl BillPlace {
    /// Which of the four places it is.
    pub fn tag(&self) -> PlaceTag
        ensures { result ≡ tag_of self.now }
    {
        match self {
            BillPlace::Absent => PlaceTag::Absent,
            BillPlace::Held { .. } => PlaceTag::Held,
            BillPlace::Parting { .. } => PlaceTag::Parting,
            BillPlace::Gone { .. } => PlaceTag::Gone,
        }
    }

    /// The chain that is known there. `None` where the bill is absent.
    pub fn known(&self) -> Option<&Chain>
        ensures { option_copied result ≡ known_at self.now }
    {
        match self {
            BillPlace::Absent => None,
            BillPlace::Held { known, .. }
            | BillPlace::Parting { known, .. }
            | BillPlace::Gone { known } => Some(known),
        }
    }
}

/// The place of a bill by what is left of its history.
///
/// It goes over the history several times, and copies the known chain. For each Taken it looks for a Begun.
pub fn place_of(alloc: Global, h: History) -> Result<BillPlace, NoMemory>
    ensures { IfOk result (λ place. place ≡ place_of h.entry) }
{
    let Some(chain) = known_chain(alloc, h.restart())? else {
        return Ok(BillPlace::Absent);
    };
    place_with(alloc, h, chain)
}

// The place of a bill whose known chain this is.
fn place_with(alloc: Global, h: History, chain: Chain) -> Result<BillPlace, NoMemory>
    requires { known h ≡ Some chain }
    ensures { IfOk result (λ place. place ≡ place_of h.entry) }
{
    if let Some(link) = parting(h.restart()) {
        return parting_with(alloc, chain, link);
    }
    if is_left(last_link(chain.as_slice()), h.restart()) {
        return Ok(BillPlace::Gone { known: chain });
    }
    Ok(BillPlace::Held {
        known: chain,
        since: since(alloc, h)?,
    })
}

// The place of a bill that parts with an entry.
fn parting_with(alloc: Global, chain: Chain, entry: &ChainLink) -> Result<BillPlace, NoMemory>
    ensures { IfOk result (λ place. place ≡ Parting chain entry.now) }
{
    Ok(BillPlace::Parting {
        known: chain,
        entry: entry.copy(alloc)?,
    })
}

/// Whether a Settled names the last link of a chain, if there is one.
pub(crate) fn is_left(last: Option<&ChainLink>, h: History) -> bool
    ensures { result ≡ option_map_or (λ link. is_settled link.name h.entry) (option_copied last.entry) false }
{
    match last {
        Some(link) => is_settled(h, link.name),
        None => false,
    }
}

impl Copied for BillPlace {
    fn copy(&self, alloc: Global) -> Result<Self, NoMemory> {
        match self {
            BillPlace::Absent => Ok(BillPlace::Absent),
            BillPlace::Held { known, since } => Ok(BillPlace::Held {
                known: known.copy(alloc)?,
                since: since.copy(alloc)?,
            }),
            BillPlace::Parting { known, entry } => parting_with(alloc, known.copy(alloc)?, entry),
            BillPlace::Gone { known } => Ok(BillPlace::Gone {
                known: known.copy(alloc)?,
            }),
        }
    }
}
