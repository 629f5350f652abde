//! Where one bill stands.
ghost use Rattle.std.specs.Prelude.{◌≡◌, [], None, option_copied};
ghost use Rattle.bill_diary.specs.Place.{tag_of};
ghost use Rattle.title_register.specs.BillState.{is_held};
ghost use Rattle.title_register.specs.PlaceRef.{place_view};
ghost use Rattle.title_register.specs.Standing.{nothing, parting_with, place_at, since_at, standing_with};

use crate::change::{Change, PartingChange};
use crate::known_chain::KnownChain;
use crate::place_ref::PlaceRef;
use ebl_base::{Chain, ChainLink, Items, PlaceTag, Transaction, TransactionList};
use std::alloc::Global;

/// Where a bill stands: what each record changes, and what the place follows from.
#[derive(Drop)]
pub(crate) struct Standing {
    /// The chain that is known, if one is.
    pub(crate) known: Option<KnownChain>,
    /// The entry that is parting, if one is.
    pub(crate) parting: Option<ChainLink>,
    /// Whether the last entry of the known chain is settled.
    pub(crate) left: bool,
    /// The transactions that were made since the last Taken.
    pub(crate) since: TransactionList,
}

impl Standing {
    /// Where a bill stands of which there is no record.
    pub(crate) fn nothing(alloc: Global) -> Self
        ensures { result ≡ nothing }
    {
        Standing {
            known: None,
            parting: None,
            left: false,
            since: Items::new(alloc),
        }
    }

    /// The place.
    pub(crate) fn place(&self) -> PlaceRef<'_>
        ensures { place_view result ≡ place_at self.now }
    {
        let Some(known) = &self.known else {
            return PlaceRef::Absent;
        };
        let known = known.chain();
        if let Some(entry) = &self.parting {
            return PlaceRef::Parting { known, entry };
        }
        if self.left {
            PlaceRef::Gone { known }
        } else {
            PlaceRef::Held {
                known,
                since: &self.since,
            }
        }
    }

    /// The chain that is known, if one is.
    pub(crate) fn known(&self) -> Option<&Chain>
        ensures { option_copied result ≡ self.now.known }
    {
        match &self.known {
            Some(known) => Some(known.chain()),
            None => None,
        }
    }

    /// The tag of the place.
    pub(crate) fn tag(&self) -> PlaceTag
        ensures { result ≡ tag_of (place_at self.now) }
    {
        if self.known.is_none() {
            PlaceTag::Absent
        } else if self.parting.is_some() {
            PlaceTag::Parting
        } else if self.left {
            PlaceTag::Gone
        } else {
            PlaceTag::Held
        }
    }

    /// Whether the bill is held.
    pub(crate) fn is_held(&self) -> bool
        ensures { result ≡ is_held (place_at self.now) }
    {
        self.known.is_some() && self.parting.is_none() && !self.left
    }

    /// The transactions that were made at the place: none where the bill isn't held.
    pub(crate) fn since(&self) -> &[Transaction]
        ensures { result.now ≡ since_at (place_at self.now) }
    {
        if self.known.is_none() || self.parting.is_some() || self.left {
            return &[];
        }
        self.since.as_slice()
    }

    /// The standing after a change.
    pub(crate) fn changed(self, change: Change) -> Self
        ensures { result ≡ standing_with change self }
    {
        let Standing {
            known,
            parting,
            since,
            ..
        } = self;
        Standing {
            known: change.known.or(known),
            parting: parting_after(change.parting, parting),
            left: change.left,
            since: change.since.unwrap_or(since),
        }
    }
}

fn parting_after(change: PartingChange, parting: Option<ChainLink>) -> Option<ChainLink>
    ensures { result ≡ parting_with change parting }
{
    match change {
        PartingChange::Same => parting,
        PartingChange::Over => None,
        PartingChange::Begins(link) => Some(link),
    }
}
