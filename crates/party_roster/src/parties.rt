//! The parties of a roster, which are many.
ghost use Rattle.std.specs.Prelude.{◌≡◌, [], ◌∷◌, ◌++◌, Ok, IfOk, IfErr};
ghost use Rattle.std.specs.Set.{is_member};
ghost use Rattle.canonical_json.specs.View.{view, items_view};
ghost use Rattle.ebl_base.specs.Party.{party_eq};
ghost use Rattle.party_roster.specs.Distinct.{fresh};
ghost use Rattle.party_roster.specs.Reading.{parties_of, distinct_parties, listed_party, IsFault};

use crate::fault::{RosterFault, RosterPlace};
use crate::platforms::has_platform;
use canonical_json::Json;
use ebl_base::{Copied, MAX_ROSTER_PARTIES, NoMemory, Party, PlatformCode};
use json_forms::{party_in, required_items};
use std::alloc::Global;
use std::collections::BTreeSet;
use std::marker::Model;

/// Parties in the order of the roster, which are found without going through all.
#[derive(Drop)]
pub(crate) struct PartyList {
    parties: Vec<Party>,
    // The same parties in their own order.
    known: BTreeSet<Party>,
}

impl Model for PartyList {
    ghost use Rattle.std.specs.Prelude.{List};
    ghost use Rattle.ebl_base.specs.declared.party.Party.{Party};

    ghost Value = { List Party };

    ghost use Rattle.party_roster.specs.Index.{AreIn};

    ghost view = { λ s. s.parties.items };

    ghost invariant = { λ s. AreIn s.parties.items s.known };
}

impl PartyList {
    fn new(alloc: Global) -> PartyList
        ensures { result ≡ [] }
    {
        PartyList {
            parties: Vec::new(alloc),
            known: BTreeSet::new(alloc),
        }
    }

    // The parties with one more at the end.
    fn with(self, party: Party) -> Result<PartyList, NoMemory>
        ensures { IfOk result (λ list. list ≡ self ++ party ∷ []) }
    {
        let PartyList {
            mut parties,
            mut known,
        } = self;
        parties.push(party)?;
        known.insert(party)?;
        Ok(PartyList { parties, known })
    }

    /// The parties of the roster that a value is.
    pub(crate) fn read(
        alloc: Global,
        platforms: &[PlatformCode],
        json: &Json,
    ) -> Result<PartyList, RosterFault>
        ensures ok { IfOk result (λ parties. parties_of platforms.now (view json.now) ≡ Ok parties) }
        ensures err { IfErr result (IsFault (parties_of platforms.now (view json.now))) }
    {
        match required_items(json, "parties", 1, MAX_ROSTER_PARTIES) {
            Some(items) => distinct_parties(alloc, platforms, items),
            None => Err(RosterFault::RosterForm(RosterPlace::Parties)),
        }
    }

    pub(crate) fn as_slice(&self) -> &[Party]
        ensures { result.now ≡ self.now }
    {
        self.parties.as_slice()
    }

    /// Whether a party is among them.
    pub(crate) fn has(&self, party: Party) -> bool
        ensures { result ≡ is_member party_eq self.now party }
    {
        self.known.contains(&party)
    }
}

impl Copied for PartyList {
    fn copy(&self, alloc: Global) -> Result<Self, NoMemory> {
        let parties = Vec::from_slice(alloc, self.parties.as_slice())?;
        let known = self.known.clone()?;
        Ok(PartyList { parties, known })
    }
}

fn distinct_parties(
    alloc: Global,
    platforms: &[PlatformCode],
    items: &[Json],
) -> Result<PartyList, RosterFault>
    ensures ok { IfOk result (λ parties. distinct_parties platforms.now (items_view items.now) ≡ Ok parties) }
    ensures err { IfErr result (IsFault (distinct_parties platforms.now (items_view items.now))) }
{
    let mut list = PartyList::new(alloc);
    for item in items {
        let Some(party) = next_party(platforms, &list, item) else {
            return Err(RosterFault::RosterForm(RosterPlace::PartyAt(list.as_slice().len())));
        };
        list = list.with(party)?;
    }
    Ok(list)
}

fn next_party(platforms: &[PlatformCode], earlier: &PartyList, item: &Json) -> Option<Party>
    ensures { result ≡ fresh party_eq earlier.now (listed_party platforms.now (view item.now)) }
{
    let party = listed_party(platforms, item)?;
    if earlier.has(party) {
        return None;
    }
    Some(party)
}

fn listed_party(platforms: &[PlatformCode], item: &Json) -> Option<Party>
    ensures { result ≡ listed_party platforms.now (view item.now) }
{
    let party = party_in(item)?;
    if !has_platform(platforms, party.platform) {
        return None;
    }
    Some(party)
}
