//! The carriers of a roster.
ghost use Rattle.std.specs.Prelude.{◌≡◌, [], ◌∷◌, ◌++◌, false, Ok, IfOk, IfErr};
ghost use Rattle.std.specs.Set.{is_member};
ghost use Rattle.canonical_json.specs.View.{view, items_view};
ghost use Rattle.party_roster.specs.Distinct.{fresh};
ghost use Rattle.party_roster.specs.RosterRecord.{party_for, same_carrier};
ghost use Rattle.party_roster.specs.Reading.{carriers_of, distinct_carriers, carrier_in, listed_carrier, IsFault};

use crate::carrier::Carrier;
use crate::fault::{RosterFault, RosterPlace};
use crate::parties::PartyList;
use canonical_json::Json;
use ebl_base::{CarrierCode, Copied, MAX_ROSTER_CARRIERS, NoMemory, Party, Provider};
use json_forms::{required_carrier_code, required_items, required_party, required_provider};
use std::alloc::Global;
use std::collections::BTreeMap;
use std::marker::Model;

/// Carriers in the order of the roster, which are found without going through all.
#[derive(Drop)]
pub(crate) struct CarrierList {
    carriers: Vec<Carrier>,
    // Their parties by provider and code.
    parties: BTreeMap<(Provider, CarrierCode), Party>,
}

impl Model for CarrierList {
    ghost use Rattle.std.specs.Prelude.{List};
    ghost use Rattle.party_roster.specs.declared.carrier.Carrier.{Carrier};

    ghost Value = { List Carrier };

    ghost use Rattle.party_roster.specs.Index.{AreUnder};

    ghost view = { λ s. s.carriers.items };

    ghost invariant = { λ s. AreUnder s.carriers.items s.parties };
}

impl CarrierList {
    /// The carriers of the roster that a value is, with these parties.
    pub(crate) fn read(
        alloc: Global,
        parties: &PartyList,
        json: &Json,
    ) -> Result<CarrierList, RosterFault>
        ensures ok { IfOk result (λ carriers. carriers_of parties.now (view json.now) ≡ Ok carriers) }
        ensures err { IfErr result (IsFault (carriers_of parties.now (view json.now))) }
    {
        match required_items(json, "carriers", 1, MAX_ROSTER_CARRIERS) {
            Some(items) => distinct_carriers(alloc, parties, items),
            None => Err(RosterFault::RosterForm(RosterPlace::Carriers)),
        }
    }

    fn new(alloc: Global) -> CarrierList
        ensures { result ≡ [] }
    {
        CarrierList {
            carriers: Vec::new(alloc),
            parties: BTreeMap::new(alloc),
        }
    }

    // The carriers with one more at the end, which repeats no earlier one.
    fn with(self, carrier: Carrier) -> Result<CarrierList, NoMemory>
        requires { is_member same_carrier self carrier ≡ false }
        ensures { IfOk result (λ list. list ≡ self ++ carrier ∷ []) }
    {
        let CarrierList {
            mut carriers,
            mut parties,
        } = self;
        carriers.push(carrier)?;
        parties.insert((carrier.provider, carrier.code), carrier.party)?;
        Ok(CarrierList { carriers, parties })
    }

    pub(crate) fn as_slice(&self) -> &[Carrier]
        ensures { result.now ≡ self.now }
    {
        self.carriers.as_slice()
    }

    /// The party of the carrier with this provider and code.
    pub(crate) fn party_for(&self, provider: Provider, code: CarrierCode) -> Option<Party>
        ensures { result ≡ party_for self.now provider code }
    {
        self.parties.get(&(provider, code)).copied()
    }

    // Whether a carrier repeats the provider and code of one of them.
    fn has(&self, carrier: Carrier) -> bool
        ensures { result ≡ is_member same_carrier self.now carrier }
    {
        self.party_for(carrier.provider, carrier.code).is_some()
    }
}

impl Copied for CarrierList {
    fn copy(&self, alloc: Global) -> Result<Self, NoMemory> {
        let carriers = Vec::from_slice(alloc, self.carriers.as_slice())?;
        let parties = self.parties.clone()?;
        Ok(CarrierList { carriers, parties })
    }
}

fn distinct_carriers(
    alloc: Global,
    parties: &PartyList,
    items: &[Json],
) -> Result<CarrierList, RosterFault>
    ensures ok { IfOk result (λ carriers. distinct_carriers parties.now (items_view items.now) ≡ Ok carriers) }
    ensures err { IfErr result (IsFault (distinct_carriers parties.now (items_view items.now))) }
{
    let mut list = CarrierList::new(alloc);
    for item in items {
        let Some(carrier) = next_carrier(parties, &list, item) else {
            return Err(RosterFault::RosterForm(RosterPlace::CarrierAt(list.as_slice().len())));
        };
        list = list.with(carrier)?;
    }
    Ok(list)
}

fn next_carrier(parties: &PartyList, earlier: &CarrierList, item: &Json) -> Option<Carrier>
    ensures { result ≡ fresh same_carrier earlier.now (listed_carrier parties.now (view item.now)) }
{
    let carrier = listed_carrier(parties, item)?;
    if earlier.has(carrier) {
        return None;
    }
    Some(carrier)
}

fn listed_carrier(parties: &PartyList, item: &Json) -> Option<Carrier>
    ensures { result ≡ listed_carrier parties.now (view item.now) }
{
    let carrier = carrier_in(item)?;
    if !parties.has(carrier.party) {
        return None;
    }
    Some(carrier)
}

fn carrier_in(item: &Json) -> Option<Carrier>
    ensures { result ≡ carrier_in (view item.now) }
{
    let provider = required_provider(item, "provider")?;
    let code = required_carrier_code(item, "code")?;
    let party = required_party(item, "party")?;
    Some(Carrier {
        provider,
        code,
        party,
    })
}
