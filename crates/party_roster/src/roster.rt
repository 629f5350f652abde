//! The roster.
ghost use Rattle.std.specs.Prelude.{◌≡◌, Ok, IfOk, IfErr};
ghost use Rattle.canonical_json.specs.View.{view};
ghost use Rattle.party_roster.specs.RosterForm.{IsRoster};
ghost use Rattle.party_roster.specs.RosterRecord.{has_platform, carrier, knows};
ghost use Rattle.party_roster.specs.Reading.{roster_of, IsFault};

use crate::carrier::Carrier;
use crate::carriers::CarrierList;
use crate::fault::RosterFault;
use crate::parties::PartyList;
use crate::platforms::{has_platform, platforms_of};
use canonical_json::Json;
use ebl_base::{CarrierCode, Copied, Items, NoMemory, Party, PlatformCode, Provider};
use std::alloc::Global;
use std::marker::Model;

/// Which platforms, parties and carriers take part: 1 to 8 platforms, 1 to 1,024 parties on them, 1 to
/// 64 carriers' codes with their parties.
///
/// No look-up takes memory. A party is found in an ordered set, and a carrier in an ordered map.
#[derive(Drop)]
pub struct Roster {
    platforms: Items<PlatformCode>,
    parties: PartyList,
    carriers: CarrierList,
}

impl Model for Roster {
    ghost use Rattle.party_roster.specs.RosterRecord.{RosterRecord};

    ghost Value = { RosterRecord };

    ghost view = { λ s. record { platforms = s.platforms; parties = s.parties; carriers = s.carriers } };
}

impl Roster {
    /// The roster that a value is: an object with `platforms`, distinct codes; `parties`, distinct
    /// texts as `ALPH/EXPORT`;
    /// `carriers`, objects with `provider`, `code` and `party`, distinct by the first two. Further
    /// members are ignored.
    ///
    /// A [`RosterFault::RosterForm`] names the first place that isn't so: the platforms are tested
    /// first, then the parties, then the carriers.
    pub fn read(alloc: Global, json: &Json) -> Result<Roster, RosterFault>
        ensures ok { IfOk result (λ roster. roster_of (view json.now) ≡ Ok roster) }
        ensures form { IfOk result (λ roster. IsRoster roster) }
        ensures err { IfErr result (IsFault (roster_of (view json.now))) }
    {
        let platforms = platforms_of(alloc, json)?;
        let parties = PartyList::read(alloc, platforms.as_slice(), json)?;
        let carriers = CarrierList::read(alloc, &parties, json)?;
        Ok(Roster {
            platforms,
            parties,
            carriers,
        })
    }

    /// The platforms, in the order in which they were read.
    pub fn platforms(&self) -> &[PlatformCode]
        ensures { result.now ≡ self.now.platforms }
    {
        self.platforms.as_slice()
    }

    /// The parties, in the order in which they were read.
    pub fn parties(&self) -> &[Party]
        ensures { result.now ≡ self.now.parties }
    {
        self.parties.as_slice()
    }

    /// The carriers, in the order in which they were read.
    pub fn carriers(&self) -> &[Carrier]
        ensures { result.now ≡ self.now.carriers }
    {
        self.carriers.as_slice()
    }

    /// Whether the platform takes part.
    pub fn has_platform(&self, platform: PlatformCode) -> bool
        ensures { result ≡ has_platform self.now platform }
    {
        has_platform(self.platforms.as_slice(), platform)
    }

    /// The party for which this code stands in the list of this provider.
    pub fn carrier(&self, provider: Provider, code: CarrierCode) -> Option<Party>
        ensures { result ≡ carrier self.now provider code }
    {
        self.carriers.party_for(provider, code)
    }

    /// Whether the party takes part.
    pub fn knows(&self, party: Party) -> bool
        ensures { result ≡ knows self.now party }
    {
        self.parties.has(party)
    }
}

impl Copied for Roster {
    fn copy(&self, alloc: Global) -> Result<Self, NoMemory> {
        let platforms = Items::from_slice(alloc, self.platforms.as_slice())?;
        let parties = self.parties.copy(alloc)?;
        let carriers = self.carriers.copy(alloc)?;
        Ok(Roster {
            platforms,
            parties,
            carriers,
        })
    }
}
