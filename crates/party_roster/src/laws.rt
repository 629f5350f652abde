//! What holds of every roster. The functions do nothing: their contracts are the laws.
ghost use Rattle.std.specs.Prelude.{◌≡◌, ℕ, true, List, Some, Ok, Err, codes};
ghost use Rattle.canonical_json.specs.Value.{Value, Values};
ghost use Rattle.canonical_json.specs.Canon.{canon};
ghost use Rattle.ebl_base.specs.PlatformCode.{code_eq};
ghost use Rattle.ebl_base.specs.Party.{party_eq};
ghost use Rattle.ebl_base.specs.declared.limits.TheConstants.{MAX_ROSTER_CARRIERS, MAX_ROSTER_PARTIES, MAX_ROSTER_PLATFORMS};
ghost use Rattle.ebl_base.specs.declared.platform_code.PlatformCode.{PlatformCode};
ghost use Rattle.ebl_base.specs.declared.party.Party.{Party};
ghost use Rattle.ebl_base.specs.declared.provider.Provider.{Provider};
ghost use Rattle.ebl_base.specs.declared.carrier_code.CarrierCode.{CarrierCode};
ghost use Rattle.json_forms.specs.Reading.{each, platform_in, required_items};
ghost use Rattle.party_roster.specs.Distinct.{IsFirstWrong, are_distinct};
ghost use Rattle.party_roster.specs.RosterForm.{IsRoster};
ghost use Rattle.party_roster.specs.RosterRecord.{RosterRecord, carrier, has_platform, knows, same_carrier};
ghost use Rattle.party_roster.specs.Reading.{listed_carrier, listed_party, parties_of, platforms_of, roster_of};
ghost use Rattle.party_roster.specs.Writing.{roster_value};
ghost use Rattle.party_roster.specs.declared.fault.RosterPlace.TheVariants.{CarrierAt, PartyAt, Platform};

use canonical_json::equal_texts_have_equal_values;

/// What some value reads as is well-formed.
pub fn read_rosters_are_well_formed()
    ensures { (v : Value) (roster : RosterRecord) → roster_of v ≡ Ok roster → IsRoster roster }
{}

/// A well-formed roster is read as it is written, which is without further members.
pub fn written_rosters_read_back()
    ensures { (roster : RosterRecord) → IsRoster roster → roster_of (roster_value roster) ≡ Ok roster }
{}

/// Different well-formed rosters have different canonical texts (RFC 8785).
pub fn rosters_with_one_text_are_one()
    ensures { (a b : RosterRecord) → IsRoster a → IsRoster b
        → canon (roster_value a) ≡ canon (roster_value b) → a ≡ b }
{
    equal_texts_have_equal_values();
}

/// The place that a fault names in a list is the least that is wrong: all items before it are well-formed and differ,
/// and the item there is malformed, or not listed where it has to be, or repeats an earlier one.
pub fn faults_name_the_first_wrong_place()
    ensures platforms { (v : Value) (values : Values) (i : ℕ)
        → required_items (codes "platforms") 1 MAX_ROSTER_PLATFORMS v ≡ Some values
        → roster_of v ≡ Err (Platform i) → IsFirstWrong code_eq (each platform_in values) i }
    ensures parties { (v : Value) (platforms : List PlatformCode) (values : Values) (i : ℕ)
        → platforms_of v ≡ Ok platforms → required_items (codes "parties") 1 MAX_ROSTER_PARTIES v ≡ Some values
        → roster_of v ≡ Err (PartyAt i) → IsFirstWrong party_eq (each (listed_party platforms) values) i }
    ensures carriers { (v : Value) (platforms : List PlatformCode) (parties : List Party)
        (values : Values) (i : ℕ) → platforms_of v ≡ Ok platforms → parties_of platforms v ≡ Ok parties
        → required_items (codes "carriers") 1 MAX_ROSTER_CARRIERS v ≡ Some values → roster_of v ≡ Err (CarrierAt i)
        → IsFirstWrong same_carrier (each (listed_carrier parties) values) i }
{}

/// The platforms of a well-formed roster differ from one another.
pub fn platforms_are_apart()
    ensures { (roster : RosterRecord) → IsRoster roster → are_distinct code_eq roster.platforms ≡ true }
{}

/// In a well-formed roster a carrier is a listed party, and a listed party is on a listed platform.
pub fn carriers_are_on_listed_platforms()
    ensures carrier { (roster : RosterRecord) (provider : Provider) (code : CarrierCode) (party : Party)
        → IsRoster roster → carrier roster provider code ≡ Some party → knows roster party ≡ true }
    ensures party { (roster : RosterRecord) (party : Party)
        → IsRoster roster → knows roster party ≡ true → has_platform roster party.platform ≡ true }
{}
