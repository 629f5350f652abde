//! The parties and platforms.
ghost use Rattle.std.specs.Prelude.{IfSome};
ghost use Rattle.party_roster.specs.RosterForm.{IsRoster};
ghost use Rattle.sample_bills.specs.Parties.{IsRosterText};
ghost use Rattle.sample_bills.specs.declared.parties.TheConstants.{ROSTER};

use canonical_json::read;
use party_roster::Roster;
use std::alloc::Global;

/// The text of the roster.
pub const ROSTER: &[u8] = br#"{
    "carriers":[{"code":"OCNL","party":"ALPH/CARRIER","provider":"NMFTA"}],
    "parties":["ALPH/BANK","ALPH/CARRIER","ALPH/EXPORT","BETA/IMPORT"],
    "platforms":["ALPH","BETA"]
}"#;

/// The roster of the platforms ALPH and BETA, with the carrier ALPH/CARRIER, whose code is OCNL of the NMFTA, and the
/// parties ALPH/BANK, ALPH/EXPORT and BETA/IMPORT. None comes if memory runs out.
pub fn roster(alloc: Global) -> Option<Roster>
    ensures of_text { IfSome result (λ roster. IsRosterText ROSTER.now roster) }
    ensures form { IfSome result (λ roster. IsRoster roster) }
{
    Roster::read(alloc, &read(alloc, ROSTER).ok()?).ok()
}
