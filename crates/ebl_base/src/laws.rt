//! Laws of the forms of small values. Each function does nothing: its contract is the law.
ghost use Rattle.ebl_base.specs.Name35.{IsName35};
ghost use Rattle.ebl_base.specs.Party.{IsParty};
ghost use Rattle.ebl_base.specs.PlatformCode.{IsCode};

use crate::party::Party;

/// A party that has its form has a platform and a name of their forms.
pub fn party_has_a_code_and_a_name()
    ensures platform { (party : Party) → IsParty party → IsCode party.platform }
    ensures name { (party : Party) → IsParty party → IsName35 party.code }
{}

/// A party whose platform and name have their forms has its form.
pub fn code_and_name_make_a_party()
    ensures { (party : Party) → IsCode party.platform → IsName35 party.code → IsParty party }
{}
