//! Laws of runs of scripts. Each function does nothing: its contract is the law.
ghost use Rattle.std.specs.Prelude.{ℕ, List};
ghost use Rattle.ebl_base.specs.Segments.{segments_of};
ghost use Rattle.signed_envelope.specs.KeyRing.{Keys};
ghost use Rattle.platform_world.specs.Run.{IsRunOf, Run};
ghost use Rattle.world_safety.specs.Safety.{HasEnoughRings, StaysSafe};

use closed_family::line_of_a_safe_bill_is_known_at_its_end;
use party_roster::{platforms_are_apart, read_rosters_are_well_formed};
use run_safety::{
    ended_bill_stays_ended_in_a_run, every_run_is_steady, every_run_stays_safe,
    no_chain_is_disputed_in_a_run,
};

/// Every run of a script stays safe, whatever its commands are, whatever is delivered, repeated or left out, and
/// whatever its foreign lines bring that is honest. After each event each diary is legal, and the diaries of all
/// platforms are a sound and closed family; each bill is safe, its line says that nothing forks, whoever may act is
/// where it ends, and it names a title, whose possessor is there. No event is answered DISE, and whatever was declined
/// for good was declined for its party. A bill whose surrender was accepted stays ended after every later event, and
/// nobody may act on it.
pub fn every_run_of_a_script_stays_safe()
    ensures { (script : List ℕ) (rings : List Keys) (run : Run) → HasEnoughRings (segments_of 10 script) rings
        → IsRunOf script rings run → StaysSafe run }
{
    platforms_are_apart();
    read_rosters_are_well_formed();
    every_run_is_steady();
    every_run_stays_safe();
    no_chain_is_disputed_in_a_run();
    ended_bill_stays_ended_in_a_run();
    line_of_a_safe_bill_is_known_at_its_end();
}
