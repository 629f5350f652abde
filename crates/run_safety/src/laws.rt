//! Laws of runs. Each function does nothing: its contract is the law.
ghost use Rattle.std.specs.Prelude.{◌≡◌, ◌≢◌, ℕ, false, IfSome, List, Some};
ghost use Rattle.ebl_base.specs.declared.code.Code.TheVariants.{DisputedEnvelope};
ghost use Rattle.ebl_base.specs.declared.reason.Reason.TheVariants as reasons;
ghost use Rattle.signed_envelope.specs.KeyRing.{Keys};
ghost use Rattle.party_roster.specs.RosterForm.{IsRoster};
ghost use Rattle.party_roster.specs.RosterRecord.{RosterRecord};
ghost use Rattle.platform_requests.specs.Request.{RequestRecord};
ghost use Rattle.platform_requests.specs.Shard.{shard_of};
ghost use Rattle.platform_requests.specs.declared.reply.Reply.TheVariants.{Answer};
ghost use Rattle.bill_diary.specs.History.{IsRecordOf};
ghost use Rattle.bill_diary.specs.declared.record.Record.TheVariants.{Declined};
ghost use Rattle.bill_diary.specs.Place.{may_act_by, place_of};
ghost use Rattle.transfer_judge.specs.Legal.{IsLegal};
ghost use Rattle.platform_machine.specs.Machine.{Steps};
ghost use Rattle.platform_machine.specs.declared.step.Step.{Step};
ghost use Rattle.closed_family.specs.Family.{HasDistinctNames, IsClosedFamily, IsSafeFamily, IsSignedIn, IsSoundFamily, histories_of};
ghost use Rattle.closed_family.specs.Later.{IsEndedAt};
ghost use Rattle.run_safety.specs.Network.{Network, diary_of};
ghost use Rattle.run_safety.specs.Run.{Asked, LeadsTo, Reaches};
ghost use Rattle.run_safety.specs.Steady.{IsInShard, IsSteady, Rings};

use bill_diary::Frame;
use closed_family::{
    closed_family_is_safe, ended_bill_stays_in_later_families, nobody_acts_on_an_ended_bill,
};
use ebl_base::{Checksum, Code, Evidence, Moment, Party, PlatformCode, Reason, SignedText};
use party_roster::{carriers_are_on_listed_platforms, platforms_are_apart};
use pint_responses::{Response, sealed_response_is_unsealed};
use platform_machine::steps_keep_a_diary_legal;
use transfer_judge::legal_diaries_sign_no_document_on_two_platforms;

/// At every moment of a run, whatever was delivered, repeated or left out, and whatever came from outside: the diaries
/// are legal, whatever they say of one another stands in them, and what was sent has its cause there. The premises are
/// a well-formed roster, honest texts from outside, and distinct names of the texts in the diaries.
pub fn every_run_is_steady()
    ensures { (roster : RosterRecord) (rings : Rings) (n : Network) → IsRoster roster → Reaches roster rings n
        → HasDistinctNames n.family → IsSteady roster rings n }
{
    carriers_are_on_listed_platforms();
    platforms_are_apart();
    sealed_response_is_unsealed();
    steps_keep_a_diary_legal();
    legal_diaries_sign_no_document_on_two_platforms();
}

/// So the diaries of all platforms are a sound and closed family at every moment of a run, and each bill is safe: its
/// accepted chains are prefixes of one line; at the end of the line the bill is held or parting by the whole line, and
/// it is held nowhere else; nobody may act elsewhere; and folding the line, with what its end recorded since, names
/// possessor and title holder.
pub fn every_run_stays_safe()
    ensures sound { (roster : RosterRecord) (rings : Rings) (n : Network) → IsRoster roster → Reaches roster rings n
        → HasDistinctNames n.family → IsSoundFamily n.family }
    ensures closed { (roster : RosterRecord) (rings : Rings) (n : Network) → IsRoster roster → Reaches roster rings n
        → HasDistinctNames n.family → IsClosedFamily n.family }
    ensures safe { (roster : RosterRecord) (rings : Rings) (n : Network) → IsRoster roster → Reaches roster rings n
        → HasDistinctNames n.family → IsSafeFamily n.family }
{
    every_run_is_steady();
    legal_diaries_sign_no_document_on_two_platforms();
    closed_family_is_safe();
}

/// In such a run no chain is ever disputed: no step is answered DISE, and whatever was declined for good was declined
/// for its party.
pub fn no_chain_is_disputed_in_a_run()
    ensures answers { (roster : RosterRecord) (rings : Rings) (n : Network) → IsRoster roster → Reaches roster rings n
        → HasDistinctNames n.family → (asked : Asked roster rings n) (response : Response) (text : SignedText)
        → asked.step.reply ≡ Answer response text → response.code ≢ DisputedEnvelope }
    ensures declined { (roster : RosterRecord) (rings : Rings) (n : Network) → IsRoster roster
        → Reaches roster rings n → HasDistinctNames n.family → (p : PlatformCode) (i : ℕ) (diary : List Frame)
        → (bill entry : Checksum) (code : Code) (reason : Reason) (evidence : Evidence)
        → diary_of n.family p i ≡ Some diary
        → IsRecordOf diary (Declined bill entry code reason evidence) → reason ≡ reasons.Party }
{
    every_run_is_steady();
    carriers_are_on_listed_platforms();
    sealed_response_is_unsealed();
    steps_keep_a_diary_legal();
    legal_diaries_sign_no_document_on_two_platforms();
}

/// A bill whose surrender was accepted stays ended at every later moment of the run, at its carrier's platform, and
/// nobody may act on it anywhere.
pub fn ended_bill_stays_ended_in_a_run()
    ensures ended { (roster : RosterRecord) (rings : Rings) (n later : Network) → IsRoster roster
        → Reaches roster rings n → LeadsTo roster rings n later → HasDistinctNames later.family
        → (bill : Checksum) (p : PlatformCode) (carrier : Party)
        → IsEndedAt (place_of (histories_of bill n.family p)) carrier
        → IsEndedAt (place_of (histories_of bill later.family p)) carrier }
    ensures carrier { (roster : RosterRecord) (rings : Rings) (n : Network) → IsRoster roster
        → Reaches roster rings n → HasDistinctNames n.family → (bill : Checksum) → IsSignedIn n.family bill
        → (p : PlatformCode) (carrier : Party) → IsEndedAt (place_of (histories_of bill n.family p)) carrier
        → carrier.platform ≡ p }
    ensures nobody { (roster : RosterRecord) (rings : Rings) (n : Network) → IsRoster roster
        → Reaches roster rings n → HasDistinctNames n.family → (bill : Checksum) → IsSignedIn n.family bill
        → (p : PlatformCode) (carrier : Party) → IsEndedAt (place_of (histories_of bill n.family p)) carrier
        → (q : PlatformCode) → may_act_by (histories_of bill n.family q) ≡ false }
{
    every_run_stays_safe();
    ended_bill_stays_in_later_families();
    nobody_acts_on_an_ended_bill();
}

/// What a step of a legal diary writes is of bills of the shard to which its request goes.
pub fn steps_write_in_the_shard_of_their_request()
    ensures { (roster : RosterRecord) (keys : Keys) (me : PlatformCode) (i : ℕ) (diary : List Frame) (now : Moment)
        (request : RequestRecord) (step : Step) → IsLegal roster keys me diary
        → Steps roster keys me diary now request step → shard_of request ≡ i → IfSome step.frame (IsInShard i) }
{}
