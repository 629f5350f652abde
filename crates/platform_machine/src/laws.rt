//! Laws of the machine. Each function does nothing: its contract is the law.
ghost use Rattle.std.specs.Prelude.{◌≡◌, ◌≤◌, ℕ, List, [], ◌∷◌, ◌++◌, Some, None, true, false};
ghost use Rattle.ebl_base.specs.declared.limits.TheConstants.{MAX_CHAIN_ENTRIES};
ghost use Rattle.canonical_json.specs.Value.{Value};
ghost use Rattle.holder_commands.specs.Command.{CommandRecord};
ghost use Rattle.signed_envelope.specs.KeyRing.{Keys};
ghost use Rattle.party_roster.specs.RosterForm.{IsRoster};
ghost use Rattle.party_roster.specs.RosterRecord.{RosterRecord};
ghost use Rattle.platform_requests.specs.Request.{RequestRecord};
ghost use Rattle.pint_responses.specs.Response.{IsSealable};
ghost use Rattle.bill_chain.specs.Chain.{destination};
ghost use Rattle.bill_diary.specs.declared.frame.Frame.TheVariants.{One};
ghost use Rattle.bill_diary.specs.declared.bill_place.BillPlace.TheVariants.{Held, Parting};
ghost use Rattle.bill_diary.specs.History.{history, newest_first};
ghost use Rattle.bill_diary.specs.Place.{place_of};
ghost use Rattle.bill_diary.specs.Receiving.{is_taken};
ghost use Rattle.bill_diary.specs.Sound.{IsSound};
ghost use Rattle.transfer_judge.specs.Legal.{IsLegal};
ghost use Rattle.transfer_judge.specs.Plan.{plan_of};
ghost use Rattle.transfer_judge.specs.declared.judgement.Judgement.TheVariants.{Accept, Duplicate};
ghost use Rattle.platform_machine.specs.Preface.{IsRefused, ShownRecord, Shows};
ghost use Rattle.platform_machine.specs.Commanding.{StepsAtCommand};
ghost use Rattle.platform_machine.specs.Complete.{HasNoObjection, IsFulfilled, IsNotRefused, is_failure, is_refusal};
ghost use Rattle.platform_machine.specs.Machine.{MayBeAsked, Steps};
ghost use Rattle.platform_machine.specs.Answer.{subject_of};
ghost use Rattle.platform_machine.specs.Judged.{response_for, taken_with};
ghost use Rattle.platform_machine.specs.Receiving.{BegunRecord, IsLastBegun, StepsAtFinish, StepsAtPut, StepsAtStart, judgement_at_finish, judgement_at_start, news_of};
ghost use Rattle.platform_machine.specs.Hearing.{StepsAtFinishReply, StepsAtStartReply};
ghost use Rattle.platform_machine.specs.Step.{Answers, entries_at, with_frame};
ghost use Rattle.platform_machine.specs.Transfer.{TransferRecord, IsUnderWay, document_in};

use crate::refusal::Refusal;
use crate::step::Step;
use bill_diary::{Frame, Record};
use chain_entry::written_entries_are_lawful;
use ebl_base::{ChainLink, Checksum, Moment, Party, PlatformCode, Reference, Transaction};
use envelope_manifest::{written_bodies_read_back, written_manifests_read_back};
use signed_envelope::composed_text_is_signed;
use transfer_chain::{refused_texts_are_no_good_chain, refused_texts_have_one_refusal};
use transport_document::document_texts_read_back;

/// What a sound diary judges, at a start and at a finish, is answered by a response that can be sealed.
pub fn judgements_have_answers_that_can_be_sealed()
    ensures start { (roster : RosterRecord) (keys : Keys) (me : PlatformCode) (diary : List Frame) (body : List ℕ)
        → (s : ShownRecord) → IsSound me diary → Shows roster keys body s
        → IsSealable (response_for (subject_of s.manifest) (judgement_at_start roster me diary s)) }
    ensures finish { (roster : RosterRecord) (me : PlatformCode) (diary : List Frame) (reference : Reference)
        → (b : BegunRecord) → IsSound me diary → IsLastBegun reference diary b
        → IsSealable (response_for (subject_of b.manifest) (judgement_at_finish roster me diary b)) }
{}

/// The known chain of a bill has at most 64 entries in a sound diary, and still where one record more is written.
pub fn known_chains_have_at_most_64_entries()
    ensures now { (me : PlatformCode) (diary : List Frame) (bill : Checksum) → IsSound me diary
        → entries_at (place_of (history bill diary)) ≤ MAX_CHAIN_ENTRIES }
    ensures then { (me : PlatformCode) (diary : List Frame) (bill : Checksum) (r : Record) → IsSound me diary
        → entries_at (place_of (history bill (diary ++ One r ∷ []))) ≤ MAX_CHAIN_ENTRIES }
{}

/// In a sound diary a bill that is parting has its transfer under way: its last Parted is of the entry, which moves
/// possession to some platform. And its document is there.
pub fn parting_bill_is_under_way()
    ensures transfer { (me : PlatformCode) (diary : List Frame) (bill : Checksum) (known : List ChainLink)
        → (entry : ChainLink) → IsSound me diary → place_of (history bill diary) ≡ Parting known entry
        → (t : TransferRecord) × IsUnderWay bill (history bill diary) t }
    ensures document { (me : PlatformCode) (diary : List Frame) (bill : Checksum) (known : List ChainLink)
        → (entry : ChainLink) → IsSound me diary → place_of (history bill diary) ≡ Parting known entry
        → (v : Value) × (document_in (history bill diary) ≡ Some v) }
{
    document_texts_read_back();
}

/// In a sound diary a bill that is held has its document there.
pub fn held_bill_has_its_document()
    ensures { (me : PlatformCode) (diary : List Frame) (bill : Checksum) (known : List ChainLink)
        → (since : List Transaction) → IsSound me diary → place_of (history bill diary) ≡ Held known since
        → (v : Value) × (document_in (history bill diary) ≡ Some v) }
{
    document_texts_read_back();
}

/// Whatever may be asked, what comes of it keeps a legal diary legal. A command is to be well-formed, by a well-formed
/// party and at a well-formed moment, the document that it signs is to nest at most 126 deep, and one attempt more of
/// its bill must have a number; any other request may be any bytes, at any moment.
pub fn steps_keep_a_diary_legal()
    ensures { (roster : RosterRecord) (keys : Keys) (me : PlatformCode) (diary : List Frame) (now : Moment)
        → (request : RequestRecord) (step : Step) → IsRoster roster → IsLegal roster keys me diary
        → MayBeAsked diary now request → Steps roster keys me diary now request step
        → IsLegal roster keys me (with_frame diary step.frame) }
{
    composed_text_is_signed();
    written_bodies_read_back();
    written_entries_are_lawful();
    written_manifests_read_back();
}

/// No step replies with a failure: the ring of keys, room, disks and memory are no matter of the machine.
pub fn steps_reply_no_failure()
    ensures { (roster : RosterRecord) (keys : Keys) (me : PlatformCode) (diary : List Frame) (now : Moment)
        → (request : RequestRecord) (step : Step) → Steps roster keys me diary now request step
        → is_failure step.reply ≡ false }
{}

/// A refusal changes nothing: where a step replies with one, it writes and sends nothing.
pub fn refusals_change_nothing()
    ensures { (roster : RosterRecord) (keys : Keys) (me : PlatformCode) (diary : List Frame) (now : Moment)
        → (request : RequestRecord) (step : Step) → Steps roster keys me diary now request step
        → is_refusal step.reply ≡ true → (step.frame ≡ None) × (step.messages ≡ []) }
{}

/// A command that no refusal meets is done: the reply shows its bill as it is then.
pub fn command_without_objection_is_done()
    ensures { (roster : RosterRecord) (keys : Keys) (me : PlatformCode) (diary : List Frame) (now : Moment)
        → (party : Party) (command : CommandRecord) (step : Step)
        → IsNotRefused (plan_of roster me (newest_first diary) party command now)
        → StepsAtCommand roster keys me diary now party command step → IsFulfilled diary command step }
{}

/// What the messages of other platforms write keeps a legal diary legal.
pub fn messages_keep_a_diary_legal()
    ensures start { (roster : RosterRecord) (keys : Keys) (me : PlatformCode) (diary : List Frame) (body : List ℕ)
        → (step : Step) → IsLegal roster keys me diary → StepsAtStart roster keys me diary body step
        → IsLegal roster keys me (with_frame diary step.frame) }
    ensures put { (roster : RosterRecord) (keys : Keys) (me : PlatformCode) (diary : List Frame)
        → (reference : Reference) (checksum : Checksum) (bytes : List ℕ) (step : Step)
        → IsLegal roster keys me diary → StepsAtPut keys me diary reference checksum bytes step
        → IsLegal roster keys me (with_frame diary step.frame) }
    ensures finish { (roster : RosterRecord) (keys : Keys) (me : PlatformCode) (diary : List Frame)
        → (reference : Reference) (step : Step) → IsLegal roster keys me diary
        → StepsAtFinish roster keys me diary reference step
        → IsLegal roster keys me (with_frame diary step.frame) }
    ensures start_reply { (roster : RosterRecord) (keys : Keys) (me : PlatformCode) (diary : List Frame)
        → (bill : Checksum) (bytes : List ℕ) (step : Step) → IsLegal roster keys me diary
        → StepsAtStartReply keys diary bill bytes step → IsLegal roster keys me (with_frame diary step.frame) }
    ensures finish_reply { (roster : RosterRecord) (keys : Keys) (me : PlatformCode) (diary : List Frame)
        → (bill : Checksum) (bytes : List ℕ) (step : Step) → IsLegal roster keys me diary
        → StepsAtFinishReply keys diary bill bytes step → IsLegal roster keys me (with_frame diary step.frame) }
{
    written_bodies_read_back();
}

/// A body shows one thing at most, has one refusal at most, and never both: so what a start comes to is fixed, but for
/// the signature.
pub fn body_has_at_most_one_reading_or_refusal()
    ensures shown { (roster : RosterRecord) (keys : Keys) (body : List ℕ) (a b : ShownRecord)
        → Shows roster keys body a → Shows roster keys body b → a ≡ b }
    ensures refused { (roster : RosterRecord) (keys : Keys) (body : List ℕ) (a b : Refusal)
        → IsRefused roster keys body a → IsRefused roster keys body b → a ≡ b }
    ensures never_both { (roster : RosterRecord) (keys : Keys) (body : List ℕ) (s : ShownRecord) (refusal : Refusal)
        → Shows roster keys body s → IsRefused roster keys body refusal → ⊥ }
{
    refused_texts_are_no_good_chain();
    refused_texts_have_one_refusal();
}

/// What was taken here is a duplicate, at a start and at a finish: nothing is written, and DUPE is answered.
pub fn taken_entry_is_answered_as_a_duplicate()
    ensures start { (roster : RosterRecord) (keys : Keys) (me : PlatformCode) (diary : List Frame) (body : List ℕ)
        → (s : ShownRecord) (step : Step) → Shows roster keys body s → destination s.chain ≡ Some me
        → is_taken s.manifest.last (newest_first diary) ≡ true → StepsAtStart roster keys me diary body step
        → Answers keys me None (response_for (subject_of s.manifest) Duplicate) step }
    ensures finish { (roster : RosterRecord) (keys : Keys) (me : PlatformCode) (diary : List Frame)
        → (reference : Reference) (b : BegunRecord) (step : Step) → IsSound me diary
        → IsLastBegun reference diary b → is_taken b.manifest.last (newest_first diary) ≡ true
        → StepsAtFinish roster keys me diary reference step
        → Answers keys me None (response_for (subject_of b.manifest) Duplicate) step }
{
    body_has_at_most_one_reading_or_refusal();
}

/// What nothing speaks against is received, at a start and at a finish: a Taken is written, with the Begun where that
/// is new, and RECE is answered.
pub fn body_without_objection_is_received()
    ensures start { (roster : RosterRecord) (keys : Keys) (me : PlatformCode) (diary : List Frame) (body : List ℕ)
        → (s : ShownRecord) (step : Step) → Shows roster keys body s
        → HasNoObjection roster me diary s.chain s.manifest → StepsAtStart roster keys me diary body step
        → Answers keys me (Some (taken_with (news_of diary s) (subject_of s.manifest)))
        (response_for (subject_of s.manifest) Accept) step }
    ensures finish { (roster : RosterRecord) (keys : Keys) (me : PlatformCode) (diary : List Frame)
        → (reference : Reference) (b : BegunRecord) (step : Step) → IsLastBegun reference diary b
        → HasNoObjection roster me diary b.chain b.manifest → StepsAtFinish roster keys me diary reference step
        → Answers keys me (Some (taken_with None (subject_of b.manifest)))
        (response_for (subject_of b.manifest) Accept) step }
{
    body_has_at_most_one_reading_or_refusal();
}
