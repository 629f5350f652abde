//! Laws of legal diaries and of judgements. Each function does nothing: its contract is the law.
ghost use Rattle.std.specs.Prelude.{◌≡◌, ◌≤◌, ℕ, List, [], ◌∷◌, ◌++◌, Some, length};
ghost use Rattle.ebl_base.specs.declared.limits.TheConstants.{MAX_DOCUMENTS};
ghost use Rattle.signed_envelope.specs.KeyRing.{Keys};
ghost use Rattle.party_roster.specs.RosterRecord.{RosterRecord};
ghost use Rattle.bill_diary.specs.declared.record.Record.TheVariants.{Signed, Begun};
ghost use Rattle.bill_diary.specs.History.{IsRecordOf, history, newest_first};
ghost use Rattle.bill_diary.specs.Known.{known};
ghost use Rattle.bill_diary.specs.Sound.{IsSound, MayFollowDiary};
ghost use Rattle.bill_diary.specs.Texts.{LinksAreTheirTexts};
ghost use Rattle.transfer_chain.specs.Checked.{texts_of};
ghost use Rattle.transfer_chain.specs.GoodChain.{AreLinks};
ghost use Rattle.transfer_judge.specs.Judgement.{judgement_of};
ghost use Rattle.transfer_judge.specs.Legal.{FollowsDiaryLegally, IsLegal};
ghost use Rattle.transfer_judge.specs.Sealing.{CanBeSealed};

use bill_diary::{Frame, Record};
use ebl_base::{ChainLink, Checksum, PlatformCode, Transaction};
use envelope_manifest::Manifest;
use transport_document::documents_with_one_text_are_one;

/// Every legal diary is sound, whatever its roster and its keys.
pub fn legal_diary_is_sound()
    ensures { (roster : RosterRecord) (keys : Keys) (me : PlatformCode) (diary : List Frame)
        → IsLegal roster keys me diary → IsSound me diary }
{}

/// So is every frame that may follow a legal diary.
pub fn frame_that_follows_legally_follows_soundly()
    ensures { (roster : RosterRecord) (keys : Keys) (me : PlatformCode) (diary : List Frame) (frame : Frame)
        → FollowsDiaryLegally roster keys me diary frame → MayFollowDiary me diary frame }
{}

/// The known chain of a bill in a legal diary has the links of its own texts, under the diary's keys: so
/// `transfer_chain::check_from` may know it.
pub fn known_chain_of_a_legal_diary_has_its_links()
    ensures { (roster : RosterRecord) (keys : Keys) (me : PlatformCode) (diary : List Frame) (bill : Checksum)
        (chain : List ChainLink) → IsLegal roster keys me diary → known (history bill diary) ≡ Some chain
        → AreLinks keys (texts_of chain) chain }
{}

/// The front of a legal diary is legal.
pub fn front_of_legal_diary_is_legal()
    ensures { (roster : RosterRecord) (keys : Keys) (me : PlatformCode) (diary more : List Frame)
        → IsLegal roster keys me (diary ++ more) → IsLegal roster keys me diary }
{}

/// A frame that may follow a legal diary keeps it legal.
pub fn frame_that_may_follow_keeps_a_diary_legal()
    ensures { (roster : RosterRecord) (keys : Keys) (me : PlatformCode) (diary : List Frame) (frame : Frame)
        → IsLegal roster keys me diary → FollowsDiaryLegally roster keys me diary frame
        → IsLegal roster keys me (diary ++ frame ∷ []) }
{}

/// Each frame of a legal diary may follow those before it.
pub fn each_frame_of_a_legal_diary_may_follow()
    ensures { (roster : RosterRecord) (keys : Keys) (me : PlatformCode) (diary more : List Frame) (frame : Frame)
        → IsLegal roster keys me (diary ++ frame ∷ more) → FollowsDiaryLegally roster keys me diary frame }
{}

/// Diaries that are legal under one roster sign no document on two platforms, whatever their keys.
pub fn legal_diaries_sign_no_document_on_two_platforms()
    ensures { (roster : RosterRecord) (keys others : Keys) (me other : PlatformCode)
        → (diary of_other : List Frame) (bill bill1 : Checksum) (document : List ℕ) (t u : Transaction)
        → IsLegal roster keys me diary → IsLegal roster others other of_other
        → IsRecordOf diary (Signed bill document t) → IsRecordOf of_other (Signed bill1 document u)
        → me ≡ other }
{
    documents_with_one_text_are_one();
}

/// A Begun changes no judgement.
pub fn begun_changes_no_judgement()
    ensures { (roster : RosterRecord) (me : PlatformCode) (bill : Checksum) (records : List Record)
        → (chain : List ChainLink) (manifest : Manifest)
        → (b : Checksum) (c : List ChainLink) (m : Manifest) (body : List ℕ)
        → judgement_of roster me bill (Begun b c m body ∷ records) chain manifest
        ≡ judgement_of roster me bill records chain manifest }
{}

/// What a sound diary judges can be sealed: the evidence is compact, and at most 16 documents are missing, as at most
/// 16 are listed.
pub fn what_is_judged_can_be_sealed()
    ensures { (roster : RosterRecord) (me : PlatformCode) (bill : Checksum) (diary : List Frame)
        → (chain : List ChainLink) (manifest : Manifest)
        → IsSound me diary → LinksAreTheirTexts chain → length manifest.documents ≤ MAX_DOCUMENTS
        → CanBeSealed (judgement_of roster me bill (newest_first diary) chain manifest) }
{}
