//! What holds of every journal's diary. Each function does nothing: its contract is the law.
ghost use Rattle.std.specs.Prelude.{◌≡◌, ℕ, List};
ghost use Rattle.bill_journal.specs.Places.{contents_of};
ghost use Rattle.party_roster.specs.RosterRecord.{RosterRecord};
ghost use Rattle.signed_envelope.specs.KeyRing.{Keys};
ghost use Rattle.journaled_diary.specs.Reading.{IsDiaryOf, IsRefusedAt};

use bill_diary::Frame;
use bill_journal::FrameAt;
use ebl_base::PlatformCode;
use record_bytes::frame_has_one_spelling;

/// Frames that are a legal diary's are refused nowhere: so they are read again as that diary, unless memory runs out.
pub fn diary_is_refused_nowhere()
    ensures { (roster : RosterRecord) (keys : Keys) (me : PlatformCode) (frames : List FrameAt) (diary : List Frame)
        (place : ℕ) → IsDiaryOf roster keys me (contents_of frames) diary
        → IsRefusedAt roster keys me frames place → ⊥ }
{
    frame_has_one_spelling();
}

/// Contents are one legal diary at most.
pub fn contents_are_one_diary()
    ensures { (roster : RosterRecord) (keys : Keys) (me : PlatformCode) (contents : List (List ℕ)) (a b : List Frame)
        → IsDiaryOf roster keys me contents a → IsDiaryOf roster keys me contents b → a ≡ b }
{
    frame_has_one_spelling();
}
