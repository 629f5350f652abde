//! What holds of diaries and the room that they have. Each function does nothing: its contract is the law.
ghost use Rattle.std.specs.Prelude.{◌≡◌, ◌<◌, ◌≤◌, [], ◌∷◌, ◌++◌, true, List, count_by, length};
ghost use Rattle.ebl_base.specs.declared.checksum.Checksum.{Checksum};
ghost use Rattle.ebl_base.specs.declared.platform_code.PlatformCode.{PlatformCode};
ghost use Rattle.signed_envelope.specs.KeyRing.{Keys};
ghost use Rattle.party_roster.specs.RosterRecord.{RosterRecord};
ghost use Rattle.bill_diary.specs.declared.frame.Frame.{Frame};
ghost use Rattle.bill_diary.specs.History.{history, newest_first};
ghost use Rattle.bill_diary.specs.Sound.{IsParting, IsSound, is_parted};
ghost use Rattle.transfer_judge.specs.Legal.{FollowsDiaryLegally, IsLegal};
ghost use Rattle.journal_room.specs.Room.{Fits, HasRoom, is_settling};
ghost use Rattle.journal_room.specs.Settlements.{is_settlement};

/// A front of a diary with room has room.
pub fn front_of_diary_with_room_has_room()
    ensures { (diary more : List Frame) → HasRoom (diary ++ more) → HasRoom diary }
{}

/// A diary without frames has room, and a frame that fits behind one with room keeps it.
pub fn frame_that_fits_keeps_room()
    ensures none { HasRoom [] }
    ensures more { (diary : List Frame) (frame : Frame) → HasRoom diary → Fits diary frame
        → HasRoom (diary ++ frame ∷ []) }
{}

/// A diary with room has fewer than 2,796,203 frames: each takes six bytes or more of a journal, which has 16,777,216
/// at most.
pub fn diary_with_room_has_few_frames()
    ensures { (diary : List Frame) → HasRoom diary → length diary < 2796203 }
{}

/// In a sound diary each Settled and each Regained has a Parted of its own; where a bill is parting, one Parted more is
/// left.
pub fn each_settlement_has_a_parting()
    ensures sound { (me : PlatformCode) (diary : List Frame) → IsSound me diary
        → count_by is_settlement (newest_first diary) ≤ count_by is_parted (newest_first diary) }
    ensures parting { (me : PlatformCode) (diary : List Frame) (bill entry : Checksum) → IsSound me diary
        → IsParting (history bill diary) entry
        → count_by is_settlement (newest_first diary) < count_by is_parted (newest_first diary) }
{}

/// A Settled or a Regained that may follow a legal diary with room fits behind it: each settles a Parted of its own,
/// which takes seven times as many bytes or more, and all that settles nothing has seven eighths of the whole room.
pub fn settlement_always_fits()
    ensures { (roster : RosterRecord) (keys : Keys) (me : PlatformCode) (diary : List Frame) (frame : Frame)
        → IsLegal roster keys me diary → HasRoom diary → FollowsDiaryLegally roster keys me diary frame
        → is_settling frame ≡ true → Fits diary frame }
{}
