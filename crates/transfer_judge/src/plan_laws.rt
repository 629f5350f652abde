//! Laws of plans. Each function does nothing: its contract is the law.
ghost use Rattle.std.specs.Prelude.{◌≡◌, ◌+◌, List, Ok, count_by};
ghost use Rattle.chain_entry.specs.Form.{IsEntry};
ghost use Rattle.envelope_manifest.specs.Manifest.{AreDocuments};
ghost use Rattle.holder_commands.specs.Command.{CommandRecord};
ghost use Rattle.party_roster.specs.RosterForm.{IsRoster};
ghost use Rattle.party_roster.specs.RosterRecord.{RosterRecord};
ghost use Rattle.signed_envelope.specs.KeyRing.{Keys};
ghost use Rattle.bill_diary.specs.declared.frame.Frame.TheVariants.{One};
ghost use Rattle.bill_diary.specs.declared.record.Record.TheVariants.{Parted};
ghost use Rattle.bill_diary.specs.History.{history, newest_first};
ghost use Rattle.bill_diary.specs.Place.{place_of};
ghost use Rattle.bill_diary.specs.Sound.{IsSound, is_parted};
ghost use Rattle.transfer_judge.specs.PlannedTexts.{GoesTo, IsHandedIn, IsLinkOf, IsListed, IsManifestOf};
ghost use Rattle.transfer_judge.specs.Legal.{FollowsDiaryLegally, IsLegal};
ghost use Rattle.transfer_judge.specs.Plan.{HasAttempts, plan_of};
ghost use Rattle.transfer_judge.specs.declared.planned.Planned.TheVariants.{Nothing, Add, Part};

use bill_diary::{Frame, Record};
use ebl_base::{ChainLink, Entry, Moment, Party, PlatformCode, SignedText};
use envelope_manifest::{Manifest, Piece};

/// A record that is planned may follow the diary, whatever the keys.
pub fn planned_record_may_follow()
    ensures { (roster : RosterRecord) (keys : Keys) (me : PlatformCode) (diary : List Frame) (party : Party)
        → (command : CommandRecord) (now : Moment) (r : Record) → IsHandedIn party command now
        → plan_of roster me (newest_first diary) party command now ≡ Ok (Add r)
        → FollowsDiaryLegally roster keys me diary (One r) }
{}

/// An entry that is planned has its form, and so have its documents, which a manifest may list.
pub fn planned_entry_has_its_form()
    ensures { (roster : RosterRecord) (me : PlatformCode) (diary : List Frame) (party : Party)
        → (command : CommandRecord) (now : Moment) (entry : Entry) (documents : List Piece) (to : PlatformCode)
        → IsSound me diary → IsHandedIn party command now → HasAttempts command (newest_first diary)
        → plan_of roster me (newest_first diary) party command now ≡ Ok (Part entry documents to)
        → IsEntry entry × AreDocuments documents }
{}

/// A planned entry, with a text of its own and one of its manifest that the platform signed, may follow a legal diary.
pub fn planned_entry_may_follow()
    ensures { (roster : RosterRecord) (keys : Keys) (me : PlatformCode) (diary : List Frame) (party : Party)
        → (command : CommandRecord) (now : Moment) (entry : Entry) (documents : List Piece) (to : PlatformCode)
        → (link : ChainLink) (manifest : Manifest) (text : SignedText)
        → IsRoster roster → IsLegal roster keys me diary → IsHandedIn party command now
        → HasAttempts command (newest_first diary)
        → plan_of roster me (newest_first diary) party command now ≡ Ok (Part entry documents to)
        → IsLinkOf keys me entry link → IsManifestOf keys me link documents manifest text
        → FollowsDiaryLegally roster keys me diary (One (Parted entry.bill link manifest text)) }
{}

/// The attempt of a planned entry is one more than how often its bill was parted before.
pub fn planned_attempt_is_the_next()
    ensures { (roster : RosterRecord) (me : PlatformCode) (diary : List Frame) (party : Party)
        → (command : CommandRecord) (now : Moment) (entry : Entry) (documents : List Piece) (to : PlatformCode)
        → plan_of roster me (newest_first diary) party command now ≡ Ok (Part entry documents to)
        → entry.attempt ≡ count_by is_parted (history entry.bill diary) + 1 }
{}

/// The platform that is planned is the one to which the known chain goes with the entry.
pub fn planned_platform_is_the_destination()
    ensures { (roster : RosterRecord) (me : PlatformCode) (diary : List Frame) (party : Party)
        → (command : CommandRecord) (now : Moment) (entry : Entry) (documents : List Piece) (to : PlatformCode)
        → (link : ChainLink) → plan_of roster me (newest_first diary) party command now ≡ Ok (Part entry documents to)
        → link.entry ≡ entry → GoesTo (place_of (history entry.bill diary)) link to }
{}

/// Nothing comes of one command alone: an attachment whose bytes are listed for its bill.
pub fn nothing_is_planned_only_for_listed_bytes()
    ensures { (roster : RosterRecord) (me : PlatformCode) (diary : List Frame) (party : Party)
        → (command : CommandRecord) (now : Moment)
        → plan_of roster me (newest_first diary) party command now ≡ Ok Nothing
        → IsListed (newest_first diary) command }
{}
