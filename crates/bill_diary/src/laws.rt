//! Laws of diaries and places. Each function does nothing: its contract is the law.
ghost use Rattle.std.specs.Prelude.{◌≡◌, ◌↔◌, ℕ, List, [], ◌∷◌, ◌++◌, Some, IsTrue, Contains, false};
ghost use Rattle.canonical_json.specs.Canon.{canon};
ghost use Rattle.envelope_manifest.specs.Body.{BodyRecord, ReadsAs, body_value};
ghost use Rattle.envelope_manifest.specs.declared.piece.Piece.{Piece};
ghost use Rattle.ebl_base.specs.Reference.{reference_of};
ghost use Rattle.ebl_base.specs.declared.checksum.Checksum.{Checksum};
ghost use Rattle.ebl_base.specs.declared.chain.ChainLink.{ChainLink};
ghost use Rattle.ebl_base.specs.declared.platform_code.PlatformCode.{PlatformCode};
ghost use Rattle.ebl_base.specs.declared.transaction.Transaction.{Transaction};
ghost use Rattle.envelope_manifest.specs.declared.manifest.Manifest.{Manifest};
ghost use Rattle.envelope_manifest.specs.Manifest.{are_distinct, checksums_of};
ghost use Rattle.upload_state.specs.Piece.{Fits, missing_of};
ghost use Rattle.bill_chain.specs.Chain.{last_of};
ghost use Rattle.bill_diary.specs.declared.record.Record.{Record};
ghost use Rattle.bill_diary.specs.declared.record.Record.TheVariants.{Begun};
ghost use Rattle.bill_diary.specs.declared.frame.Frame.{Frame};
ghost use Rattle.bill_diary.specs.declared.bill_place.BillPlace.{BillPlace};
ghost use Rattle.bill_diary.specs.declared.bill_place.BillPlace.TheVariants.{Held};
ghost use Rattle.bill_diary.specs.History.{history, newest_first, of_bill};
ghost use Rattle.bill_diary.specs.Known.{known, last_begun};
ghost use Rattle.bill_diary.specs.Place.{place_of, chain_at, may_act_by, is_ended, title_at};
ghost use Rattle.bill_diary.specs.Standing.{Stands};
ghost use Rattle.bill_diary.specs.Growth.{GoesOnIn};
ghost use Rattle.bill_diary.specs.Sound.{IsSound, IsSoundHistory, MayBegin, MayStore, CameWith, MayFollowDiary, last_with_reference};
ghost use Rattle.bill_diary.specs.Receiving.{Declination, last_declined};
ghost use Rattle.bill_diary.specs.Pieces.{are_there, brought, missing_of as missing_by};
ghost use Rattle.bill_diary.specs.Texts.{LinksAreTheirTexts, IsBodyOf, AreCompact};

/// In a sound diary the known chain of a bill only grows by further frames: the names of its entries stay in front.
pub fn known_chain_only_grows()
    ensures { (me : PlatformCode) (diary more : List Frame) (bill : Checksum) → IsSound me (diary ++ more)
        → GoesOnIn (known (history bill diary)) (known (history bill (diary ++ more))) }
{}

/// The front of a sound diary is sound.
pub fn front_of_sound_diary_is_sound()
    ensures { (me : PlatformCode) (diary more : List Frame) → IsSound me (diary ++ more) → IsSound me diary }
{}

/// The history of each bill of a sound diary is sound by itself.
pub fn history_of_sound_diary_is_sound()
    ensures { (me : PlatformCode) (diary : List Frame) (bill : Checksum)
        → IsSound me diary → IsSoundHistory me (history bill diary) }
{}

/// A frame that may follow a sound diary keeps it sound.
pub fn frame_that_may_follow_keeps_a_diary_sound()
    ensures { (me : PlatformCode) (diary : List Frame) (frame : Frame)
        → IsSound me diary → MayFollowDiary me diary frame → IsSound me (diary ++ frame ∷ []) }
{}

/// Each frame of a sound diary may follow those before it.
pub fn each_frame_of_a_sound_diary_may_follow()
    ensures { (me : PlatformCode) (diary more : List Frame) (frame : Frame)
        → IsSound me (diary ++ frame ∷ more) → MayFollowDiary me diary frame }
{}

/// The last Begun with a reference, of any bill, is the last Begun of its bill and of its chain's last entry.
pub fn last_begun_with_a_reference_is_the_last_of_its_entry()
    ensures { (records : List Record) (bill : Checksum) (chain : List ChainLink) (manifest : Manifest) (body : List ℕ)
        → (last : ChainLink) → last_of chain ≡ Some last
        → last_with_reference (reference_of bill last.name) records ≡ Some (Begun bill chain manifest body)
        → last_begun last.name (of_bill bill records) ≡ Some (record { chain = chain; manifest = manifest }) }
{}

/// A Begun is fixed by its body's text: where two may follow some records, of whatever platforms, and their bodies are
/// equal, they are one.
pub fn begun_is_fixed_by_its_body()
    ensures { (me other : PlatformCode) (records h others g : List Record) (bill bill1 : Checksum)
        → (chain chain1 : List ChainLink) (manifest manifest1 : Manifest) (body : List ℕ)
        → MayBegin me records h bill chain manifest body → MayBegin other others g bill1 chain1 manifest1 body
        → Begun bill chain manifest body ≡ Begun bill1 chain1 manifest1 body }
{}

/// The body of a Begun is the canonical text of the written form of what it reads as: it has no further member.
pub fn body_has_no_further_member()
    ensures { (bill : Checksum) (chain : List ChainLink) (manifest : Manifest) (body : List ℕ) (parts : BodyRecord)
        → IsBodyOf bill chain manifest body → ReadsAs body parts → canon (body_value parts) ≡ body }
{}

/// What a sound diary declined for good has evidence in the compact layout.
pub fn declined_evidence_is_compact()
    ensures { (me : PlatformCode) (diary : List Frame) (entry : Checksum) (declined : Declination) → IsSound me diary
        → last_declined entry (newest_first diary) ≡ Some declined → AreCompact declined.evidence }
{}

/// A listed document may be stored where its bytes aren't there, whatever other bytes are there with its checksum.
pub fn documents_are_stored_by_their_bytes()
    ensures { (h : List Record) (entry : Checksum) (bytes : List ℕ) (manifest : Manifest) (piece : Piece)
        → CameWith entry manifest h → Contains manifest.documents piece → Fits piece bytes
        → are_there h bytes ≡ false → MayStore h entry piece.checksum bytes }
{}

/// The documents that a history lacks are those that are missing where the checksums of its bytes are stored.
pub fn missing_documents_are_those_not_stored()
    ensures { (manifest : Manifest) (h : List Record) → IsTrue (are_distinct (checksums_of manifest.documents))
        → missing_by manifest h ≡ missing_of manifest (brought h) }
{}

/// In a sound history the links of the chain that is known, and the entry that is parting, are their texts.
pub fn known_links_are_their_texts()
    ensures { (me : PlatformCode) (h : List Record) → IsSoundHistory me h → LinksAreTheirTexts (chain_at (place_of h)) }
{}

/// A bill stands at exactly one of four places, and each says what the records are.
pub fn place_is_what_stands()
    ensures { (h : List Record) (place : BillPlace) → (place_of h ≡ place) ↔ Stands h place }
{}

/// The possessor may act exactly when the bill is held and its title isn't ended.
pub fn possessor_acts_where_held_and_not_ended()
    ensures { (h : List Record) → IsTrue (may_act_by h)
        ↔ ((chain : List ChainLink) × (made : List Transaction) × (place_of h ≡ Held chain made)
        × (is_ended (title_at (Held chain made)) ≡ false)) }
{}

/// What frames of other bills do to the history of a bill, and so to its place, is nothing.
pub fn frames_of_other_bills_change_nothing()
    ensures { (diary more : List Frame) (bill : Checksum) → history bill more ≡ []
        → history bill (diary ++ more) ≡ history bill diary }
{}
