//! What holds of every frame and its bytes. Each function does nothing: its contract is the law.
ghost use Rattle.std.specs.Prelude.{◌≡◌, ◌≤◌, ℕ, List, ◌∷◌, ◌++◌, length};
ghost use Rattle.ebl_base.specs.declared.platform_code.PlatformCode.{PlatformCode};
ghost use Rattle.bill_diary.specs.declared.frame.Frame.{Frame};
ghost use Rattle.bill_diary.specs.Sound.{IsSound};
ghost use Rattle.record_bytes.specs.Forms.{HasNames};
ghost use Rattle.record_bytes.specs.Grammar.{Spells, frame_bytes, kept};
ghost use Rattle.record_bytes.specs.Lengths.{frame_length};

use bill_diary::{each_frame_of_a_sound_diary_may_follow, front_of_sound_diary_is_sound};
use chain_entry::entries_with_one_text_are_one;
use envelope_manifest::pieces_with_one_text_are_one;

/// Bytes spell one frame at most, and a frame has one spelling.
pub fn frame_has_one_spelling()
    ensures frame { (bytes : List ℕ) (a b : Frame) → Spells bytes a → Spells bytes b → a ≡ b }
    ensures bytes { (a b : List ℕ) (frame : Frame) → Spells a frame → Spells b frame → a ≡ b }
{
    entries_with_one_text_are_one();
    pieces_with_one_text_are_one();
}

/// How many bytes the spelling of a frame has.
pub fn frame_spelling_has_this_length()
    ensures { (bytes : List ℕ) (frame : Frame) → Spells bytes frame → length bytes ≡ frame_length frame }
{}

/// Each frame of a sound diary has a spelling, so that what was written of it is read again. That its names have 32
/// bytes, as all that code holds do, is known of each frame that [`frame_write`](crate::frame_write) wrote.
pub fn frame_of_a_sound_diary_has_a_spelling()
    ensures { (me : PlatformCode) (diary more : List Frame) (frame : Frame) → IsSound me (diary ++ frame ∷ more)
        → HasNames (kept frame) → Spells (frame_bytes frame) frame }
{
    each_frame_of_a_sound_diary_may_follow();
    front_of_sound_diary_is_sound();
}
