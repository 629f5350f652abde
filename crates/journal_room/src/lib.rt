//! Which frames have room on a journal behind a diary.
#![tactic(auto)]

mod laws;
mod room;

pub use laws::{
    diary_with_room_has_few_frames, each_settlement_has_a_parting, frame_that_fits_keeps_room,
    front_of_diary_with_room_has_room, settlement_always_fits,
};
pub use room::{is_settling, room_of};
