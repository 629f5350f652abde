//! Frames of a diary as bytes: one spelling for each, written and read.
#![tactic(auto)]

mod begun;
mod canonical;
mod evidence;
mod fault;
mod fields;
mod laws;
mod reading;
mod records;
mod texts;
mod writing;

pub use fault::FrameFault;
pub use laws::{
    frame_has_one_spelling, frame_of_a_sound_diary_has_a_spelling, frame_spelling_has_this_length,
};
pub use reading::frame_read;
pub use writing::frame_write;
