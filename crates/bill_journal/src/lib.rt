//! Journals of frames on a disk, each frame whole or absent after a crash at any moment.
#![tactic(auto)]

mod fault;
mod frame_at;
mod framed;
mod journal;
mod laws;
mod reading;
mod steps;

pub use fault::{AppendFault, OpenFault};
pub use frame_at::{FrameAt, FrameBytes};
pub use framed::Framed;
pub use journal::Journal;
pub use laws::{
    a_loose_content_is_there_or_not, bytes_stand_for_one_list, content_stands_at_its_place,
    damage_has_one_place, no_journal_is_damaged, settled_contents_are_there,
};
