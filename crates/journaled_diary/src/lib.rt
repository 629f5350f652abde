//! The diary of which a journal is, in its register.
#![tactic(auto)]

mod laws;
mod reading;

pub use laws::{contents_are_one_diary, diary_is_refused_nowhere};
pub use reading::{DiaryFault, read_register};
