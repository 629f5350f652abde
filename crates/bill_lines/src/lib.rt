//! The line of a bill, by the diaries of all platforms.
#![tactic(auto)]

mod accepted;
mod diaries;
mod ends;
mod forks;
mod lines;
mod standing;

pub use diaries::{DiaryRef, PlatformDiary};
pub use lines::{bill_line, bill_standing};
pub use standing::Standing;
