//! Whether a frame may follow a legal diary.
#![tactic(auto)]

mod envelope;
mod frames;
mod holding;
mod parting;
mod places;
mod receiving;

pub use frames::may_follow;
