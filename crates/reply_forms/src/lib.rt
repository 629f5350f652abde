//! What a platform's reply says beside its status: canonical JSON, a signed text, or nothing.
#![tactic(auto)]

mod body;
mod refusals;
mod views;
mod words;

pub use body::{ReplyBody, reply_body};
pub use words::{field_name, limit_text, place_text, state_text};
