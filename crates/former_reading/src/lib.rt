//! What was read before decimals is read alike.
#![tactic(auto)]

mod laws;

pub use laws::formerly_read_is_read_alike;
