//! The manifest that goes with a chain, and the reason with which a chain's refusal is answered.
#![tactic(auto)]

mod laws;
mod reading;

pub use laws::{refused_manifest_has_one_reason, refused_manifest_is_none};
pub use reading::{EndFault, read_manifest, reason_for};
