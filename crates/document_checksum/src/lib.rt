//! The SHA-256 checksum of a text (FIPS 180-4), and the checksum's own text of 64 hexadecimal digits.
#![tactic(auto)]

mod digest;
mod laws;
mod text;

pub use digest::checksum;
pub use laws::texts_stand_for_checksums;
pub use text::{from_text, to_text};
