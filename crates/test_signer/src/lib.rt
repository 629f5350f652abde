//! Rings of keys for tests: HS256 with keys that anybody can derive. They give no security.
#![tactic(auto)]

mod failing_ring;
mod hmac;
mod keyed_ring;
mod keys;
mod tags;

pub use failing_ring::FailingRing;
pub use hmac::hmac_sha256;
pub use keyed_ring::KeyedRing;
