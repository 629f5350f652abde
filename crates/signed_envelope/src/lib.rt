//! Signed texts in the compact layout (RFC 7515), and the ring of keys that signs and verifies them.
#![tactic(auto)]

mod alg;
mod compact;
mod composing;
mod fault;
mod header;
mod key_ring;
mod laws;
mod part;
mod verifying;

pub use alg::Alg;
pub use compact::{Parts, is_compact, split};
pub use composing::compose;
pub use fault::{BadSigned, ComposeFault, SplitFault};
pub use key_ring::KeyRing;
pub use laws::{
    composed_text_is_signed, composed_texts_are_short, refused_text_is_not_signed,
    signed_text_has_one_reading,
};
pub use verifying::{Verified, verify_any, verify_text};
