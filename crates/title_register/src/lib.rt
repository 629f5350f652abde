//! What a platform knows of its bills at hand, kept beside its diary and equal to it at every moment.
#![tactic(auto)]

mod arrived;
mod bill_state;
mod change;
mod documents;
mod frame_key;
mod frame_numbers;
mod known_chain;
mod lookups;
mod past;
mod place_ref;
mod register;
mod room;
mod standing;
mod title;

pub use lookups::{
    are_there, first_bytes, last_body, last_declined, last_parted_record, last_with_reference,
    signed_text,
};
pub use past::Received;
pub use place_ref::PlaceRef;
pub use register::Register;
pub use room::Room;
