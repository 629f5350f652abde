//! Envelopes: the manifest of a bill's additional documents, and the body in which a bill is sent.
#![tactic(auto)]

mod body;
mod body_reading;
mod body_writing;
mod fault;
mod laws;
mod manifest;
mod piece;
mod reading;
mod writing;

pub use body::Body;
pub use fault::{BodyFault, BodyField, ManifestFault, ManifestField};
pub use laws::{
    bodies_with_one_text_are_one, documents_nest_in_their_bodies, manifests_with_one_text_are_one,
    pieces_with_one_text_are_one, texts_have_one_body, written_bodies_read_back,
    written_manifests_are_short, written_manifests_read_back, written_pieces_read_back,
};
pub use manifest::Manifest;
pub use piece::{Piece, PieceList};
pub use reading::{decode, decode_piece, required_plain_text};
pub use writing::{encode, encode_piece};
