//! The signed answers of a platform to an envelope or a document that another platform sends.
#![tactic(auto)]

mod fault;
mod laws;
mod reading;
mod response;
mod sealing;
mod unsealing;
mod writing;

pub use fault::{ResponseField, SealFault, UnsealFault};
pub use laws::{
    refused_text_is_no_response, sealed_response_is_unsealed, sealed_text_is_one_response,
    written_response_is_read,
};
pub use response::Response;
pub use sealing::{is_sealable, seal};
pub use unsealing::unseal;
