//! The client's side of HTTP: one request on a link, and the one reply to it.
#![tactic(auto)]

mod client_fault;
mod incoming;
mod laws;
mod receiving;
mod reply_head;
mod request;
mod sending;

pub use client_fault::ClientFault;
pub use incoming::Incoming;
pub use laws::{bytes_begin_with_one_reply_at_most, reply_stays_when_more_bytes_come};
pub use sending::exchange;
