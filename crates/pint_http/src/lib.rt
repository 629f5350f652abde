//! HTTP sessions of a title platform, the server's side (DCSA PINT 3.0 over HTTP/1.1 and HTTP/1.0).
#![tactic(auto)]

mod known;
mod laws;
mod reply;
mod serve;

pub use http_requests::LinkEnd;
pub use laws::session_is_told_by_any_equal_test_of_parties;
pub use serve::{MOST_REPLIES, serve_link};
