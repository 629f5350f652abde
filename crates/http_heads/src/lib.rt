//! The head of an HTTP request (RFC 9112) as a title platform reads it: where it ends, its route, and the length of the
//! body behind it, or the status that refuses it.
#![tactic(auto)]

mod fields;
mod head;
mod plan;
mod route;
mod routes;
mod scan;
mod segments;
mod status;

pub use fields::{MAX_BODY, are_all, first_value, has_field, is_length};
pub use head::{MAX_FIELDS, Plans};
pub use plan::Plan;
pub use route::Route;
pub use routes::Endpoint;
pub use scan::{MAX_HEAD, Scan};
pub use status::Status;
