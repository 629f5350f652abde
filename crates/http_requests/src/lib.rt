//! HTTP requests to a title platform, read from a link: how a byte list is cut into requests, and what each asks.
#![tactic(auto)]

mod asked;
mod end;
mod front;
mod reading;

pub use asked::{Asked, asked_of};
pub use end::LinkEnd;
pub use front::Front;
pub use reading::await_next;
