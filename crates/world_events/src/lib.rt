//! What each event of a script comes to before any platform is asked, what a request sends, and the line that answers.
#![tactic(auto)]

mod happening;
mod laws;
mod numbers;
mod parcels;
mod saying;
mod script;
mod signed_bills;

pub use happening::{Asking, Happening, Sender, comes_to};
pub use laws::parcels_go_the_way_of_their_request;
pub use parcels::{ReplyKind, ReplyPath, parcels_of};
pub use saying::{line_of, send, sign};
pub use script::{event_in, roster_in};
pub use signed_bills::SignedBills;
