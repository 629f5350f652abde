//! Whether what comes from outside is honest: the premise under which every run is safe, as a test of what was sent.
#![tactic(auto)]

mod honest;
mod sent;

pub use honest::{is_honest, is_honest_body, is_honest_reply};
pub use sent::SentText;
