//! Bills of one carrier by their numbers, and what parties ask about them: for tests and trials.
#![tactic(auto)]

mod bills;
mod commands;
mod parties;

pub use bills::{bill, document};
pub use commands::{acting, attaching, signing};
pub use parties::{ROSTER, roster};
