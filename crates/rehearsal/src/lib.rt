//! Rehearsals: a run over three platforms whose events a generator makes, and the line that sums it up.
#![tactic(auto)]

mod draws;
mod events;
mod laws;
mod roster;
mod run;
mod summary;

pub use draws::Draws;
pub use events::next_event;
pub use laws::every_answer_has_its_word;
pub use roster::made_roster;
pub use run::{MOST_BILLS, MOST_STEPS, rehearse};
