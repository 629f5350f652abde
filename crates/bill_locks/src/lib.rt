//! Values that threads take one at a time, and what each thread has seen of them.
#![tactic(auto)]

mod busy;
mod closing;
mod fault;
mod grows;
mod job;
mod laws;
mod pass;
mod rule;
mod steps;
mod turns;
mod view;

pub use busy::Busy;
pub use fault::CloseFault;
pub use grows::Grows;
pub use job::{Job, Told};
pub use laws::frames_without_a_number_cost_disk_faults;
pub use pass::Pass;
pub use turns::Turns;
pub use view::{Mark, Opened, View};
