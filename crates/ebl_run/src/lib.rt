//! The top call of the program `ebl`: words, a source, a sink and racks come in, and what it writes is pinned.
#![tactic(auto)]

mod canon;
mod command;
mod drive;
mod ended;
mod opened;
mod racks;
mod reading;
mod rehearse;
mod run;
mod status;

pub use command::Command;
pub use ended::Ended;
pub use run::run_ebl;
pub use status::{Status, exit_of};
