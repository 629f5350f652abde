//! What a holder asks of a platform, as JSON: sign, act on a bill, attach a document.
#![tactic(auto)]

mod command;
mod fault;
mod laws;
mod reading;
mod writing;

pub use command::Command;
pub use fault::{CommandFault, CommandField};
pub use laws::{
    commands_with_one_text_are_one, written_commands_are_lawful, written_commands_read_back,
};
