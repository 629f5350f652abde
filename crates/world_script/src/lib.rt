//! Scripts over several platforms: what each line asks, as JSON.
#![tactic(auto)]

mod deed;
mod event;
mod fault;
mod foreign;
mod laws;
mod reading;
mod writing;

pub use deed::{BillName, Deed};
pub use event::Event;
pub use fault::EventFault;
pub use foreign::Foreign;
pub use laws::{events_with_one_text_are_one, written_events_are_lawful, written_events_read_back};
