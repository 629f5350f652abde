//! Entries of a chain and their transactions as JSON: the forms, read and written.
#![tactic(auto)]

mod fault;
mod laws;
mod reading;
mod writing;

pub use fault::{EntryFault, EntryField};
pub use laws::{
    decoded_entries_have_the_form, entries_with_one_text_are_one, written_entries_are_lawful,
    written_entries_are_short, written_entries_read_back,
};
pub use reading::{decode, decode_transaction};
pub use writing::{encode, encode_transaction};
