//! Canonical JSON (RFC 8785) for values whose numbers are whole or decimals: reading, writing, and looking into them.
#![tactic(auto)]

mod descent;
mod fault;
mod faults;
mod field;
mod lawful;
mod laws;
mod name;
mod nesting;
mod number;
mod plain;
mod reading;
mod taking;
mod value;
mod writing;

pub use fault::ReadError;
pub use field::{decimal_of, flag_of, int_of, list_of, member_of, text_of};
pub use lawful::is_lawful;
pub use laws::{canonical_reads, equal_texts_have_equal_values};
pub use nesting::nests_within;
pub use reading::{read, read_if_any};
pub use taking::take_member;
pub use value::{Json, JsonList, Member, MemberList};
pub use writing::{write, write_text};
