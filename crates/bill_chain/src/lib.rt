//! Chains of a bill as values: their names, their ends, what they have in common, and the title after them.
#![tactic(auto)]

mod ends;
mod front;
mod laws;
mod title;

pub use ends::{ends_in, has_entry, last_link};
pub use front::{common_front, goes_beyond};
pub use laws::{
    added_link_is_the_last, added_link_is_there, chain_beyond_has_every_entry,
    entry_behind_a_front_is_there,
};
pub use title::{destination, fold_after_chain, fold_more, possessor_after};
