//! Families of diaries: the finished diaries of all platforms together, and why a closed family is safe.
#![tactic(auto)]

mod family;
mod index;
mod lacking;
mod laws;
mod lookups;
mod shared;
mod surveying;
mod texts;
mod verdict;

pub use family::{DiaryList, Family, Member};
pub use laws::{
    closed_family_is_safe, closed_family_lacks_nothing, earlier_parted_entry_was_regained,
    ended_bill_stays, ended_bill_stays_in_later_families, grounded_chain_continues_the_place,
    known_chain_stays_a_prefix, line_of_a_safe_bill_is_known_at_its_end,
    longest_accepted_chain_is_the_line, nobody_acts_on_an_ended_bill,
    parted_chain_was_accepted_before,
};
pub use shared::first_shared;
pub use surveying::survey;
pub use texts::{NamedText, Text, texts_in};
pub use verdict::{Lack, Verdict};
