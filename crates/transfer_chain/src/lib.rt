//! Chains of signed entries: which are good, where they take a bill, and how two of them meet.
#![tactic(auto)]

mod checking;
mod compare;
mod destination;
mod fault;
mod laws;
mod replay;
mod verify_texts;

pub use checking::{check, check_from};
pub use compare::{Meeting, meet};
pub use destination::dest;
pub use fault::ChainRefusal;
pub use laws::{
    chains_meet_as_their_texts_do, entries_of_good_chain_hand_over, front_of_good_chain_is_good,
    good_chain_goes_on, good_chain_has_its_links, good_chain_is_checked,
    last_name_determines_the_chain, refused_texts_are_no_good_chain,
    refused_texts_have_one_refusal,
};
