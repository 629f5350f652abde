//! What a platform writes down of its bills, and where a bill stands by it.
#![tactic(auto)]

mod acting;
mod begun;
mod bill_place;
mod frame;
mod index;
mod known;
mod known_chains;
mod laws;
mod links;
mod parting;
mod record;
mod record_ref;
mod since;
mod titles;
mod walk;

pub use acting::may_act_by;
pub use begun::taken_chain;
pub use bill_place::{BillPlace, place_of};
pub use frame::{Diary, Frame};
pub use index::DiaryIndex;
pub use known::settled_chain;
pub use laws::{
    begun_is_fixed_by_its_body, body_has_no_further_member, declined_evidence_is_compact,
    documents_are_stored_by_their_bytes, each_frame_of_a_sound_diary_may_follow,
    frame_that_may_follow_keeps_a_diary_sound, frames_of_other_bills_change_nothing,
    front_of_sound_diary_is_sound, history_of_sound_diary_is_sound, known_chain_only_grows,
    known_links_are_their_texts, last_begun_with_a_reference_is_the_last_of_its_entry,
    missing_documents_are_those_not_stored, place_is_what_stands,
    possessor_acts_where_held_and_not_ended,
};
pub use record::Record;
pub use record_ref::{BegunRef, Declination, PartedRef, RecordRef};
pub use titles::title_after_chain;
pub use walk::History;
