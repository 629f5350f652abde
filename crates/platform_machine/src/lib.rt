//! One platform as a machine: what each request comes to, by the diary of its shard.
#![tactic(auto)]

mod ending;
mod laws;
mod refusal;
mod step;
mod subject;

pub use ending::Ending;
pub use laws::{
    body_has_at_most_one_reading_or_refusal, body_without_objection_is_received,
    command_without_objection_is_done, held_bill_has_its_document,
    judgements_have_answers_that_can_be_sealed, known_chains_have_at_most_64_entries,
    messages_keep_a_diary_legal, parting_bill_is_under_way, refusals_change_nothing,
    steps_keep_a_diary_legal, steps_reply_no_failure, taken_entry_is_answered_as_a_duplicate,
};
pub use refusal::Refusal;
pub use step::Step;
pub use subject::Subject;
