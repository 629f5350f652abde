//! What an upload of a bill's additional documents still needs, and the reference under which it goes on.
#![tactic(auto)]

mod laws;
mod piece;
mod reading;
mod reference;
mod started;
mod writing;

pub use laws::{
    answers_with_one_text_are_one, distinct_documents_are_missing_where_not_stored,
    texts_have_one_answer, written_answers_read_back, written_references_read_back,
};
pub use piece::{fits, missing};
pub use reading::started_read;
pub use reference::{reference_from, reference_of, reference_text};
pub use started::{Started, StartedFault};
pub use writing::{reference_member, started_write};
