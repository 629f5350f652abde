//! Transport documents: the five members that decide, the canonical text, and the name of the bill.
#![tactic(auto)]

mod document;
mod fault;
mod laws;
mod members;

pub use document::Document;
pub use fault::{DocumentFault, DocumentField};
pub use laws::{document_texts_read_back, documents_with_one_text_are_one};
