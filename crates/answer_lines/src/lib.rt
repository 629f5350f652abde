//! The lines that answer the events of a script, and what is sent between its platforms.
#![tactic(auto)]

mod answer;
mod lines;
mod parcel;
mod row;
mod views;

pub use answer::Answer;
pub use lines::answer_line;
pub use parcel::{Content, Parcel};
pub use row::Row;
