//! What the tests share, and the tests of each crate.
mod canonical;
mod compact_texts;
mod comparing;
mod making;
mod members;
mod rings;
mod signed_texts;
mod tags;
