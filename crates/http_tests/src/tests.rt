//! What the tests share, and the tests of each crate.
mod asking;
mod exchanges;
mod heads;
mod making;
mod reading;
mod sessions;
