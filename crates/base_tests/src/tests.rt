//! What the tests share, and the tests of each crate.
mod chains;
mod checksums;
mod comparing;
mod documents;
mod edges;
mod making;
mod nouns;
mod rosters;
mod titles;
