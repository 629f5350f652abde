//! Tests of the words that all crates share, and of what stands on them alone: the edges, checksums, titles, chains,
//! rosters and documents. There is nothing here but tests.
#![tactic(auto)]

#[cfg(test)]
mod tests;
