//! Tests of `record_bytes`: frames of a diary as bytes. There is nothing here but tests.
#![tactic(auto)]

#[cfg(test)]
mod tests;
