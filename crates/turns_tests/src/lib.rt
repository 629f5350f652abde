//! Tests of `bill_locks`: threads that take turns. There is nothing here but tests.
#![tactic(auto)]

#[cfg(test)]
mod tests;
