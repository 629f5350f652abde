//! Tests of forms: what platforms, holders and scripts write and read as JSON, and the requests and replies of which it
//! tells. There is nothing here but tests.
#![tactic(auto)]

#[cfg(test)]
mod tests;
