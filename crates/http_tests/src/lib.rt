//! Tests of HTTP over links in memory: heads, requests and whole sessions of a server, and a client's exchanges.
//! There is nothing here but tests.
#![tactic(auto)]

#[cfg(test)]
mod tests;
