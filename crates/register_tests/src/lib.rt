//! Tests of `title_register`: what a register says after each step. There is nothing here but tests.
#![tactic(auto)]

#[cfg(test)]
mod tests;
