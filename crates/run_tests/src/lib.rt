//! Tests of the top call of the program, `ebl_run`. There is nothing here but tests.
#![tactic(auto)]

#[cfg(test)]
mod tests;
