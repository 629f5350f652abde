//! Tests of `transfer_chain`, `bill_diary`, `title_register`, `transfer_judge` and `closed_family`: chains and diaries
//! of one bill or a few. There is nothing here but tests.
#![tactic(auto)]

#[cfg(test)]
mod tests;
