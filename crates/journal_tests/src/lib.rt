//! Tests of `disk_model` and `bill_journal`: disks, and journals on them. There is nothing here but tests.
#![tactic(auto)]

#[cfg(test)]
mod tests;
