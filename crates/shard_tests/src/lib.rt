//! Tests of one platform: `transfer_core`, `journaled_shard` with `sample_bills`, and `platform_office`. There is
//! nothing here but tests.
#![tactic(auto)]

#[cfg(test)]
mod tests;
