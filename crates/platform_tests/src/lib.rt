//! Tests of several platforms: `platform_world` and `honest_texts`. There is nothing here but tests.
#![tactic(auto)]

#[cfg(test)]
mod tests;
