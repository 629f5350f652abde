//! Runs of scripts over several platforms, and why each stays safe.
#![tactic(auto)]

mod laws;

pub use laws::every_run_of_a_script_stays_safe;
