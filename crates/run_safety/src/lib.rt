//! Runs of several platforms, and why each stays safe.
#![tactic(auto)]

mod laws;

pub use laws::{
    ended_bill_stays_ended_in_a_run, every_run_is_steady, every_run_stays_safe,
    no_chain_is_disputed_in_a_run, steps_write_in_the_shard_of_their_request,
};
