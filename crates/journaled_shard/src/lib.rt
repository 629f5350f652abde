//! One shard of a platform on a journal.
#![tactic(auto)]

mod opening;
mod rack;
mod shard;
mod unwritten;
mod written;

pub use rack::Rack;
pub use shard::{JournaledShard, reply_for};
