//! An office: the sixteen shards of a platform under turns, for threads that share them.
#![tactic(auto)]

mod asking;
mod closing;
mod fault;
mod job;
mod office;
mod opening;
mod post;
mod served;
mod shard;

pub use closing::Closed;
pub use fault::{OfficeFault, TryFault};
pub use office::{Office, Pass};
pub use post::Post;
pub use served::Served;
pub use shard::OfficeShard;
