//! The world of a script: several platforms, and what each event makes of them.
#![tactic(auto)]

mod fate;
mod journaled;
mod laws;
mod machine;
mod opening;
mod platforms;
mod taking;
mod world;

pub use fate::{Fate, FateEnd, FateList, ShardList};
pub use laws::{grouped_shards_are_the_same, shards_are_at_their_positions};
pub use machine::{Machine, Unread};
pub use opening::WorldFault;
pub use platforms::Platforms;
pub use taking::ShardAnswer;
pub use world::World;
