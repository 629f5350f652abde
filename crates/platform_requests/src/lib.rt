//! What one platform is asked and what it replies: requests, messages, replies, and the shard of each request.
#![tactic(auto)]

mod desk;
mod ignore_reason;
mod kept_call;
mod memory_desk;
mod message;
mod outcome;
mod reply;
mod request;
mod shard;
mod suiting;
mod view;

pub use desk::Desk;
pub use ignore_reason::IgnoreReason;
pub use kept_call::KeptCall;
pub use memory_desk::MemoryDesk;
pub use message::{Message, MessageList};
pub use outcome::Outcome;
pub use reply::Reply;
pub use request::Request;
pub use shard::{SHARDS, shard_of, shard_of_bill};
pub use suiting::suits;
pub use view::View;
