//! One shard of a platform as the machine that the platform is: a diary, and what each request makes of it.
#![tactic(auto)]

mod answering;
mod commanding;
mod deciding;
mod decision;
mod hearing;
mod preface;
mod replying;
mod shard;
mod shard_desk;
mod showing;
mod starting;
mod transfer;
mod uploading;

pub use commanding::command;
pub use deciding::decide;
pub use decision::{DecidedReply, Decision};
pub use hearing::{finish_reply, start_reply};
pub use replying::reply_now;
pub use shard::Shard;
pub use shard_desk::ShardDesk;
pub use showing::{ask, resend};
pub use starting::start;
pub use uploading::{finish, put};
