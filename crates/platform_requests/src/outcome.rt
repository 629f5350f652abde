//! What comes of a request.

use crate::message::{Message, MessageList};
use crate::reply::Reply;
use ebl_base::{Copied, NoMemory};
use std::alloc::Global;

/// What comes of a request: a reply to whoever asked, and messages to other platforms.
#[derive(Debug, Drop)]
pub struct Outcome {
    pub reply: Reply,
    /// The messages, in the order in which they are to be sent.
    pub messages: MessageList,
}

impl Copied for Outcome {
    fn copy(&self, alloc: Global) -> Result<Self, NoMemory> {
        let reply = self.reply.copy(alloc)?;
        let messages = self.messages.copy(alloc)?;
        Ok(Outcome { reply, messages })
    }
}
