//! One step of a platform.

use bill_diary::Frame;
use platform_requests::{MessageList, Reply};

/// What one request comes to at one shard: what is written down, what is replied, and what is sent.
#[derive(Debug, Drop)]
pub struct Step {
    /// The frame that the diary grows by; none where nothing is written.
    pub frame: Option<Frame>,
    pub reply: Reply,
    /// The messages to other platforms, in the order in which they are to be sent.
    pub messages: MessageList,
}
