//! What comes of a request, taken apart. By a call each part is dropped in one step.
use ebl_base::ByteList;
use platform_requests::{Message, MessageList, Outcome, Reply, View};

/// The word of the reply.
pub(crate) fn word_of(outcome: Outcome) -> &'static str {
    let word = outcome.reply.as_str();
    drop(outcome);
    word
}

/// Where a request was done, the bill as it stands, and what is sent.
pub(crate) fn done(outcome: Outcome) -> Option<(View, MessageList)> {
    let Outcome { reply, messages } = outcome;
    let view = match &reply {
        Reply::Done(view) => Some(*view),
        _ => None,
    };
    drop(reply);
    match view {
        Some(view) => Some((view, messages)),
        None => {
            drop(messages);
            None
        }
    }
}

/// The body of the start that is sent.
pub(crate) fn body_in(sent: MessageList) -> Option<ByteList> {
    let mut messages = sent.into_vec();
    match messages.pop() {
        Some(Message::Start { body, .. }) => Some(body),
        other => {
            drop(other);
            None
        }
    }
}
