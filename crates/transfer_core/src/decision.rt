//! What a request comes to, before anything is written.
ghost use Rattle.std.specs.Prelude.{List, None, Some};
ghost use Rattle.bill_diary.specs.declared.frame.Frame.{Frame};
ghost use Rattle.bill_diary.specs.declared.frame.Frame.TheVariants.{One};
ghost use Rattle.platform_machine.specs.Step.{IsDone, OnlyReplies};
ghost use Rattle.transfer_core.specs.Decision.{step_by};

use bill_diary::{Frame, Record};
use ebl_base::{Checksum, Items};
use platform_requests::{MessageList, Reply};
use std::alloc::Global;

/// What a request comes to, before anything is written. All that is written, replied and sent is made and signed, but
/// for the view of a bill, which is looked up once the frame is written.
#[derive(Debug, Drop)]
pub struct Decision {
    /// The frame that the diary grows by; none where nothing is written.
    pub frame: Option<Frame>,
    pub reply: DecidedReply,
    /// The messages to other platforms, in the order in which they are to be sent.
    pub messages: MessageList,
}

/// What is replied once the frame is written.
#[derive(Debug, Drop)]
pub enum DecidedReply {
    /// This.
    Ready(Reply),
    /// That it is done, with how this bill is then.
    Done(Checksum),
}

/// Nothing is written and nothing is sent.
pub(crate) fn only_reply(alloc: Global, reply: Reply) -> Decision
    ensures { (diary : List Frame) → OnlyReplies reply (step_by diary result) }
{
    Decision {
        frame: None,
        reply: DecidedReply::Ready(reply),
        messages: Items::new(alloc),
    }
}

/// Nothing is written; the reply shows how the bill is.
pub(crate) fn done(bill: Checksum, messages: MessageList) -> Decision
    ensures { (diary : List Frame) → IsDone bill diary None messages (step_by diary result) }
{
    Decision {
        frame: None,
        reply: DecidedReply::Done(bill),
        messages,
    }
}

/// This record is written; the reply shows how the bill is then.
pub(crate) fn done_with(bill: Checksum, written: Record, messages: MessageList) -> Decision
    ensures { (diary : List Frame) → IsDone bill diary (Some (One written)) messages (step_by diary result) }
{
    Decision {
        frame: Some(Frame::One(written)),
        reply: DecidedReply::Done(bill),
        messages,
    }
}
