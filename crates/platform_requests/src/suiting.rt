//! Whether an outcome may come of a request.
ghost use Rattle.std.specs.Prelude.{◌≡◌, ◌≤◌, length, take, IsTrue};
ghost use Rattle.std.specs.List.{list_all};
ghost use Rattle.platform_requests.specs.Desk.{ArePutsAndFinish, AtMostOne, MayGive, NamesMissing, is_finish, is_put, is_start};
ghost use Rattle.platform_requests.specs.Request.{request_view};

use crate::message::Message;
use crate::outcome::Outcome;
use crate::reply::Reply;
use crate::request::Request;
use ebl_base::MAX_DOCUMENTS;

/// If true, every desk may give this outcome for this request.
pub fn suits(request: &Request, outcome: &Outcome) -> bool
    ensures messages { IsTrue result → MayGive (request_view request.now) outcome.now.messages }
    ensures missing { IsTrue result → NamesMissing outcome.now.reply }
{
    suits_messages(request, outcome.messages.as_slice()) && names_missing(&outcome.reply)
}

fn suits_messages(request: &Request, messages: &[Message]) -> bool
    ensures { IsTrue result → MayGive (request_view request.now) messages.now }
{
    match request {
        Request::StartReply { .. } => are_puts_and_finish(messages),
        Request::FinishReply { .. } => messages.is_empty(),
        Request::Resend { .. } => is_at_most_a_start(messages),
        Request::Command { .. }
        | Request::Start { .. }
        | Request::Put { .. }
        | Request::Finish { .. }
        | Request::Ask { .. } => true,
    }
}

fn names_missing(reply: &Reply) -> bool
    ensures { IsTrue result → NamesMissing reply.now }
{
    match reply {
        Reply::Started { missing, .. } => 1 <= missing.len() && missing.len() <= MAX_DOCUMENTS,
        _ => true,
    }
}

fn is_at_most_a_start(messages: &[Message]) -> bool
    ensures { IsTrue result → AtMostOne is_start messages.now }
{
    match messages {
        [] => true,
        [only] => is_start(only),
        _ => false,
    }
}

fn is_at_most_a_finish(messages: &[Message]) -> bool
    ensures { IsTrue result → AtMostOne is_finish messages.now }
{
    match messages {
        [] => true,
        [only] => is_finish(only),
        _ => false,
    }
}

fn are_puts_and_finish(messages: &[Message]) -> bool
    ensures { IsTrue result → ArePutsAndFinish messages.now }
{
    let puts = puts_in_front(messages);
    puts <= MAX_DOCUMENTS && is_at_most_a_finish(&messages[puts..])
}

// How many Puts are in front.
fn puts_in_front(messages: &[Message]) -> usize
    ensures within { result ≤ length messages.now }
    ensures puts { IsTrue (list_all is_put (take result messages.now)) }
{
    for (place, message) in messages.iter().enumerate() {
        if !is_put(message) {
            return place;
        }
    }
    messages.len()
}

fn is_start(message: &Message) -> bool
    ensures { result ≡ is_start message.now }
{
    matches!(message, Message::Start { .. })
}

fn is_put(message: &Message) -> bool
    ensures { result ≡ is_put message.now }
{
    matches!(message, Message::Put { .. })
}

fn is_finish(message: &Message) -> bool
    ensures { result ≡ is_finish message.now }
{
    matches!(message, Message::Finish { .. })
}
