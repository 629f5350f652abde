//! What platforms have sent each other.
ghost use Rattle.std.specs.Prelude.{◌≡◌, ◌↔◌, IfOk, IsTrue, map};
ghost use Rattle.std.specs.List.{list_any};
ghost use Rattle.envelope_manifest.specs.Body.{BodyRecord, ReadsAs};
ghost use Rattle.closed_family.specs.Chains.{IsAmong};
ghost use Rattle.run_safety.specs.Honest.{WasSentInChain};
ghost use Rattle.honest_texts.specs.Sent.{HasInChain, is_reply_with, same_text, sent_view};

use ebl_base::{ByteList, NoMemory, PlatformCode, SignedText};
use envelope_manifest::{Body, BodyFault, texts_have_one_body};
use std::alloc::Global;

/// What a platform has sent.
#[derive(Debug, Drop)]
pub enum SentText {
    /// The body of a start.
    Start { from: PlatformCode, body: ByteList },
    /// The text of a reply to a start, a document or a finish.
    Reply { from: PlatformCode, bytes: ByteList },
}

/// Whether a text stands in the chain of a start that was sent. Each body that was sent is read.
pub(crate) fn was_sent_in_chain(
    alloc: Global,
    sent: &[SentText],
    text: &SignedText,
) -> Result<bool, NoMemory>
    ensures { IfOk result (λ was. IsTrue was ↔ WasSentInChain (map sent_view sent.now) text.now) }
{
    for one in sent {
        if has_in_chain(alloc, one, text)? {
            return Ok(true);
        }
    }
    Ok(false)
}

fn has_in_chain(alloc: Global, one: &SentText, text: &SignedText) -> Result<bool, NoMemory>
    ensures { IfOk result (λ has. IsTrue has ↔ HasInChain (sent_view one.now) text.now) }
{
    match one {
        SentText::Start { body, .. } => has_in_body(alloc, body.as_slice(), text),
        SentText::Reply { .. } => Ok(false),
    }
}

fn has_in_body(alloc: Global, bytes: &[u8], text: &SignedText) -> Result<bool, NoMemory>
    ensures { IfOk result (λ has. IsTrue has
        ↔ ((parts : BodyRecord) × ReadsAs bytes.now parts × IsAmong text.now parts.chain)) }
{
    texts_have_one_body();
    match Body::read(alloc, bytes) {
        Ok(body) => Ok(has_text(body.chain.as_slice(), text)),
        Err(BodyFault::BodyForm(_)) => Ok(false),
        Err(BodyFault::NoMemory) => Err(NoMemory),
    }
}

fn has_text(texts: &[SignedText], text: &SignedText) -> bool
    ensures { result ≡ list_any (same_text text.now) texts.now }
{
    texts
        .iter()
        .any(|other| text.0.as_slice() == other.0.as_slice())
}

/// Whether bytes were sent as a reply.
pub(crate) fn was_sent_as_reply(sent: &[SentText], bytes: &[u8]) -> bool
    ensures { result ≡ list_any (λ one. is_reply_with bytes.now (sent_view one)) sent.now }
{
    sent.iter().any(|one| is_reply_with(one, bytes))
}

fn is_reply_with(one: &SentText, bytes: &[u8]) -> bool
    ensures { result ≡ is_reply_with bytes.now (sent_view one.now) }
{
    match one {
        SentText::Start { .. } => false,
        SentText::Reply { bytes: other, .. } => other.as_slice() == bytes,
    }
}
