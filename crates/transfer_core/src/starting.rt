//! What the start of a transfer comes to, at the platform to which it is sent.
ghost use Rattle.std.specs.Prelude.{◌≡◌, ◌≤◌, Err, IfOk, List, None, Some, if◌then◌else◌};
ghost use Rattle.ebl_base.specs.Faults.{Rose};
ghost use Rattle.bill_diary.specs.Sound.{IsSound};
ghost use Rattle.bill_diary.specs.declared.frame.Frame.{Frame};
ghost use Rattle.bill_diary.specs.declared.record.Record.TheVariants.{Begun};
ghost use Rattle.envelope_manifest.specs.Body.{body_view};
ghost use Rattle.pint_responses.specs.Response.{IsSealable};
ghost use Rattle.pint_responses.specs.declared.fault.SealFault.TheVariants.{Sign};
ghost use Rattle.platform_machine.specs.Answer.{refusal_response, subject_of};
ghost use Rattle.platform_machine.specs.Judged.{response_for};
ghost use Rattle.platform_machine.specs.Receiving.{IsJudged, SaysAtStart, StepsAtStart, body_text, frame_at_start, has_body, is_again, judgement_at_start, news_of};
ghost use Rattle.platform_machine.specs.Step.{Answers};
ghost use Rattle.transfer_core.specs.Decision.{step_by};
ghost use Rattle.transfer_core.specs.Shown.{HasOwnDocument, shown_view};

use crate::answering::{
    alone, answer, answer_with, frame_without, reference_for, refusal_response, response_for,
    subject_of, taken_with,
};
use crate::decision::{DecidedReply, Decision};
use crate::preface::{Shown, show};
use bill_diary::{Frame, Record};
use ebl_base::{ByteList, Items, NoMemory, PlatformCode, Reference};
use party_roster::Roster;
use pint_responses::SealFault;
use platform_machine::{Refusal, Subject};
use platform_requests::Reply;
use signed_envelope::KeyRing;
use std::alloc::Global;
use title_register::{Register, last_with_reference};
use transfer_judge::{Judgement, judge};

/// What the start of a transfer with this body comes to. Nothing is written yet.
///
/// The body is read, hashed and checked once, and its document written once: where a Begun may be new, the canonical
/// text of the body is put together around the document's.
pub fn start<G: KeyRing>(
    alloc: Global,
    roster: &Roster,
    ring: &mut G,
    me: PlatformCode,
    register: &Register,
    body: &[u8],
) -> Result<Decision, SealFault>
    requires { IsSound me register.now.diary }
    ensures ok { IfOk result (λ d. StepsAtStart roster.now (G.keys ring.old) me register.now.diary body.now
        (step_by register.now.diary d)) }
    ensures sign { result ≡ Err Sign → Rose (G.faults ring.old) (G.faults ring.new) }
    ensures later { G.faults ring.old ≤ G.faults ring.new }
    ensures same { G.keys ring.new ≡ G.keys ring.old }
{
    match show(alloc, roster, &*ring, body)? {
        Ok(shown) => start_shown(alloc, roster, ring, me, register, shown),
        Err(refusal) => turn_away(alloc, ring, me, refusal),
    }
}

// A body that is refused is answered so.
fn turn_away<G: KeyRing>(
    alloc: Global,
    ring: &mut G,
    me: PlatformCode,
    refusal: Refusal,
) -> Result<Decision, SealFault>
    ensures ok { IfOk result (λ d. (diary : List Frame)
        → Answers (G.keys ring.old) me None (refusal_response refusal) (step_by diary d)) }
    ensures sign { result ≡ Err Sign → Rose (G.faults ring.old) (G.faults ring.new) }
    ensures later { G.faults ring.old ≤ G.faults ring.new }
    ensures same { G.keys ring.new ≡ G.keys ring.old }
{
    answer_with(alloc, ring, me, None, refusal_response(alloc, refusal))
}

// A body that shows something is judged.
fn start_shown<G: KeyRing>(
    alloc: Global,
    roster: &Roster,
    ring: &mut G,
    me: PlatformCode,
    register: &Register,
    shown: Shown,
) -> Result<Decision, SealFault>
    requires own { HasOwnDocument shown }
    requires sealable { IsSealable (response_for (subject_of shown.manifest)
        (judgement_at_start roster.now me register.now.diary (shown_view shown))) }
    ensures ok { IfOk result (λ d. IsJudged roster.now (G.keys ring.old) me register.now.diary (shown_view shown)
        (step_by register.now.diary d)) }
    ensures sign { result ≡ Err Sign → Rose (G.faults ring.old) (G.faults ring.new) }
    ensures later { G.faults ring.old ≤ G.faults ring.new }
    ensures same { G.keys ring.new ≡ G.keys ring.old }
{
    let subject = subject_of(&shown.manifest);
    let judgement = match judge(alloc, register, roster, me, &shown.chain, &shown.manifest) {
        Ok(judgement) => judgement,
        Err(fault) => {
            // A call, as in `answer_with`.
            drop(shown);
            return Err(fault.into());
        }
    };
    let frame = frame_at_start(alloc, register, shown, &judgement)?;
    match say_at_start(alloc, ring, me, subject, judgement) {
        Ok(reply) => Ok(Decision {
            frame,
            reply: DecidedReply::Ready(reply),
            messages: Items::new(alloc),
        }),
        Err(fault) => {
            // A call, as in `answer_with`.
            drop(frame);
            Err(fault)
        }
    }
}

fn frame_at_start(
    alloc: Global,
    register: &Register,
    shown: Shown,
    judgement: &Judgement,
) -> Result<Option<Frame>, NoMemory>
    requires { HasOwnDocument shown }
    ensures { IfOk result (λ frame. frame ≡ frame_at_start register.now.diary (shown_view shown) judgement.now) }
{
    let subject = subject_of(&shown.manifest);
    match judgement {
        Judgement::Missing(_) => Ok(alone(news(alloc, register, shown)?)),
        Judgement::Accept => Ok(Some(taken_with(news(alloc, register, shown)?, subject))),
        _ => {
            drop(shown);
            frame_without(alloc, subject, judgement)
        }
    }
}

// The Begun of a body, unless the last one with its reference is of the same body.
fn news(alloc: Global, register: &Register, shown: Shown) -> Result<Option<Record>, NoMemory>
    requires { HasOwnDocument shown }
    ensures { IfOk result (λ begun. begun ≡ news_of register.now.diary (shown_view shown)) }
{
    let body = body_text(alloc, &shown)?;
    let subject = subject_of(&shown.manifest);
    let again = is_again(register, reference_for(subject), &body);
    Ok(unless(again, begun_with(subject, shown, body)))
}

// The canonical text of the body, around the document's, which is at hand.
#[tactic(auto, unfolding(platform_machine::specs::Receiving::body_text))]
fn body_text(alloc: Global, shown: &Shown) -> Result<ByteList, NoMemory>
    requires { HasOwnDocument shown.now }
    ensures { IfOk result (λ text. text ≡ body_text (body_view shown.now.body)) }
{
    shown
        .body
        .write_around(alloc, shown.document.text().as_slice())
}

fn begun_with(subject: Subject, shown: Shown, body: ByteList) -> Record
    ensures { result ≡ Begun subject.bill shown.chain shown.manifest body }
{
    Record::Begun {
        bill: subject.bill,
        chain: shown.chain,
        manifest: shown.manifest,
        body,
    }
}

fn unless(test: bool, one: Record) -> Option<Record>
    ensures { result ≡ (if test then None else Some one) }
{
    if test { None } else { Some(one) }
}

// Whether the last Begun with a reference is of this body.
fn is_again(register: &Register, reference: Reference, body: &ByteList) -> bool
    ensures { result ≡ is_again reference body.now register.now.diary }
{
    match last_with_reference(register, reference) {
        Some(begun) => begun.body.as_slice() == body.as_slice(),
        None => false,
    }
}

// Where documents are missing they are asked for, and else the judgement is answered.
fn say_at_start<G: KeyRing>(
    alloc: Global,
    ring: &mut G,
    me: PlatformCode,
    subject: Subject,
    judgement: Judgement,
) -> Result<Reply, SealFault>
    requires { IsSealable (response_for subject judgement) }
    ensures ok { IfOk result (SaysAtStart (G.keys ring.old) me subject judgement) }
    ensures sign { result ≡ Err Sign → Rose (G.faults ring.old) (G.faults ring.new) }
    ensures later { G.faults ring.old ≤ G.faults ring.new }
    ensures same { G.keys ring.new ≡ G.keys ring.old }
{
    match judgement {
        Judgement::Missing(missing) => Ok(Reply::Started {
            reference: reference_for(subject),
            missing,
        }),
        judgement => answer(alloc, ring, me, response_for(alloc, subject, judgement)),
    }
}
