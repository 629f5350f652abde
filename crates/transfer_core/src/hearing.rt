//! What the replies to a transfer from here come to.
ghost use Rattle.std.specs.Prelude.{◌≡◌, ◌↔◌, IfErr, IfOk, IsTrue};
ghost use Rattle.bill_diary.specs.History.{history};
ghost use Rattle.bill_diary.specs.Sound.{IsSound};
ghost use Rattle.platform_machine.specs.Hearing.{IsAnswerIgnored, IsEnded, IsRequestIgnored, IsUpload, StepsAtAnswer, StepsAtFinishReply, StepsAtRequest, StepsAtStartReply, EndsBy, IsPassedOver, begins_object, ending_by, ending_in, is_for, record_for};
ghost use Rattle.platform_machine.specs.Transfer.{reference_at};
ghost use Rattle.transfer_core.specs.Decision.{step_by};
ghost use Rattle.transfer_core.specs.Transfer.{transfer_view};

use crate::decision::{Decision, done, done_with, only_reply};
use crate::transfer::{Transfer, reference_at, under_way, uploads};
use bill_diary::Record;
use ebl_base::{Checksum, Code, Items, NoMemory, PlatformCode};
use pint_responses::{Response, UnsealFault, unseal};
use platform_machine::Ending;
use platform_requests::{IgnoreReason, MessageList, Reply};
use signed_envelope::KeyRing;
use std::alloc::Global;
use title_register::Register;
use upload_state::{Started, StartedFault, started_read};

/// What a reply to the start of a transfer comes to: a request for documents, or an answer. Nothing is written yet.
pub fn start_reply<G: KeyRing>(
    alloc: Global,
    ring: &G,
    me: PlatformCode,
    register: &Register,
    bill: Checksum,
    bytes: &[u8],
) -> Result<Decision, NoMemory>
    requires { IsSound me register.now.diary }
    ensures { IfOk result (λ d. StepsAtStartReply (G.keys ring.now) register.now.diary bill bytes.now
        (step_by register.now.diary d)) }
{
    if begins_object(bytes) {
        request(alloc, me, register, bill, bytes)
    } else {
        answer(alloc, ring, me, register, bill, bytes)
    }
}

/// What a reply to a document or the finish of a transfer comes to: an answer. Nothing is written yet.
pub fn finish_reply<G: KeyRing>(
    alloc: Global,
    ring: &G,
    me: PlatformCode,
    register: &Register,
    bill: Checksum,
    bytes: &[u8],
) -> Result<Decision, NoMemory>
    requires { IsSound me register.now.diary }
    ensures { IfOk result (λ d. StepsAtFinishReply (G.keys ring.now) register.now.diary bill bytes.now
        (step_by register.now.diary d)) }
{
    answer(alloc, ring, me, register, bill, bytes)
}

// Whether bytes begin as a JSON object does.
fn begins_object(bytes: &[u8]) -> bool
    ensures { result ≡ begins_object bytes.now }
{
    match bytes {
        [first, ..] => *first == b'{',
        [] => false,
    }
}

// ---- an answer

fn answer<G: KeyRing>(
    alloc: Global,
    ring: &G,
    me: PlatformCode,
    register: &Register,
    bill: Checksum,
    bytes: &[u8],
) -> Result<Decision, NoMemory>
    requires { IsSound me register.now.diary }
    ensures { IfOk result (λ d. StepsAtAnswer (G.keys ring.now) register.now.diary bill bytes.now
        (step_by register.now.diary d)) }
{
    match record_of_answer(alloc, ring, me, register, bill, bytes)? {
        Ok(written) => Ok(done_with(bill, written, Items::new(alloc))),
        Err(reason) => Ok(only_reply(alloc, Reply::Ignored(reason))),
    }
}

// What is written of an answer, or why it is ignored.
fn record_of_answer<G: KeyRing>(
    alloc: Global,
    ring: &G,
    me: PlatformCode,
    register: &Register,
    bill: Checksum,
    bytes: &[u8],
) -> Result<Result<Record, IgnoreReason>, NoMemory>
    requires { IsSound me register.now.diary }
    ensures ended { IfOk result (λ r.
        IfOk r (IsEnded (G.keys ring.now) (history bill register.now.diary) bill bytes.now)) }
    ensures ignored { IfOk result (λ r.
        IfErr r (IsAnswerIgnored (G.keys ring.now) (history bill register.now.diary) bill bytes.now)) }
{
    match under_way(me, register, bill) {
        Ok(t) => match ending_of(alloc, ring, &t, bytes)? {
            Ok(ending) => Ok(Ok(record_for(bill, t.parted.link.name, ending))),
            Err(reason) => Ok(Err(reason)),
        },
        Err(_) => Ok(Err(IgnoreReason::NotParting)),
    }
}

// How a transfer ends by an answer, or why it doesn't.
fn ending_of<G: KeyRing>(
    alloc: Global,
    ring: &G,
    t: &Transfer<'_>,
    bytes: &[u8],
) -> Result<Result<Ending, IgnoreReason>, NoMemory>
    ensures ends { IfOk result (λ r. IfOk r (EndsBy (G.keys ring.now) (transfer_view t.now) bytes.now)) }
    ensures passed { IfOk result (λ r. IfErr r (IsPassedOver (G.keys ring.now) (transfer_view t.now) bytes.now)) }
{
    match unseal(alloc, ring, bytes, t.to) {
        Ok(response) => Ok(ending_in(t.parted.link.name, &response)),
        Err(UnsealFault::Signature(_)) => Ok(Err(IgnoreReason::Signature)),
        Err(UnsealFault::Form(_)) => Ok(Err(IgnoreReason::Form)),
        Err(UnsealFault::NoMemory) => Err(NoMemory),
    }
}

// What a response says of an entry.
fn ending_in(entry: Checksum, response: &Response) -> Result<Ending, IgnoreReason>
    ensures { result ≡ ending_in entry response.now }
{
    if is_for(entry, response.last) {
        ending_by(response.code, response.standing)
    } else {
        Err(IgnoreReason::OtherEntry)
    }
}

fn is_for(entry: Checksum, last: Option<Checksum>) -> bool
    ensures { result ≡ is_for entry last }
{
    match last {
        Some(last) => last == entry,
        None => false,
    }
}

fn ending_by(code: Code, standing: bool) -> Result<Ending, IgnoreReason>
    ensures { result ≡ ending_by code standing }
{
    match code {
        Code::Received | Code::Duplicate => Ok(Ending::Received),
        _ if standing => Ok(Ending::Declined),
        _ => Err(IgnoreReason::Passing),
    }
}

fn record_for(bill: Checksum, entry: Checksum, ending: Ending) -> Record
    ensures { result ≡ record_for bill entry ending }
{
    match ending {
        Ending::Received => Record::Settled { bill, entry },
        Ending::Declined => Record::Regained { bill, entry },
    }
}

// ---- a request for documents

fn request(
    alloc: Global,
    me: PlatformCode,
    register: &Register,
    bill: Checksum,
    bytes: &[u8],
) -> Result<Decision, NoMemory>
    requires { IsSound me register.now.diary }
    ensures { IfOk result (λ d. StepsAtRequest register.now.diary bill bytes.now (step_by register.now.diary d)) }
{
    match uploads_for(alloc, me, register, bill, bytes)? {
        Ok(messages) => Ok(done(bill, messages)),
        Err(reason) => Ok(only_reply(alloc, Reply::Ignored(reason))),
    }
}

// What is sent for a request, or why it is ignored.
fn uploads_for(
    alloc: Global,
    me: PlatformCode,
    register: &Register,
    bill: Checksum,
    bytes: &[u8],
) -> Result<Result<MessageList, IgnoreReason>, NoMemory>
    requires { IsSound me register.now.diary }
    ensures sent { IfOk result (λ r. IfOk r (IsUpload (history bill register.now.diary) bill bytes.now)) }
    ensures ignored { IfOk result (λ r. IfErr r (IsRequestIgnored (history bill register.now.diary) bill bytes.now)) }
{
    let t = match under_way(me, register, bill) {
        Ok(t) => t,
        Err(_) => return Ok(Err(IgnoreReason::NotParting)),
    };
    let started = match started_read(alloc, bytes) {
        Ok(started) => started,
        Err(StartedFault::Form) => return Ok(Err(IgnoreReason::Form)),
        Err(StartedFault::NoMemory) => return Err(NoMemory),
    };
    if asks_of(&started, bill, &t) {
        Ok(Ok(uploads(alloc, register, bill, &t, &started.missing)?))
    } else {
        Ok(Err(IgnoreReason::Reference))
    }
}

// Whether documents are asked for of this transfer.
fn asks_of(started: &Started, bill: Checksum, t: &Transfer<'_>) -> bool
    ensures { IsTrue result ↔ (started.now.reference ≡ reference_at bill (transfer_view t.now)) }
{
    started.reference == reference_at(bill, t)
}
