//! What the documents and the finish of a transfer come to, at the platform to which they are sent.
ghost use Rattle.std.specs.Prelude.{◌≡◌, ◌≤◌, Err, IfOk, None, Some, if◌then◌else◌, option_copied};
ghost use Rattle.ebl_base.specs.Faults.{Rose};
ghost use Rattle.document_checksum.specs.Digest.{checksum_of};
ghost use Rattle.bill_diary.specs.Sound.{IsSound};
ghost use Rattle.pint_responses.specs.Response.{IsSealable};
ghost use Rattle.pint_responses.specs.declared.fault.SealFault.TheVariants.{Sign};
ghost use Rattle.platform_machine.specs.Answer.{subject_of};
ghost use Rattle.platform_machine.specs.Judged.{response_for};
ghost use Rattle.platform_machine.specs.Receiving.{IsFinished, IsPut, StepsAtFinish, StepsAtPut, frame_at_put, judgement_at_finish, listed_with};
ghost use Rattle.platform_machine.specs.Step.{OnlyReplies};
ghost use Rattle.transfer_core.specs.Begun.{begun_view};
ghost use Rattle.transfer_core.specs.Decision.{step_by};

use crate::answering::{answer_with, document_response, frame_without, response_for, subject_of};
use crate::decision::{DecidedReply, Decision, only_reply};
use bill_diary::{BegunRef, Frame, Record};
use ebl_base::{ByteList, Checksum, Items, PlatformCode, Reason, Reference};
use envelope_manifest::{Manifest, Piece};
use party_roster::Roster;
use pint_responses::SealFault;
use platform_requests::Reply;
use signed_envelope::KeyRing;
use std::alloc::Global;
use title_register::{Register, are_there, last_with_reference};
use transfer_judge::judge;
use upload_state::fits;

/// What a document, sent under a reference and a checksum, comes to. Nothing is written yet.
pub fn put<G: KeyRing>(
    alloc: Global,
    ring: &mut G,
    me: PlatformCode,
    register: &Register,
    reference: Reference,
    checksum: Checksum,
    bytes: ByteList,
) -> Result<Decision, SealFault>
    requires { IsSound me register.now.diary }
    ensures ok { IfOk result (λ d. StepsAtPut (G.keys ring.old) me register.now.diary reference checksum bytes
        (step_by register.now.diary d)) }
    ensures sign { result ≡ Err Sign → Rose (G.faults ring.old) (G.faults ring.new) }
    ensures later { G.faults ring.old ≤ G.faults ring.new }
    ensures same { G.keys ring.new ≡ G.keys ring.old }
{
    match last_with_reference(register, reference) {
        Some(begun) => put_begun(alloc, ring, me, register, begun, checksum, bytes),
        None => Ok(only_reply(alloc, Reply::UnknownReference)),
    }
}

fn put_begun<G: KeyRing>(
    alloc: Global,
    ring: &mut G,
    me: PlatformCode,
    register: &Register,
    begun: BegunRef<'_>,
    checksum: Checksum,
    bytes: ByteList,
) -> Result<Decision, SealFault>
    requires { IsSound me register.now.diary }
    ensures ok { IfOk result (λ d. IsPut (G.keys ring.old) me register.now.diary (begun_view begun.entry) checksum bytes
        (step_by register.now.diary d)) }
    ensures sign { result ≡ Err Sign → Rose (G.faults ring.old) (G.faults ring.new) }
    ensures later { G.faults ring.old ≤ G.faults ring.new }
    ensures same { G.keys ring.new ≡ G.keys ring.old }
{
    let subject = subject_of(begun.manifest);
    let Some(piece) = listed_with(checksum, begun.manifest) else {
        let response = document_response(alloc, subject, Reason::NotListed);
        return answer_with(alloc, ring, me, None, response);
    };
    if !fits(piece, bytes.as_slice()) {
        let response = document_response(alloc, subject, Reason::Bytes);
        return answer_with(alloc, ring, me, None, response);
    }
    Ok(Decision {
        frame: frame_at_put(me, register, begun, checksum, bytes),
        reply: DecidedReply::Ready(Reply::Stored),
        messages: Items::new(alloc),
    })
}

// The document that a manifest lists with a checksum.
fn listed_with(checksum: Checksum, manifest: &Manifest) -> Option<&Piece>
    ensures { option_copied result ≡ listed_with checksum manifest.now }
{
    manifest
        .documents
        .as_slice()
        .iter()
        .find(|piece| piece.checksum == checksum)
}

// A Stored of the bytes, unless they are there for the bill.
fn frame_at_put(
    me: PlatformCode,
    register: &Register,
    begun: BegunRef<'_>,
    checksum: Checksum,
    bytes: ByteList,
) -> Option<Frame>
    requires sound { IsSound me register.now.diary }
    requires named { checksum ≡ checksum_of bytes }
    ensures { result ≡ frame_at_put register.now.diary (begun_view begun.entry) checksum bytes }
{
    if are_there(me, register, begun.bill, checksum, bytes.as_slice()) {
        return None;
    }
    Some(Frame::One(Record::Stored {
        bill: begun.bill,
        entry: begun.manifest.last,
        checksum,
        bytes,
    }))
}

/// What the finish of a transfer comes to: the judgement on the last Begun with the reference. Nothing is written yet.
pub fn finish<G: KeyRing>(
    alloc: Global,
    roster: &Roster,
    ring: &mut G,
    me: PlatformCode,
    register: &Register,
    reference: Reference,
) -> Result<Decision, SealFault>
    requires { IsSound me register.now.diary }
    ensures ok { IfOk result (λ d. StepsAtFinish roster.now (G.keys ring.old) me register.now.diary reference
        (step_by register.now.diary d)) }
    ensures sign { result ≡ Err Sign → Rose (G.faults ring.old) (G.faults ring.new) }
    ensures later { G.faults ring.old ≤ G.faults ring.new }
    ensures same { G.keys ring.new ≡ G.keys ring.old }
{
    match last_with_reference(register, reference) {
        Some(begun) => finish_begun(alloc, roster, ring, me, register, begun),
        None => Ok(only_reply(alloc, Reply::UnknownReference)),
    }
}

fn finish_begun<G: KeyRing>(
    alloc: Global,
    roster: &Roster,
    ring: &mut G,
    me: PlatformCode,
    register: &Register,
    begun: BegunRef<'_>,
) -> Result<Decision, SealFault>
    requires { IsSealable (response_for (subject_of begun.manifest.now)
        (judgement_at_finish roster.now me register.now.diary (begun_view begun))) }
    ensures ok { IfOk result (λ d. IsFinished roster.now (G.keys ring.old) me register.now.diary
        (begun_view begun.entry) (step_by register.now.diary d)) }
    ensures sign { result ≡ Err Sign → Rose (G.faults ring.old) (G.faults ring.new) }
    ensures later { G.faults ring.old ≤ G.faults ring.new }
    ensures same { G.keys ring.new ≡ G.keys ring.old }
{
    let subject = subject_of(begun.manifest);
    let judgement = judge(alloc, register, roster, me, begun.chain, begun.manifest)?;
    let frame = frame_without(alloc, subject, &judgement)?;
    answer_with(
        alloc,
        ring,
        me,
        frame,
        response_for(alloc, subject, judgement),
    )
}
