//! Answers to another platform: what is said, sealed, and what is written of a judgement.
ghost use Rattle.std.specs.Prelude.{◌≡◌, ◌≤◌, Err, IfOk, List, option_map};
ghost use Rattle.ebl_base.specs.Faults.{Rose};
ghost use Rattle.bill_diary.specs.declared.frame.Frame.{Frame};
ghost use Rattle.bill_diary.specs.declared.frame.Frame.TheVariants.{One};
ghost use Rattle.pint_responses.specs.Response.{IsSealable};
ghost use Rattle.pint_responses.specs.declared.fault.SealFault.TheVariants.{Sign};
ghost use Rattle.platform_machine.specs.Answer.{IsAnswer, document_response, no_evidence, reference_for, refusal_response, response_with, subject_of};
ghost use Rattle.platform_machine.specs.Judged.{frame_for, response_for, taken_with};
ghost use Rattle.platform_machine.specs.Step.{Answers};
ghost use Rattle.transfer_core.specs.Decision.{step_by};

use crate::decision::{DecidedReply, Decision};
use bill_diary::{Frame, Record};
use ebl_base::{
    ChecksumList, Code, Copied, Evidence, Items, NoMemory, PlatformCode, Reason, Reference,
};
use envelope_manifest::Manifest;
use pint_responses::{Response, SealFault, seal};
use platform_machine::{Refusal, Subject};
use platform_requests::Reply;
use signed_envelope::KeyRing;
use std::alloc::Global;
use transfer_judge::Judgement;
use upload_state::reference_of;

/// The bill and the last entry that a manifest names.
pub(crate) fn subject_of(manifest: &Manifest) -> Subject
    ensures { result ≡ subject_of manifest.now }
{
    Subject {
        bill: manifest.bill,
        last: manifest.last,
    }
}

/// The reference under which its documents are sent.
pub(crate) fn reference_for(subject: Subject) -> Reference
    ensures { result ≡ reference_for subject }
{
    reference_of(subject.bill, subject.last)
}

/// The decision to answer with this response, sealed, and writes this.
pub(crate) fn answer_with<G: KeyRing>(
    alloc: Global,
    ring: &mut G,
    me: PlatformCode,
    frame: Option<Frame>,
    response: Response,
) -> Result<Decision, SealFault>
    requires { IsSealable response }
    ensures ok { IfOk result (λ d. (diary : List Frame)
        → Answers (G.keys ring.old) me frame response (step_by diary d)) }
    ensures sign { result ≡ Err Sign → Rose (G.faults ring.old) (G.faults ring.new) }
    ensures later { G.faults ring.old ≤ G.faults ring.new }
    ensures same { G.keys ring.new ≡ G.keys ring.old }
{
    match answer(alloc, ring, me, response) {
        Ok(reply) => Ok(Decision {
            frame,
            reply: DecidedReply::Ready(reply),
            messages: Items::new(alloc),
        }),
        Err(fault) => {
            // A call: what one arm alone moves is dropped in the others field by field, which is long to prove.
            drop(frame);
            Err(fault)
        }
    }
}

/// The response, sealed.
pub(crate) fn answer<G: KeyRing>(
    alloc: Global,
    ring: &mut G,
    me: PlatformCode,
    response: Response,
) -> Result<Reply, SealFault>
    requires { IsSealable response }
    ensures ok { IfOk result (IsAnswer (G.keys ring.old) me response) }
    ensures sign { result ≡ Err Sign → Rose (G.faults ring.old) (G.faults ring.new) }
    ensures later { G.faults ring.old ≤ G.faults ring.new }
    ensures same { G.keys ring.new ≡ G.keys ring.old }
{
    match seal(alloc, ring, me, &response) {
        Ok(text) => Ok(Reply::Answer { response, text }),
        Err(fault) => Err(fault),
    }
}

/// How the refusal of a body is answered.
pub(crate) fn refusal_response(alloc: Global, refusal: Refusal) -> Response
    ensures { result ≡ refusal_response refusal }
{
    Response {
        code: refusal.reason.code(),
        bill: refusal.bill,
        last: refusal.last,
        standing: false,
        reason: Some(refusal.reason),
        missing: Items::new(alloc),
        evidence: no_evidence(),
    }
}

/// How a document that isn't stored is answered.
pub(crate) fn document_response(alloc: Global, subject: Subject, reason: Reason) -> Response
    ensures { result ≡ document_response subject reason }
{
    response_with(
        subject,
        Code::InconsistentDocument,
        false,
        Some(reason),
        Items::new(alloc),
        no_evidence(),
    )
}

/// How a judgement is answered.
pub(crate) fn response_for(alloc: Global, subject: Subject, judgement: Judgement) -> Response
    ensures { result ≡ response_for subject judgement }
{
    let none = Items::new(alloc);
    match judgement {
        Judgement::Elsewhere => response_with(
            subject,
            Code::BadEnvelope,
            false,
            Some(Reason::Destination),
            none,
            no_evidence(),
        ),
        Judgement::Duplicate => response_with(
            subject,
            Code::Duplicate,
            false,
            None,
            none,
            no_evidence(),
        ),
        Judgement::Declined {
            code,
            reason,
            evidence,
        } => response_with(subject, code, true, Some(reason), none, evidence),
        Judgement::Parts(evidence) => response_with(
            subject,
            Code::DisputedEnvelope,
            true,
            Some(Reason::Parts),
            none,
            evidence,
        ),
        Judgement::Unknown => response_with(
            subject,
            Code::BadEnvelope,
            true,
            Some(Reason::Party),
            none,
            no_evidence(),
        ),
        Judgement::Missing(missing) => response_with(
            subject,
            Code::MissingDocuments,
            false,
            None,
            missing,
            no_evidence(),
        ),
        Judgement::Accept => response_with(
            subject,
            Code::Received,
            false,
            None,
            none,
            no_evidence(),
        ),
    }
}

fn response_with(
    subject: Subject,
    code: Code,
    standing: bool,
    reason: Option<Reason>,
    missing: ChecksumList,
    evidence: Evidence,
) -> Response
    ensures { result ≡ response_with subject code standing reason missing evidence }
{
    Response {
        code,
        bill: Some(subject.bill),
        last: Some(subject.last),
        standing,
        reason,
        missing,
        evidence,
    }
}

fn no_evidence() -> Evidence
    ensures { result ≡ no_evidence }
{
    Evidence {
        own: None,
        theirs: None,
    }
}

/// What is written of a judgement where no Begun is new.
pub(crate) fn frame_without(
    alloc: Global,
    subject: Subject,
    judgement: &Judgement,
) -> Result<Option<Frame>, NoMemory>
    ensures { IfOk result (λ frame. frame ≡ frame_for None subject judgement.now) }
{
    match judgement {
        Judgement::Parts(evidence) => Ok(Some(Frame::One(Record::Declined {
            bill: subject.bill,
            entry: subject.last,
            code: Code::DisputedEnvelope,
            reason: Reason::Parts,
            evidence: evidence.copy(alloc)?,
        }))),
        Judgement::Unknown => Ok(Some(Frame::One(Record::Declined {
            bill: subject.bill,
            entry: subject.last,
            code: Code::BadEnvelope,
            reason: Reason::Party,
            evidence: no_evidence(),
        }))),
        Judgement::Accept => Ok(Some(taken_with(None, subject))),
        _ => Ok(None),
    }
}

/// The frame of a Begun that is new, if one is.
pub(crate) fn alone(begun: Option<Record>) -> Option<Frame>
    ensures { result ≡ option_map One begun }
{
    match begun {
        Some(begun) => Some(Frame::One(begun)),
        None => None,
    }
}

/// The frame of an entry that is taken, with the Begun that is new, if one is.
pub(crate) fn taken_with(begun: Option<Record>, subject: Subject) -> Frame
    ensures { result ≡ taken_with begun subject }
{
    match begun {
        Some(begun) => Frame::BegunTaken(begun),
        None => Frame::One(Record::Taken {
            bill: subject.bill,
            entry: subject.last,
        }),
    }
}
