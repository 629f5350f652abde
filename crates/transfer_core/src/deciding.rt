//! What a request comes to, before anything is written.
ghost use Rattle.std.specs.Prelude.{◌≡◌, ◌≤◌, Err, IfOk};
ghost use Rattle.ebl_base.specs.Faults.{Rose};
ghost use Rattle.bill_diary.specs.Sound.{IsSound};
ghost use Rattle.pint_responses.specs.declared.fault.SealFault.TheVariants.{Sign};
ghost use Rattle.platform_requests.specs.Request.{request_view};
ghost use Rattle.platform_machine.specs.Machine.{MayBeAsked, Steps};
ghost use Rattle.transfer_core.specs.Decision.{step_by};

use crate::commanding::command;
use crate::decision::Decision;
use crate::hearing::{finish_reply, start_reply};
use crate::showing::{ask, resend};
use crate::starting::start;
use crate::uploading::{finish, put};
use ebl_base::{Moment, PlatformCode};
use party_roster::Roster;
use pint_responses::SealFault;
use platform_requests::Request;
use signed_envelope::KeyRing;
use std::alloc::Global;
use title_register::Register;

/// What a request comes to at a moment: one step of the platform's machine over the register's diary, with everything
/// that it needs and signs made. Nothing is written yet: whoever keeps the register adds the decision's frame.
pub fn decide<G: KeyRing>(
    alloc: Global,
    roster: &Roster,
    ring: &mut G,
    me: PlatformCode,
    register: &Register,
    now: Moment,
    request: Request,
) -> Result<Decision, SealFault>
    requires sound { IsSound me register.now.diary }
    requires asked { MayBeAsked register.now.diary now (request_view request) }
    ensures ok { IfOk result (λ d. Steps roster.now (G.keys ring.old) me register.now.diary now (request_view request)
        (step_by register.now.diary d)) }
    ensures sign { result ≡ Err Sign → Rose (G.faults ring.old) (G.faults ring.new) }
    ensures later { G.faults ring.old ≤ G.faults ring.new }
    ensures same { G.keys ring.new ≡ G.keys ring.old }
{
    match request {
        Request::Command {
            party,
            command: asked,
        } => command(alloc, roster, ring, me, register, now, party, &asked),
        Request::Start { body } => start(alloc, roster, ring, me, register, body.as_slice()),
        Request::Put {
            reference,
            checksum,
            bytes,
        } => put(alloc, ring, me, register, reference, checksum, bytes),
        Request::Finish { reference } => finish(alloc, roster, ring, me, register, reference),
        Request::StartReply { bill, bytes } => Ok(start_reply(
            alloc,
            &*ring,
            me,
            register,
            bill,
            bytes.as_slice(),
        )?),
        Request::FinishReply { bill, bytes } => Ok(finish_reply(
            alloc,
            &*ring,
            me,
            register,
            bill,
            bytes.as_slice(),
        )?),
        Request::Resend { bill } => Ok(resend(alloc, me, register, bill)?),
        Request::Ask { bill } => Ok(ask(alloc, bill)),
    }
}
