//! What an operator's questions come to: how a bill is, and its start once more.
ghost use Rattle.std.specs.Prelude.{◌≡◌, IfErr, IfOk, List};
ghost use Rattle.bill_diary.specs.declared.frame.Frame.{Frame};
ghost use Rattle.bill_diary.specs.History.{history};
ghost use Rattle.bill_diary.specs.Place.{place_of, tag_of};
ghost use Rattle.bill_diary.specs.Sound.{IsSound};
ghost use Rattle.platform_machine.specs.Machine.{IsResent, StepsAtAsk, StepsAtResend};
ghost use Rattle.platform_machine.specs.Transfer.{NothingUnderWay};
ghost use Rattle.transfer_core.specs.Decision.{step_by};

use crate::decision::{Decision, done, only_reply};
use crate::transfer::{start_message, under_way};
use ebl_base::{Checksum, Items, NoMemory, PlaceTag, PlatformCode};
use platform_machine::parting_bill_is_under_way;
use platform_requests::{MessageList, Reply};
use std::alloc::Global;
use title_register::Register;

/// How a bill is, whatever the diary is.
pub fn ask(alloc: Global, bill: Checksum) -> Decision
    ensures { (diary : List Frame) → StepsAtAsk diary bill (step_by diary result) }
{
    done(bill, Items::new(alloc))
}

/// The start of the transfer that is under way, once more, from the same texts.
pub fn resend(
    alloc: Global,
    me: PlatformCode,
    register: &Register,
    bill: Checksum,
) -> Result<Decision, NoMemory>
    requires { IsSound me register.now.diary }
    ensures { IfOk result (λ d. StepsAtResend register.now.diary bill (step_by register.now.diary d)) }
{
    match start_again(alloc, me, register, bill)? {
        Ok(messages) => Ok(done(bill, messages)),
        Err(tag) => Ok(only_reply(alloc, Reply::NotParting(tag))),
    }
}

// The start, or where the bill is.
fn start_again(
    alloc: Global,
    me: PlatformCode,
    register: &Register,
    bill: Checksum,
) -> Result<Result<MessageList, PlaceTag>, NoMemory>
    requires { IsSound me register.now.diary }
    ensures sent { IfOk result (λ r. IfOk r (IsResent (history bill register.now.diary) bill)) }
    ensures nothing { IfOk result (λ r. IfErr r (λ tag. NothingUnderWay (history bill register.now.diary))) }
    ensures tag { IfOk result (λ r. IfErr r (λ tag. tag ≡ tag_of (place_of (history bill register.now.diary)))) }
{
    parting_bill_is_under_way();
    match under_way(me, register, bill) {
        Ok(t) => Ok(Ok(start_message(
            alloc,
            register,
            bill,
            t.known,
            t.parted.link,
            t.parted.manifest_text,
            t.to,
        )?)),
        Err(tag) => Ok(Err(tag)),
    }
}
