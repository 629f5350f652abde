//! One thread's bills.
ghost use Rattle.std.specs.Prelude.{◌≡◌, IfSome, false};
ghost use Rattle.document_checksum.specs.Digest.{IsChecksum};
ghost use Rattle.holder_commands.specs.Command.{command_view};
ghost use Rattle.holder_commands.specs.Form.{IsCommand};
ghost use Rattle.platform_office.specs.Office.{IsPassOf};
ghost use Rattle.platform_office.specs.Served.{MayBeServed};
ghost use Rattle.platform_requests.specs.Request.{request_view};
ghost use Rattle.transfer_judge.specs.PlannedTexts.{Nests};
ghost use Rattle.ebl_base.specs.Moment.{IsMoment};

use crate::offices::{Offices, Passes};
use disk_model::Disk;
use ebl_base::{ByteList, Kind, Moment, Party};
use holder_commands::Command;
use platform_office::{Office, Pass};
use platform_requests::{Message, Outcome, Reply, Request};
use sample_bills::{acting, bill, signing};
use std::alloc::Global;
use std::sync::Wait;
use test_signer::KeyedRing;

/// How many requests were done, how many met a fault of the disk, and how many had another reply.
#[derive(Clone, Copy)]
pub(crate) struct Replies {
    pub(crate) done: u64,
    pub(crate) disk: u64,
    pub(crate) others: u64,
}

impl Replies {
    pub(crate) fn none() -> Replies {
        Replies {
            done: 0,
            disk: 0,
            others: 0,
        }
    }

    fn count(&mut self, reply: &Reply) {
        match reply {
            Reply::Done(_) | Reply::Answer { .. } => self.done = self.done.wrapping_add(1),
            Reply::Disk => self.disk = self.disk.wrapping_add(1),
            _ => self.others = self.others.wrapping_add(1),
        }
    }

    pub(crate) fn plus(self, other: Replies) -> Replies {
        Replies {
            done: self.done.wrapping_add(other.done),
            disk: self.disk.wrapping_add(other.disk),
            others: self.others.wrapping_add(other.others),
        }
    }
}

/// What is done with bills: ALPH signs and issues them and hands them over to BETA, or it sends the start again and
/// settles with BETA's answer.
#[derive(Clone, Copy)]
pub(crate) enum Phase {
    HandOver,
    Settle,
}

/// The numbers of a thread's bills: the first one, and how many there are.
#[derive(Clone, Copy)]
pub(crate) struct Bills {
    pub(crate) first: u32,
    pub(crate) count: u32,
}

// What comes of a request at an office, counted.
fn ask<D: Disk + Drop, R: Wait>(
    rt: &R,
    alloc: Global,
    office: &Office<D, KeyedRing>,
    pass: &mut Pass<D, KeyedRing>,
    request: Request,
    replies: &mut Replies,
) -> Option<Outcome>
    requires of { IsPassOf office.now pass.old }
    requires may { (now : Moment) → IsMoment now → MayBeServed now (request_view request) }
    ensures { IsPassOf office.now pass.new }
{
    let Some(now) = Moment::try_new(1000) else {
        drop(request);
        return None;
    };
    let served = office.take(rt, alloc, pass, now, request).ok()?;
    replies.count(&served.outcome.reply);
    Some(served.outcome)
}

// A party of ALPH asks it for this; for nothing, where there is none.
fn command<D: Disk + Drop, R: Wait>(
    rt: &R,
    alloc: Global,
    offices: &Offices<D>,
    passes: &mut Passes<D>,
    by: &str,
    command: Option<Command>,
    replies: &mut Replies,
) -> Option<()>
    requires alph { IsPassOf offices.now.alph passes.old.alph }
    requires beta { IsPassOf offices.now.beta passes.old.beta }
    requires form { IfSome command (λ command. IsCommand (command_view command)) }
    requires nests { IfSome command (λ command. Nests (command_view command)) }
    ensures alph { IsPassOf offices.now.alph passes.new.alph }
    ensures beta { IsPassOf offices.now.beta passes.new.beta }
{
    let command = command?;
    let Some(party) = Party::from_text(by.as_bytes()) else {
        drop(command);
        return None;
    };
    let request = Request::Command { party, command };
    drop(ask(rt, alloc, &offices.alph, &mut passes.alph, request, replies)?);
    Some(())
}

// The bill is signed, issued, and handed over to BETA.
fn hand_over<D: Disk + Drop, R: Wait>(
    rt: &R,
    alloc: Global,
    offices: &Offices<D>,
    passes: &mut Passes<D>,
    number: u32,
    replies: &mut Replies,
) -> Option<()>
    requires alph { IsPassOf offices.now.alph passes.old.alph }
    requires beta { IsPassOf offices.now.beta passes.old.beta }
    ensures alph { IsPassOf offices.now.alph passes.new.alph }
    ensures beta { IsPassOf offices.now.beta passes.new.beta }
{
    let bill = bill(alloc, number)?;
    let signing = signing(alloc, number);
    command(rt, alloc, offices, passes, "ALPH/CARRIER", signing, replies)?;
    let issue = acting(bill, Kind::Issue, "ALPH/EXPORT");
    command(rt, alloc, offices, passes, "ALPH/CARRIER", issue, replies)?;
    let transfer = acting(bill, Kind::Transfer, "BETA/IMPORT");
    command(rt, alloc, offices, passes, "ALPH/EXPORT", transfer, replies)
}

// The body of the start in an outcome.
fn body_in(outcome: Outcome) -> Option<ByteList> {
    let Outcome { reply, messages } = outcome;
    drop(reply);
    let mut messages = messages.into_vec();
    match messages.pop() {
        Some(Message::Start { body, .. }) => Some(body),
        other => {
            drop(other);
            None
        }
    }
}

// The signed answer in an outcome.
fn answer_in(alloc: Global, outcome: Outcome) -> Option<ByteList> {
    let bytes = match &outcome.reply {
        Reply::Answer { text, .. } => ByteList::from_slice(alloc, text.0.as_slice()).ok(),
        _ => None,
    };
    drop(outcome);
    bytes
}

// ALPH sends the bill's start again, BETA takes it, and ALPH its answer. Where there is none, no more is asked.
fn settle<D: Disk + Drop, R: Wait>(
    rt: &R,
    alloc: Global,
    offices: &Offices<D>,
    passes: &mut Passes<D>,
    number: u32,
    replies: &mut Replies,
) -> Option<()>
    requires alph { IsPassOf offices.now.alph passes.old.alph }
    requires beta { IsPassOf offices.now.beta passes.old.beta }
    ensures alph { IsPassOf offices.now.alph passes.new.alph }
    ensures beta { IsPassOf offices.now.beta passes.new.beta }
{
    let bill = bill(alloc, number)?;
    let resend = Request::Resend { bill };
    let sent = ask(rt, alloc, &offices.alph, &mut passes.alph, resend, replies)?;
    let Some(body) = body_in(sent) else {
        return Some(());
    };
    let start = Request::Start { body };
    let taken = ask(rt, alloc, &offices.beta, &mut passes.beta, start, replies)?;
    let Some(bytes) = answer_in(alloc, taken) else {
        return Some(());
    };
    let answer = Request::StartReply { bill, bytes };
    drop(ask(rt, alloc, &offices.alph, &mut passes.alph, answer, replies)?);
    Some(())
}

/// One thread's bills, one after the other. None comes if memory runs out.
pub(crate) fn serve<D: Disk + Drop, R: Wait>(
    rt: &R,
    alloc: Global,
    offices: &Offices<D>,
    passes: &mut Passes<D>,
    bills: Bills,
    phase: Phase,
) -> Option<Replies>
    requires alph { IsPassOf offices.now.alph passes.old.alph }
    requires beta { IsPassOf offices.now.beta passes.old.beta }
    ensures alph { IsPassOf offices.now.alph passes.new.alph }
    ensures beta { IsPassOf offices.now.beta passes.new.beta }
{
    let mut replies = Replies::none();
    for place in 0..bills.count {
        let number = bills.first.wrapping_add(place);
        let done = match phase {
            Phase::HandOver => hand_over(rt, alloc, offices, passes, number, &mut replies),
            Phase::Settle => settle(rt, alloc, offices, passes, number, &mut replies),
        };
        done?;
    }
    Some(replies)
}
