//! Numbers of messages and bills.
ghost use Rattle.std.specs.Prelude.{◌≡◌, ◌<◌, ◌≤◌, ◌^◌, IfOk};
ghost use Rattle.world_events.specs.Numbers.{number_shown, numbers_sent};

use crate::signed_bills::SignedBills;
use answer_lines::Answer;
use ebl_base::NoMemory;
use platform_requests::Reply;
use std::alloc::Global;

/// The numbers of what was sent by an event, where so many were sent before it and so many after it.
#[tactic(auto, using(crate::proofs::MessageNumbers::more_numbers))]
pub(crate) fn numbers_sent(alloc: Global, before: usize, after: usize) -> Result<Vec<u64>, NoMemory>
    requires grown { before ≤ after }
    requires few { after < 2 ^ 63 }
    ensures { IfOk result (λ numbers. numbers.items ≡ numbers_sent before after) }
{
    let count = after - before;
    let mut numbers = Vec::with_capacity(alloc, count)?;
    let mut i = 0;
    while i < count {
        numbers.push((before + 1 + i) as u64)?;
        i += 1;
    }
    Ok(numbers)
}

/// The number of the bill that an answer shows, among those that were signed.
pub(crate) fn number_shown(signed: &SignedBills, answer: &Answer) -> Option<u64>
    ensures { result ≡ number_shown signed.now answer.now }
{
    match answer {
        Answer::Replied(Reply::Done(view)) => signed.number_of(view.bill),
        _ => None,
    }
}
