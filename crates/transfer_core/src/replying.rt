//! How a bill is, as a holder is shown it once a request's frame is written.
ghost use Rattle.std.specs.Prelude.{◌≡◌, ◌≤◌};
ghost use Rattle.ebl_base.specs.declared.limits.TheConstants.{MAX_CHAIN_ENTRIES};
ghost use Rattle.bill_diary.specs.History.{history};
ghost use Rattle.bill_diary.specs.Place.{place_of, title_at};
ghost use Rattle.platform_machine.specs.Step.{entries_at, title_in, view_of};
ghost use Rattle.transfer_core.specs.Decision.{reply_by};
ghost use Rattle.transfer_core.specs.Shard.{AreShort};

use crate::decision::DecidedReply;
use ebl_base::Checksum;
use platform_requests::{Reply, View};
use title_fold::Title;
use title_register::Register;

/// What is replied, by the register as it is now: a reply that is ready, or how a bill is. It allocates nothing.
///
/// Who keeps the register asks it once the decision's frame is added, as [`Shard::take`](crate::Shard::take) does. The
/// known chain of each bill has at most 64 entries, as in every legal diary.
pub fn reply_now(register: &Register, reply: DecidedReply) -> Reply
    requires { AreShort register.now.diary }
    ensures { result ≡ reply_by register.now.diary reply }
{
    match reply {
        DecidedReply::Ready(reply) => reply,
        DecidedReply::Done(bill) => Reply::Done(view(register, bill)),
    }
}

// How a bill is.
fn view(register: &Register, bill: Checksum) -> View
    requires { entries_at (place_of (history bill register.now.diary)) ≤ MAX_CHAIN_ENTRIES }
    ensures { result ≡ view_of bill register.now.diary }
{
    View {
        bill,
        place: register.tag(bill),
        entries: entries(register, bill),
        title: title(register, bill),
    }
}

// How many entries the known chain has.
#[tactic(auto, using(crate::proofs::LookUpLemmas::places))]
fn entries(register: &Register, bill: Checksum) -> u32
    requires { entries_at (place_of (history bill register.now.diary)) ≤ MAX_CHAIN_ENTRIES }
    ensures { result ≡ entries_at (place_of (history bill register.now.diary)) }
{
    match register.known(bill) {
        Some(known) => known.len() as u32,
        None => 0,
    }
}

// The title, where the fold gives one.
fn title(register: &Register, bill: Checksum) -> Option<Title>
    ensures { result ≡ title_in (title_at (place_of (history bill register.now.diary))) }
{
    match register.title(bill) {
        Ok(title) => title,
        Err(_) => None,
    }
}
