//! What a shard is asked about bills, and what comes of it.
ghost use Rattle.std.specs.Prelude.{IfSome};
ghost use Rattle.ebl_base.specs.Moment.{IsMoment};
ghost use Rattle.ebl_base.specs.Party.{IsParty};
ghost use Rattle.holder_commands.specs.Command.{command_view};
ghost use Rattle.holder_commands.specs.Form.{IsCommand};
ghost use Rattle.transfer_judge.specs.PlannedTexts.{Nests};

use disk_model::Disk;
use ebl_base::{Kind, Moment, Party};
use holder_commands::Command;
use journaled_shard::JournaledShard;
use platform_requests::{Outcome, Request};
use sample_bills::{acting, bill, signing};
use std::alloc::Global;
use test_signer::KeyedRing;

/// What comes of one of the three acts on a bill: it is signed (0), issued (1) and sent to BETA.
pub(crate) fn act<D: Disk>(
    alloc: Global,
    shard: &mut JournaledShard<D, KeyedRing>,
    number: u32,
    act: u32,
) -> Option<Outcome> {
    let by = if act < 2 {
        "ALPH/CARRIER"
    } else {
        "ALPH/EXPORT"
    };
    ask(alloc, shard, by, command(alloc, number, act))
}

fn command(alloc: Global, number: u32, act: u32) -> Option<Command>
    ensures form { IfSome result (λ command. IsCommand (command_view command)) }
    ensures nests { IfSome result (λ command. Nests (command_view command)) }
{
    match act {
        0 => signing(alloc, number),
        1 => acting(bill(alloc, number)?, Kind::Issue, "ALPH/EXPORT"),
        _ => acting(bill(alloc, number)?, Kind::Transfer, "BETA/IMPORT"),
    }
}

/// What comes of a party's command, if there is one.
pub(crate) fn ask<D: Disk>(
    alloc: Global,
    shard: &mut JournaledShard<D, KeyedRing>,
    by: &str,
    command: Option<Command>,
) -> Option<Outcome>
    requires form { IfSome command (λ command. IsCommand (command_view command)) }
    requires nests { IfSome command (λ command. Nests (command_view command)) }
{
    let command = command?;
    let Some((party, now)) = asker(by) else {
        drop(command);
        return None;
    };
    if !shard.has_attempts(&command) {
        drop(command);
        return None;
    }
    Some(shard.take(alloc, now, Request::Command { party, command }))
}

// Who asks, and when.
fn asker(by: &str) -> Option<(Party, Moment)>
    ensures party { IfSome result (λ r. IsParty r.0) }
    ensures now { IfSome result (λ r. IsMoment r.1) }
{
    Some((Party::from_text(by.as_bytes())?, Moment::try_new(1000)?))
}
