//! Two platforms of one shard each, between which bills go.
ghost use Rattle.std.specs.Prelude.{IfSome};
ghost use Rattle.holder_commands.specs.Command.{command_view};
ghost use Rattle.holder_commands.specs.Form.{IsCommand};
ghost use Rattle.transfer_judge.specs.PlannedTexts.{Nests};

use crate::outcomes::{body_in, done};
use crate::texts::{acting, roster, signing};
use ebl_base::{ByteList, Checksum, Code, Moment, Party, PlaceTag, PlatformCode};
use holder_commands::Command;
use platform_requests::{MessageList, Reply, Request, View};
use std::alloc::Global;
use test_signer::KeyedRing;
use transfer_core::Shard;

// The commands behind the signing: the kind of transaction, who asks, and the recipient.
const ACTS: [(&str, &str, &str); 3] = [
    ("ISSUE", "ALPH/CARRIER", "ALPH/EXPORT"),
    ("ENDORSE", "ALPH/EXPORT", "BETA/IMPORT"),
    ("TRANSFER", "ALPH/EXPORT", "BETA/IMPORT"),
];

/// So many bills are signed at each of the two; then so many more go from the one to the other, by so many of six
/// requests. None where one wasn't done.
pub(crate) fn request_often(alloc: Global, bills: u32, rows: u32, requests: u32) -> Option<()> {
    let mut pair = Pair::new(alloc)?;
    let done = carry_out(alloc, &mut pair, bills, rows, requests);
    drop(pair);
    done
}

fn carry_out(alloc: Global, pair: &mut Pair, bills: u32, rows: u32, requests: u32) -> Option<()> {
    for number in 0..bills {
        pair.fill(alloc, number)?;
    }
    for number in 0..rows {
        pair.row(alloc, bills.checked_add(number)?, requests)?;
    }
    Some(())
}

// Two platforms of one shard each.
#[derive(Drop)]
struct Pair {
    alph: Shard<KeyedRing>,
    beta: Shard<KeyedRing>,
}

impl Pair {
    // Two platforms that have written nothing down.
    fn new(alloc: Global) -> Option<Pair> {
        let (alph, beta) = (
            PlatformCode::try_new(b"ALPH")?,
            PlatformCode::try_new(b"BETA")?,
        );
        let (one, other) = (roster(alloc)?, roster(alloc)?);
        Some(Pair {
            alph: Shard::new(alloc, alph, one, KeyedRing::derived()),
            beta: Shard::new(alloc, beta, other, KeyedRing::derived()),
        })
    }

    // A bill more in the diary of each, which is signed there.
    fn fill(&mut self, alloc: Global, number: u32) -> Option<()> {
        sign(alloc, &mut self.alph, "ALPH/CARRIER", "ALCO", number)?;
        sign(alloc, &mut self.beta, "BETA/CARRIER", "BECO", number)?;
        Some(())
    }

    // The bill of this number, by so many requests: it is signed, issued, endorsed and transferred at ALPH, received
    // at BETA, and settled at ALPH. None where one of them isn't done.
    fn row(&mut self, alloc: Global, number: u32, requests: u32) -> Option<()> {
        if requests == 0 {
            return Some(());
        }
        let bill = sign(alloc, &mut self.alph, "ALPH/CARRIER", "ALCO", number)?;
        let sent = part(alloc, &mut self.alph, bill, requests - 1)?;
        if requests < 5 {
            drop(sent);
            return Some(());
        }
        let answer = receive(alloc, &mut self.beta, sent)?;
        if requests < 6 {
            return Some(());
        }
        settle(alloc, &mut self.alph, bill, answer)
    }
}

fn sign(
    alloc: Global,
    shard: &mut Shard<KeyedRing>,
    by: &str,
    carrier: &str,
    number: u32,
) -> Option<Checksum> {
    let (view, sent) = ask(alloc, shard, by, signing(alloc, carrier, number))?;
    drop(sent);
    Some(view.bill)
}

// So many of the three commands behind the signing, and what the last one of them sends.
fn part(
    alloc: Global,
    alph: &mut Shard<KeyedRing>,
    bill: Checksum,
    commands: u32,
) -> Option<MessageList> {
    let mut sent = MessageList::new(alloc);
    for &(word, by, to) in ACTS.iter().take(commands as usize) {
        drop(sent);
        let (_, more) = ask(alloc, alph, by, acting(alloc, bill, word, to))?;
        sent = more;
    }
    Some(sent)
}

// The start comes to BETA, and is received there; its answer.
fn receive(alloc: Global, beta: &mut Shard<KeyedRing>, sent: MessageList) -> Option<ByteList> {
    let body = body_in(sent)?;
    let Some(now) = Moment::try_new(2000) else {
        return None;
    };
    let outcome = beta.take(alloc, now, Request::Start { body });
    let answer = received(alloc, &outcome.reply);
    drop(outcome);
    answer
}

fn received(alloc: Global, reply: &Reply) -> Option<ByteList> {
    match reply {
        Reply::Answer { response, text } => match response.code {
            Code::Received => ByteList::from_slice(alloc, text.0.as_slice()).ok(),
            _ => None,
        },
        _ => None,
    }
}

// The answer comes to ALPH, which has the bill no more.
fn settle(
    alloc: Global,
    alph: &mut Shard<KeyedRing>,
    bill: Checksum,
    bytes: ByteList,
) -> Option<()> {
    let Some(now) = Moment::try_new(3000) else {
        return None;
    };
    let (view, sent) = done(alph.take(alloc, now, Request::StartReply { bill, bytes }))?;
    drop(sent);
    match view.place {
        PlaceTag::Gone => Some(()),
        _ => None,
    }
}

// What comes of a party's command at a shard, if there is a command and it is done.
fn ask(
    alloc: Global,
    shard: &mut Shard<KeyedRing>,
    by: &str,
    command: Option<Command>,
) -> Option<(View, MessageList)>
    requires form { IfSome command (λ command. IsCommand (command_view command)) }
    requires nests { IfSome command (λ command. Nests (command_view command)) }
{
    let party = Party::from_text(by.as_bytes())?;
    let now = Moment::try_new(1000)?;
    let command = command?;
    if !shard.has_attempts(&command) {
        drop(command);
        return None;
    }
    done(shard.take(alloc, now, Request::Command { party, command }))
}
