//! Runs of a shard of ALPH or BETA on a disk in memory: what is asked of it one after the other, and what is seen.
ghost use Rattle.std.specs.Prelude.{◌≡◌, IfSome, List, false};
ghost use Rattle.bill_diary.specs.declared.frame.Frame.{Frame};
ghost use Rattle.disk_model.specs.Disk.{Only};
ghost use Rattle.ebl_base.specs.declared.moment.Moment.{Moment};
ghost use Rattle.holder_commands.specs.Command.{command_view};
ghost use Rattle.holder_commands.specs.Form.{IsCommand};
ghost use Rattle.holder_commands.specs.Reading.{begins_a_bill};
ghost use Rattle.platform_machine.specs.Machine.{MayBeAsked};
ghost use Rattle.platform_requests.specs.Request.{request_view};
ghost use Rattle.transfer_judge.specs.PlannedTexts.{Nests};

use bill_journal::OpenFault;
use disk_model::{Disk, Failures, MemoryDisk};
use ebl_base::{ByteList, CallList, Kind, Moment, Party, PlatformCode};
use holder_commands::Command;
use journaled_shard::JournaledShard;
use platform_requests::{Message, Outcome, Reply, Request};
use sample_bills::{acting, bill, roster, signing};
use std::alloc::Global;
use test_signer::KeyedRing;

type Shard = JournaledShard<MemoryDisk, KeyedRing>;

/// The journal of a diary without frames.
pub(crate) const NO_FRAMES: &[u8] = &[1, 0];

/// A platform's disk: its bytes, the calls that fail, counted from 0, and the writes among them that leave their bytes.
/// The opening of a shard is the calls 0, 1 and 2.
#[derive(Clone, Copy)]
pub(crate) struct Place<'a> {
    pub(crate) code: &'static str,
    pub(crate) bytes: &'a [u8],
    pub(crate) fails: &'a [u64],
    pub(crate) written: &'a [u64],
}

impl<'a> Place<'a> {
    /// The disk of which no call fails.
    pub(crate) fn sound(code: &'static str, bytes: &'a [u8]) -> Self {
        Place {
            code,
            bytes,
            fails: &[],
            written: &[],
        }
    }
}

/// What comes to a shard. All but a signing is about the bill 1.
#[derive(Clone, Copy)]
pub(crate) enum Ask<'a> {
    /// The carrier asks to sign the bill of this number.
    Sign(u32),
    /// The carrier asks to issue the bill to ALPH/EXPORT.
    Issue,
    /// The first party asks to hand the bill over to the second.
    HandOver(&'static str, &'static str),
    /// The start with this body.
    Start(&'a [u8]),
    /// This answer to its start.
    Answer(&'a [u8]),
    /// How the bill is.
    How,
    /// The journal is to be read again.
    Reopen,
}

/// What is seen of a shard once it was asked.
#[derive(Clone, Copy)]
pub(crate) struct Seen {
    /// The word of the reply.
    pub(crate) word: &'static str,
    /// How many messages are sent.
    pub(crate) sent: usize,
    /// How many frames the diary has.
    pub(crate) frames: usize,
    /// Whether the journal is to be read again.
    pub(crate) unread: bool,
    /// Whether the possessor of the bill may act.
    pub(crate) may_act: bool,
}

/// What was seen in a run.
#[derive(Drop)]
pub(crate) struct Run {
    /// How many frames the diary had at first.
    pub(crate) opened: usize,
    /// What was seen once each thing was asked.
    pub(crate) seen: Vec<Seen>,
    /// The text of the last message or signed answer that was given: a start's body, or the answer's text.
    pub(crate) text: ByteList,
    /// The bytes on the disk at the end.
    pub(crate) bytes: ByteList,
}

impl Run {
    /// The text.
    pub(crate) fn into_text(self) -> ByteList {
        self.text
    }

    /// The bytes.
    pub(crate) fn into_bytes(self) -> ByteList {
        self.bytes
    }
}

fn failures(alloc: Global, place: Place<'_>) -> Option<Failures> {
    let calls = CallList::from_slice(alloc, place.fails).ok()?;
    let written = CallList::from_slice(alloc, place.written).ok()?;
    Some(Failures { calls, written })
}

fn disk(alloc: Global, place: Place<'_>) -> Option<MemoryDisk>
    ensures { IfSome result (λ disk. Only (⟦<MemoryDisk as Disk>⟧.seen disk)
        (⟦<MemoryDisk as Disk>⟧.may_leave disk)) }
{
    let bytes = ByteList::from_slice(alloc, place.bytes).ok()?;
    MemoryDisk::new(alloc, bytes, failures(alloc, place)?).ok()
}

// What comes of the opening of a shard.
type Opening = Result<Shard, (MemoryDisk, KeyedRing, OpenFault)>;

fn open(alloc: Global, place: Place<'_>) -> Option<Opening> {
    let me = PlatformCode::try_new(place.code.as_bytes())?;
    let roster = roster(alloc)?;
    match disk(alloc, place) {
        Some(disk) => Some(JournaledShard::open(alloc, me, roster, disk, KeyedRing::derived())),
        None => {
            drop(roster);
            None
        }
    }
}

/// Why a shard isn't opened; none where it is.
pub(crate) fn fault(alloc: Global, place: Place<'_>) -> Option<OpenFault> {
    let opening = open(alloc, place);
    let fault = fault_in(&opening);
    drop(opening);
    fault
}

fn fault_in(opening: &Option<Opening>) -> Option<OpenFault> {
    match opening {
        Some(Err((_, _, fault))) => Some(*fault),
        _ => None,
    }
}

fn asks(alloc: Global, shard: &mut Shard, by: &str, command: Command) -> Option<Outcome>
    requires form { IsCommand (command_view command) }
    requires nests { Nests (command_view command) }
{
    let (Some(party), Some(now)) = (Party::from_text(by.as_bytes()), Moment::try_new(1000)) else {
        drop(command);
        return None;
    };
    if !shard.has_attempts(&command) {
        drop(command);
        return None;
    }
    Some(shard.take(alloc, now, Request::Command { party, command }))
}

// A party asks for a transaction on the bill.
fn acts(alloc: Global, shard: &mut Shard, by: &str, kind: Kind, to: &str) -> Option<Outcome>
    requires { begins_a_bill kind ≡ false }
{
    asks(alloc, shard, by, acting(bill(alloc, 1)?, kind, to)?)
}

// A request that holds no command comes.
fn takes(alloc: Global, shard: &mut Shard, request: Request) -> Option<Outcome>
    requires { (d : List Frame) (now : Moment) → MayBeAsked d now (request_view request) }
{
    match Moment::try_new(1000) {
        Some(now) => Some(shard.take(alloc, now, request)),
        None => {
            drop(request);
            None
        }
    }
}

fn starts(alloc: Global, shard: &mut Shard, body: &[u8]) -> Option<Outcome> {
    let body = ByteList::from_slice(alloc, body).ok()?;
    takes(alloc, shard, Request::Start { body })
}

fn is_answered(alloc: Global, shard: &mut Shard, bytes: &[u8]) -> Option<Outcome> {
    let bill = bill(alloc, 1)?;
    let bytes = ByteList::from_slice(alloc, bytes).ok()?;
    takes(alloc, shard, Request::StartReply { bill, bytes })
}

// What comes of a request.
fn outcome(alloc: Global, shard: &mut Shard, ask: Ask<'_>) -> Option<Outcome> {
    match ask {
        Ask::Sign(number) => asks(alloc, shard, "ALPH/CARRIER", signing(alloc, number)?),
        Ask::Issue => acts(alloc, shard, "ALPH/CARRIER", Kind::Issue, "ALPH/EXPORT"),
        Ask::HandOver(by, to) => acts(alloc, shard, by, Kind::Transfer, to),
        Ask::Start(body) => starts(alloc, shard, body),
        Ask::Answer(bytes) => is_answered(alloc, shard, bytes),
        _ => takes(
            alloc,
            shard,
            Request::Ask {
                bill: bill(alloc, 1)?,
            },
        ),
    }
}

// The text of the signed answer, or of the start that is sent last.
fn text_in(outcome: &Outcome) -> Option<&[u8]> {
    match &outcome.reply {
        Reply::Answer { text, .. } => Some(text.0.as_slice()),
        _ => match outcome.messages.as_slice().last() {
            Some(Message::Start { body, .. }) => Some(body.as_slice()),
            _ => None,
        },
    }
}

// The reply's word, and how many messages are sent; and the text, where one is given.
fn given(alloc: Global, outcome: &Outcome, text: &mut ByteList) -> Option<(&'static str, usize)> {
    if let Some(given) = text_in(outcome) {
        *text = ByteList::from_slice(alloc, given).ok()?;
    }
    Some((outcome.reply.as_str(), outcome.messages.as_slice().len()))
}

// The same of a request.
fn answers(
    alloc: Global,
    shard: &mut Shard,
    ask: Ask<'_>,
    text: &mut ByteList,
) -> Option<(&'static str, usize)> {
    let outcome = outcome(alloc, shard, ask);
    let given = match &outcome {
        Some(outcome) => given(alloc, outcome, text),
        None => None,
    };
    drop(outcome);
    given
}

fn reopens(alloc: Global, shard: &mut Shard) -> Option<(&'static str, usize)> {
    match shard.reopen(alloc) {
        Ok(()) => Some(("OPENED", 0)),
        Err(_) => None,
    }
}

fn serve(
    alloc: Global,
    shard: &mut Shard,
    ask: Ask<'_>,
    text: &mut ByteList,
) -> Option<(&'static str, usize)> {
    match ask {
        Ask::Reopen => reopens(alloc, shard),
        _ => answers(alloc, shard, ask, text),
    }
}

fn frames(shard: &Shard) -> usize {
    shard.diary().as_slice().len()
}

fn look(alloc: Global, shard: &Shard, word: &'static str, sent: usize) -> Option<Seen> {
    Some(Seen {
        word,
        sent,
        frames: frames(shard),
        unread: shard.is_unread(),
        may_act: shard.may_act(bill(alloc, 1)?),
    })
}

fn see(
    alloc: Global,
    shard: &Shard,
    (word, sent): (&'static str, usize),
    seen: &mut Vec<Seen>,
) -> Option<()> {
    seen.push(look(alloc, shard, word, sent)?).ok()
}

// Asks one thing more.
fn goes_on(alloc: Global, shard: &mut Shard, ask: Ask<'_>, run: &mut Run) -> Option<()> {
    let given = serve(alloc, shard, ask, &mut run.text)?;
    see(alloc, shard, given, &mut run.seen)
}

fn serve_all(alloc: Global, shard: &mut Shard, asks: &[Ask<'_>], run: &mut Run) -> Option<()> {
    run.opened = frames(shard);
    for ask in asks {
        goes_on(alloc, shard, *ask, run)?;
    }
    Some(())
}

fn bytes_of(alloc: Global, shard: Shard) -> Option<ByteList> {
    let closed = shard.close();
    let bytes = ByteList::from_slice(alloc, closed.0.bytes()).ok();
    drop(closed);
    bytes
}

// Asks all of a shard, and closes it.
fn runs_on(alloc: Global, mut shard: Shard, asks: &[Ask<'_>], run: &mut Run) -> Option<()> {
    let served = serve_all(alloc, &mut shard, asks, run);
    run.bytes = bytes_of(alloc, shard)?;
    served
}

fn runs(alloc: Global, place: Place<'_>, asks: &[Ask<'_>], run: &mut Run) -> Option<()> {
    match open(alloc, place) {
        Some(Ok(shard)) => runs_on(alloc, shard, asks, run),
        refused => {
            drop(refused);
            None
        }
    }
}

/// Opens a shard and asks all of this. None comes where it isn't opened or read again.
pub(crate) fn run_at(alloc: Global, place: Place<'_>, asks: &[Ask<'_>]) -> Option<Run> {
    let mut run = Run {
        opened: 0,
        seen: Vec::new(alloc),
        text: ByteList::new(alloc),
        bytes: ByteList::new(alloc),
    };
    runs(alloc, place, asks, &mut run)?;
    Some(run)
}
