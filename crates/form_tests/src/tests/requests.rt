//! The shard of each kind of request and what suits it, in tables as `making` has them, words of replies, and what the
//! desk in memory gives and keeps.
ghost use Rattle.platform_requests.specs.Desk.{MayAsk};
ghost use Rattle.platform_requests.specs.Request.{request_view};

use crate::tests::making::{Form, answer_made, assert_table, party, platform, same};
use canonical_json::read;
use ebl_base::{
    ByteList, Checksum, ChecksumList, Code, Copied, Evidence, Kind, Moment, NoMemory, Party,
    PlaceTag, PlatformCode, Reference, SharedBytes, SignedText,
};
use holder_commands::Command;
use pint_responses::Response;
use platform_requests::{
    Desk, IgnoreReason, KeptCall, MemoryDesk, Message, MessageList, Outcome, Reply, Request,
    shard_of, suits,
};
use std::alloc::Global;
use std::process::Abort;
use std::test::Fail;

fn bill(first: u8) -> Checksum {
    let mut bytes = [7; 32];
    bytes[0] = first;
    Checksum(bytes)
}

fn reference(first: u8) -> Reference {
    let mut bytes = [9; 16];
    bytes[0] = first;
    Reference(bytes)
}

fn start(alloc: Global, body: &str) -> Result<Request, Fail> {
    let body = ByteList::from_slice(alloc, body.as_bytes())?;
    Ok(Request::Start { body })
}

fn sign(alloc: Global, document: &str) -> Result<Request, Fail> {
    let party = party("ALPH/CARRIER")?;
    let document = read(alloc, document.as_bytes())?;
    let command = Command::Sign { document };
    Ok(Request::Command { party, command })
}

fn act(first: u8) -> Result<Request, Fail> {
    let party = party("ALPH/CARRIER")?;
    let command = Command::Act {
        bill: bill(first),
        kind: Kind::Transfer,
        recipient: None,
    };
    Ok(Request::Command { party, command })
}

fn put(alloc: Global, first: u8) -> Request {
    Request::Put {
        reference: reference(first),
        checksum: bill(0x03),
        bytes: ByteList::new(alloc),
    }
}

fn start_reply(alloc: Global, first: u8) -> Request
    ensures { MayAsk (request_view result) }
{
    Request::StartReply {
        bill: bill(first),
        bytes: ByteList::new(alloc),
    }
}

fn finish_reply(alloc: Global, first: u8) -> Request
    ensures { MayAsk (request_view result) }
{
    Request::FinishReply {
        bill: bill(first),
        bytes: ByteList::new(alloc),
    }
}

// A request that is told by a kind and a document, a body, or the first byte of a name or of a reference.
fn request(alloc: Global, text: &str) -> Result<Request, Fail> {
    let (kind, rest) = text.split_once(' ').ok_or("a kind of request")?;
    match kind {
        "start" => start(alloc, rest),
        "sign" => sign(alloc, rest),
        _ => short_request(alloc, kind, u8::from_str_radix(rest, 16)?),
    }
}

fn short_request(alloc: Global, kind: &str, first: u8) -> Result<Request, Fail> {
    match kind {
        "act" => act(first),
        "put" => Ok(put(alloc, first)),
        "start_reply" => Ok(start_reply(alloc, first)),
        "finish_reply" => Ok(finish_reply(alloc, first)),
        _ => question(kind, first),
    }
}

fn question(kind: &str, first: u8) -> Result<Request, Fail> {
    match kind {
        "finish" => Ok(Request::Finish {
            reference: reference(first),
        }),
        "resend" => Ok(Request::Resend { bill: bill(first) }),
        "ask" => Ok(Request::Ask { bill: bill(first) }),
        _ => Err("a kind of request".into()),
    }
}

struct Shards;

impl Form for Shards {
    fn answer(alloc: Global, text: &[u8]) -> Result<ByteList, Fail> {
        let request = request(alloc, std::str::from_utf8(text)?)?;
        let shards = both_shards(alloc, &request);
        drop(request);
        let (shard, again) = shards?;
        answer_made(alloc, format!(in alloc; "{shard} {again}"))
    }
}

// The shard of a request, and that of its copy.
fn both_shards(alloc: Global, request: &Request) -> Result<(u32, u32), NoMemory> {
    let shard = shard_of(alloc, request)?;
    let copy = request.copy(alloc)?;
    let again = shard_of(alloc, &copy);
    drop(copy);
    Ok((shard, again?))
}

// A start and a SIGN go by their document, others by their bill or by their reference: that of the Finish begins as
// 447816bf-8f01-cfea-4141-40de5dae2223 does. The SHA-256 checksum of the document, by sha256sum of GNU coreutils,
// begins with byte 0x54. A start that isn't read goes to shard 0.
const SHARDS: &str = r#"
start {'chain':[],'document':{'carrierCode':'OCNL','carrierCodeListProvider':'NMFTA','isToOrder':true,'transportDocumentReference':'OCNL0000001','transportDocumentTypeCode':'BOL'},'manifest':''} | 4 4
start { | 0 0
start  | 0 0
start [] | 0 0
start {'chain':[],'document':{},'manifest':''} | 0 0
start {'carrierCode':'OCNL','carrierCodeListProvider':'NMFTA','isToOrder':true,'transportDocumentReference':'OCNL0000001','transportDocumentTypeCode':'BOL'} | 0 0
sign {'carrierCode':'OCNL','carrierCodeListProvider':'NMFTA','isToOrder':true,'transportDocumentReference':'OCNL0000001','transportDocumentTypeCode':'BOL'} | 4 4
sign null | 0 0
act 2b | 11 11
finish 44 | 4 4
put 1f | 15 15
start_reply 10 | 0 0
finish_reply 01 | 1 1
resend ff | 15 15
ask fe | 14 14
"#;

#[test]
fn requests_go_to_their_shards(rt: HostRuntime) -> Result<(), Fail> {
    assert_table::<Shards, _>(&rt, SHARDS)
}

fn answer(alloc: Global, code: Code) -> Reply {
    let response = Response {
        code,
        bill: None,
        last: None,
        standing: true,
        reason: None,
        missing: ChecksumList::new(alloc),
        evidence: Evidence {
            own: None,
            theirs: None,
        },
    };
    Reply::Answer {
        response,
        text: SignedText(SharedBytes::new()),
    }
}

fn copied_answer(alloc: Global, code: Code) -> Result<Reply, NoMemory> {
    let reply = answer(alloc, code);
    let copy = reply.copy(alloc);
    drop(reply);
    copy
}

fn assert_word(rt: &impl Abort, reply: Reply, want: &str) {
    same(rt, "word", reply.as_str(), want);
    drop(reply);
}

#[test]
fn words_of_replies(rt: HostRuntime) -> Result<(), Fail> {
    let copy = copied_answer(rt.alloc(), Code::DisputedEnvelope)?;
    assert_word(&rt, copy, "DISE");
    assert_word(&rt, Reply::NotHere(PlaceTag::Gone), "NOT_HERE");
    assert_word(&rt, Reply::Ignored(IgnoreReason::OtherEntry), "IGNORED");
    same(
        &rt,
        "word",
        IgnoreReason::OtherEntry.as_str(),
        "OTHER_ENTRY",
    );
    Ok(())
}

fn put_message(alloc: Global, to: PlatformCode) -> Message {
    Message::Put {
        to,
        bill: bill(1),
        reference: reference(1),
        checksum: bill(2),
        bytes: ByteList::new(alloc),
    }
}

fn finish_message(to: PlatformCode) -> Message {
    Message::Finish {
        to,
        bill: bill(1),
        reference: reference(1),
    }
}

fn start_message(alloc: Global, to: PlatformCode) -> Message {
    Message::Start {
        to,
        bill: bill(1),
        body: ByteList::new(alloc),
    }
}

// So many Puts, and a Finish after them.
fn puts(alloc: Global, to: PlatformCode, count: usize) -> Result<MessageList, NoMemory> {
    let mut messages = MessageList::new(alloc);
    for _ in 0..count {
        messages.push(put_message(alloc, to))?;
    }
    messages.push(finish_message(to))?;
    Ok(messages)
}

fn stored(alloc: Global, count: usize) -> Result<Outcome, Fail> {
    let to = platform("BETA")?;
    let messages = puts(alloc, to, count)?;
    Ok(Outcome {
        reply: Reply::Stored,
        messages,
    })
}

// One Start.
fn started_again(alloc: Global) -> Result<Outcome, Fail> {
    let to = platform("BETA")?;
    let mut messages = MessageList::new(alloc);
    messages.push(start_message(alloc, to))?;
    Ok(Outcome {
        reply: Reply::Stored,
        messages,
    })
}

fn started(alloc: Global) -> Outcome {
    Outcome {
        reply: Reply::Started {
            reference: reference(1),
            missing: ChecksumList::new(alloc),
        },
        messages: MessageList::new(alloc),
    }
}

// An outcome: so many Puts and a Finish, one Start, or that an upload has started.
fn outcome(alloc: Global, text: &str) -> Result<Outcome, Fail> {
    match text {
        "start" => started_again(alloc),
        "started" => Ok(started(alloc)),
        _ => stored(alloc, text.parse()?),
    }
}

// Whether an outcome, and its copy, suits a request.
struct Suited;

impl Form for Suited {
    fn answer(alloc: Global, text: &[u8]) -> Result<ByteList, Fail> {
        let text = std::str::from_utf8(text)?;
        let (asked, came) = text.split_once(" / ").ok_or("an outcome")?;
        let outcome = outcome(alloc, came)?;
        let suited = both_suited(alloc, asked, &outcome);
        drop(outcome);
        let (first, again) = suited?;
        answer_made(alloc, format!(in alloc; "{first} {again}"))
    }
}

fn both_suited(alloc: Global, asked: &str, outcome: &Outcome) -> Result<(bool, bool), Fail> {
    let first = is_suited(alloc, asked, outcome)?;
    let copy = outcome.copy(alloc)?;
    let again = is_suited(alloc, asked, &copy);
    drop(copy);
    Ok((first, again?))
}

fn is_suited(alloc: Global, asked: &str, outcome: &Outcome) -> Result<bool, Fail> {
    let request = request(alloc, asked)?;
    let may = suits(&request, outcome);
    drop(request);
    Ok(may)
}

const SUITED: &str = r#"
start_reply 01 / 0 | true true
start_reply 01 / 16 | true true
start_reply 01 / 17 | false false
finish_reply 01 / 0 | false false
resend 01 / 0 | false false
// Whatever comes of a question suits it.
ask 01 / 17 | true true
resend 01 / start | true true
// What has started names documents.
ask 01 / started | false false
"#;

#[test]
fn outcomes_suit_their_requests(rt: HostRuntime) -> Result<(), Fail> {
    assert_table::<Suited, _>(&rt, SUITED)
}

// The one party that the desk knows.
fn importers(alloc: Global) -> Result<Vec<Party>, Fail> {
    let party = party("BETA/IMPORT")?;
    Ok(Vec::from_slice(alloc, &[party])?)
}

// One outcome: a Finish.
fn outcomes(alloc: Global) -> Result<Vec<Outcome>, Fail> {
    let outcome = stored(alloc, 0)?;
    let mut outcomes = Vec::new(alloc);
    outcomes.push(outcome)?;
    Ok(outcomes)
}

fn desk(alloc: Global) -> Result<MemoryDesk, Fail> {
    let parties = importers(alloc)?;
    let outcomes = outcomes(alloc)?;
    Ok(MemoryDesk::new(alloc, outcomes, parties))
}

fn moment() -> Result<Moment, Fail> {
    Ok(Moment::try_new(5).ok_or("a moment")?)
}

// How many messages come of a request.
fn taken(alloc: Global, desk: &mut MemoryDesk, now: Moment, request: Request) -> usize
    requires { MayAsk (request_view request) }
{
    let outcome = desk.take(alloc, now, request);
    let count = outcome.messages.len();
    drop(outcome);
    count
}

// One message comes of a reply to a start, and none of one to a finish.
fn takes_start_reply(rt: &impl Abort, alloc: Global, desk: &mut MemoryDesk) -> Result<(), Fail> {
    let now = moment()?;
    let count = taken(alloc, desk, now, start_reply(alloc, 1));
    same(rt, "messages of a start", count, 1);
    Ok(())
}

fn takes_finish_reply(rt: &impl Abort, alloc: Global, desk: &mut MemoryDesk) -> Result<(), Fail> {
    let now = moment()?;
    let count = taken(alloc, desk, now, finish_reply(alloc, 1));
    same(rt, "messages of a finish", count, 0);
    Ok(())
}

fn assert_calls(rt: &impl Abort, calls: &[KeptCall]) {
    let [first, second] = calls else {
        panic!(rt; "two calls, and not {}", calls.len());
    };
    same(rt, "messages", first.outcome.messages.len(), 1);
    same(rt, "moment", second.now.number(), 5);
}

fn assert_kept(rt: &impl Abort, desk: &MemoryDesk) -> Result<(), Fail> {
    let calls = desk.calls().ok_or("kept calls")?;
    assert_calls(rt, calls);
    Ok(())
}

fn gives_and_keeps(rt: &impl Abort, alloc: Global, desk: &mut MemoryDesk) -> Result<(), Fail> {
    assert_parties(rt, desk)?;
    takes_start_reply(rt, alloc, desk)?;
    takes_finish_reply(rt, alloc, desk)?;
    assert_kept(rt, desk)
}

fn assert_parties(rt: &impl Abort, desk: &MemoryDesk) -> Result<(), Fail> {
    let import = party("BETA/IMPORT")?;
    let other = party("BETA/OTHER")?;
    same(rt, "import", desk.knows(import), true);
    same(rt, "other", desk.knows(other), false);
    Ok(())
}

#[test]
fn a_desk_in_memory_gives_and_keeps(rt: HostRuntime) -> Result<(), Fail> {
    let mut desk = desk(rt.alloc())?;
    let kept = gives_and_keeps(&rt, rt.alloc(), &mut desk);
    drop(desk);
    kept
}

#[test]
fn an_outcome_that_does_not_suit_is_not_given(rt: HostRuntime) -> Result<(), Fail> {
    let mut desk = desk(rt.alloc())?;
    let taken = takes_finish_reply(&rt, rt.alloc(), &mut desk);
    drop(desk);
    taken
}
