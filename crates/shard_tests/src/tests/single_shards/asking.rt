//! Shards, and what they are asked: rosters, parties, commands, and the body of a start.
ghost use Rattle.std.specs.Prelude.{IfOk};
ghost use Rattle.ebl_base.specs.Moment.{IsMoment};
ghost use Rattle.ebl_base.specs.Party.{IsParty};
ghost use Rattle.holder_commands.specs.Command.{command_view};
ghost use Rattle.holder_commands.specs.Form.{IsCommand};
ghost use Rattle.party_roster.specs.RosterForm.{IsRoster};
ghost use Rattle.transfer_judge.specs.PlannedTexts.{Nests};

use canonical_json::read;
use document_checksum::checksum;
use ebl_base::{ByteList, Copied, Moment, Party, PlatformCode, Reference};
use envelope_manifest::Body;
use holder_commands::Command;
use party_roster::Roster;
use platform_requests::{Desk, Message, Outcome, Request};
use signed_envelope::KeyRing;
use std::alloc::Global;
use std::fmt::Debug;
use std::process::Abort;
use std::test::Fail;
use test_signer::KeyedRing;
use transfer_core::Shard;

const ROSTER: &[u8] = br#"{
    "carriers":[{"code":"OCNL","party":"ALPH/CARRIER","provider":"NMFTA"}],
    "parties":["ALPH/CARRIER","ALPH/EXPORT","BETA/IMPORT"],
    "platforms":["ALPH","BETA"]
}"#;

// The document of the bill, as the one of a body.
const SIGNED: &[u8] = br#"{
    "chain":[],
    "document":{
        "carrierCode":"OCNL",
        "carrierCodeListProvider":"NMFTA",
        "isToOrder":true,
        "transportDocumentReference":"OCNL0000001",
        "transportDocumentTypeCode":"BOL"
    },
    "manifest":""
}"#;

// The SHA-256 checksum of the document's canonical text, by sha256sum of GNU coreutils.
const BILL: &str = "542fe9ce054c1f484751231f6d4e2ea1b57b5cc8e11d531525d1296ddd157e14";

/// ALPH and BETA, with the bill's carrier.
pub(crate) fn roster(alloc: Global) -> Result<Roster, Fail>
    ensures { IfOk result (λ roster. IsRoster roster) }
{
    let json = read(alloc, ROSTER)?;
    Ok(Roster::read(alloc, &json)?)
}

/// The platform of this code.
pub(crate) fn platform(code: &str) -> Result<PlatformCode, Fail> {
    Ok(PlatformCode::try_new(code.as_bytes()).ok_or("a code")?)
}

fn party(text: &str) -> Result<Party, Fail>
    ensures { IfOk result (λ party. IsParty party) }
{
    match Party::from_text(text.as_bytes()) {
        Some(party) => Ok(party),
        None => Err("a party".into()),
    }
}

fn moment(number: u64) -> Result<Moment, Fail>
    ensures { IfOk result (λ now. IsMoment now) }
{
    match Moment::try_new(number) {
        Some(now) => Ok(now),
        None => Err("a moment".into()),
    }
}

// The SIGN of the bill's document.
fn signing(alloc: Global) -> Result<Command, Fail>
    ensures form { IfOk result (λ c. IsCommand (command_view c)) }
    ensures nests { IfOk result (λ c. Nests (command_view c)) }
{
    let Body { document, .. } = Body::read(alloc, SIGNED)?;
    Ok(Command::Sign { document })
}

fn command(alloc: Global, text: &[u8]) -> Result<Command, Fail>
    ensures { IfOk result (λ c. IsCommand (command_view c)) }
{
    let json = read(alloc, text)?;
    Ok(Command::read(alloc, &json)?)
}

// The act of this kind on the bill, for a recipient.
fn act_for(alloc: Global, word: &str, to: &str) -> Result<Command, Fail>
    ensures form { IfOk result (λ c. IsCommand (command_view c)) }
    ensures nests { IfOk result (λ c. Nests (command_view c)) }
{
    let text = format!(in alloc;
        "{{\"bill\":\"{BILL}\",\"do\":\"{word}\",\"recipient\":\"{to}\"}}"
    )?;
    act_of(command(alloc, text.as_bytes())?)
}

// A command that is an act.
fn act_of(command: Command) -> Result<Command, Fail>
    requires { IsCommand (command_view command) }
    ensures form { IfOk result (λ c. IsCommand (command_view c)) }
    ensures nests { IfOk result (λ c. Nests (command_view c)) }
{
    match command {
        Command::Act {
            bill,
            kind,
            recipient,
        } => Ok(Command::Act {
            bill,
            kind,
            recipient,
        }),
        other => {
            drop(other);
            Err("an act".into())
        }
    }
}

// The attachment of a document of three bytes.
fn attachment(alloc: Global) -> Result<Command, Fail>
    ensures form { IfOk result (λ c. IsCommand (command_view c)) }
    ensures nests { IfOk result (λ c. Nests (command_view c)) }
{
    let text = format!(in alloc;
        "{{\"bill\":\"{BILL}\",\"bytes\":\"YWJj\",\"do\":\"ATTACH\",\"media\":\"text/plain\",\"name\":\"list\"}}"
    )?;
    attachment_of(command(alloc, text.as_bytes())?)
}

// A command that is an attachment.
fn attachment_of(command: Command) -> Result<Command, Fail>
    requires { IsCommand (command_view command) }
    ensures form { IfOk result (λ c. IsCommand (command_view c)) }
    ensures nests { IfOk result (λ c. Nests (command_view c)) }
{
    match command {
        Command::Attach {
            bill,
            name,
            media,
            bytes,
        } => Ok(Command::Attach {
            bill,
            name,
            media,
            bytes,
        }),
        other => {
            drop(other);
            Err("an attachment".into())
        }
    }
}

// A party that asks, and when.
fn asking(by: &str) -> Result<(Party, Moment), Fail>
    ensures party { IfOk result (λ r. IsParty r.0) }
    ensures moment { IfOk result (λ r. IsMoment r.1) }
{
    Ok((party(by)?, moment(1000)?))
}

// A party asks a shard of its platform.
fn asks<G: KeyRing>(
    shard: &mut Shard<G>,
    alloc: Global,
    by: &str,
    command: Command,
) -> Result<Outcome, Fail>
    requires form { IsCommand (command_view command) }
    requires nests { Nests (command_view command) }
{
    let (party, now) = match asking(by) {
        Ok(asking) => asking,
        Err(fail) => {
            drop(command);
            return Err(fail);
        }
    };
    if !shard.has_attempts(&command) {
        drop(command);
        return Err("too many attempts".into());
    }
    Ok(shard.take(alloc, now, Request::Command { party, command }))
}

/// Who acts on the bill, in which kind, and for whom.
pub(crate) type Act = (&'static str, &'static str, &'static str);

/// The bill is issued.
pub(crate) const ISSUE: Act = ("ALPH/CARRIER", "ISSUE", "ALPH/EXPORT");

/// It is endorsed to whom it is for.
pub(crate) const ENDORSE: Act = ("ALPH/EXPORT", "ENDORSE", "BETA/IMPORT");

/// It is sent to BETA.
pub(crate) const SEND: Act = ("ALPH/EXPORT", "TRANSFER", "BETA/IMPORT");

/// A party of ALPH acts on the bill.
pub(crate) fn acts<G: KeyRing>(
    alloc: Global,
    shard: &mut Shard<G>,
    (by, word, to): Act,
) -> Result<Outcome, Fail> {
    let command = act_for(alloc, word, to)?;
    asks(shard, alloc, by, command)
}

/// The carrier signs the bill.
pub(crate) fn sign<G: KeyRing>(alloc: Global, shard: &mut Shard<G>) -> Result<(), Fail> {
    drop(asks(shard, alloc, "ALPH/CARRIER", signing(alloc)?)?);
    Ok(())
}

/// A start with this body comes to a shard.
pub(crate) fn starts<G: KeyRing>(
    alloc: Global,
    shard: &mut Shard<G>,
    body: &[u8],
) -> Result<Outcome, Fail> {
    let (now, body) = (moment(2000)?, ByteList::from_slice(alloc, body)?);
    Ok(shard.take(alloc, now, Request::Start { body }))
}

/// The same start comes to a desk.
pub(crate) fn starts_at<D: Desk>(
    alloc: Global,
    desk: &mut D,
    body: &[u8],
) -> Result<Outcome, Fail> {
    let (now, body) = (moment(2000)?, ByteList::from_slice(alloc, body)?);
    Ok(desk.take(alloc, now, Request::Start { body }))
}

/// A document of these bytes comes to a shard, under its checksum.
pub(crate) fn puts<G: KeyRing>(
    alloc: Global,
    shard: &mut Shard<G>,
    reference: Reference,
    bytes: &[u8],
) -> Result<Outcome, Fail> {
    let (now, checksum) = (moment(3000)?, checksum(bytes));
    let bytes = ByteList::from_slice(alloc, bytes)?;
    Ok(shard.take(
        alloc,
        now,
        Request::Put {
            reference,
            checksum,
            bytes,
        },
    ))
}

// The body of the start that was sent, and nothing else.
fn body_of(alloc: Global, outcome: &Outcome) -> Result<ByteList, Fail> {
    match outcome.messages.as_slice().last() {
        Some(Message::Start { body, .. }) => Ok(body.copy(alloc)?),
        _ => Err("a start".into()),
    }
}

fn sends<G: KeyRing>(alloc: Global, shard: &mut Shard<G>) -> Result<ByteList, Fail> {
    let outcome = acts(alloc, shard, SEND)?;
    let body = body_of(alloc, &outcome);
    drop(outcome);
    body
}

/// A shard of a platform, with the test signer's keys.
pub(crate) fn keyed(alloc: Global, code: &str) -> Result<Shard<KeyedRing>, Fail> {
    let (me, roster) = (platform(code)?, roster(alloc)?);
    Ok(Shard::new(alloc, me, roster, KeyedRing::derived()))
}

/// The body of the start by which ALPH sends the bill to BETA after these acts.
pub(crate) fn sent_after(alloc: Global, before: &[Act]) -> Result<ByteList, Fail> {
    let mut shard = keyed(alloc, "ALPH")?;
    let sent = sends_after(alloc, &mut shard, before);
    drop(shard);
    sent
}

fn sends_after(
    alloc: Global,
    shard: &mut Shard<KeyedRing>,
    before: &[Act],
) -> Result<ByteList, Fail> {
    sign(alloc, shard)?;
    for act in before {
        drop(acts(alloc, shard, *act)?);
    }
    sends(alloc, shard)
}

/// The same where the three bytes `abc` are attached.
pub(crate) fn sent_with_document(alloc: Global) -> Result<ByteList, Fail> {
    let mut shard = keyed(alloc, "ALPH")?;
    let sent = sends_with_document(alloc, &mut shard);
    drop(shard);
    sent
}

fn sends_with_document(alloc: Global, shard: &mut Shard<KeyedRing>) -> Result<ByteList, Fail> {
    sign(alloc, shard)?;
    drop(acts(alloc, shard, ISSUE)?);
    attaches(alloc, shard)?;
    sends(alloc, shard)
}

fn attaches(alloc: Global, shard: &mut Shard<KeyedRing>) -> Result<(), Fail> {
    drop(asks(shard, alloc, "ALPH/EXPORT", attachment(alloc)?)?);
    Ok(())
}

// What was seen is what was expected.
fn same<R: Abort, T: Copy + Debug + PartialEq>(rt: &R, seen: T, expected: T) {
    assert_eq!(rt; seen, expected);
}

/// Asserts the reply, how many messages are sent, and how many frames stand in the diary.
pub(crate) fn comes_to<R: Abort, G: KeyRing>(
    rt: &R,
    shard: &Shard<G>,
    outcome: Outcome,
    (reply, messages, frames): (&str, usize, usize),
) {
    let (word, sent) = (outcome.reply.as_str(), outcome.messages.as_slice().len());
    drop(outcome);
    same(rt, word, reply);
    same(rt, sent, messages);
    same(rt, shard.diary().as_slice().len(), frames);
}
