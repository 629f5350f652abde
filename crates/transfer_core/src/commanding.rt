//! What a party's command comes to.
ghost use Rattle.std.specs.Prelude.{◌≡◌, ◌≢◌, ◌≤◌, List, [], Err, Some, IfOk, length};
ghost use Rattle.ebl_base.specs.declared.limits.TheConstants.{MAX_SIGNED_TEXT};
ghost use Rattle.ebl_base.specs.Faults.{Rose};
ghost use Rattle.chain_entry.specs.Form.{IsEntry};
ghost use Rattle.envelope_manifest.specs.Manifest.{AreDocuments, IsManifest};
ghost use Rattle.holder_commands.specs.Command.{CommandRecord, command_view};
ghost use Rattle.pint_responses.specs.declared.fault.SealFault.TheVariants.{Sign};
ghost use Rattle.ebl_base.specs.declared.signature.Signature.{Signature};
ghost use Rattle.canonical_json.specs.Canon.{canon};
ghost use Rattle.canonical_json.specs.Lawful.{IsLawful};
ghost use Rattle.canonical_json.specs.View.{view};
ghost use Rattle.signed_envelope.specs.KeyRing.{Keys};
ghost use Rattle.signed_envelope.specs.SignedText.{IsComposed};
ghost use Rattle.bill_diary.specs.declared.frame.Frame.{Frame};
ghost use Rattle.bill_diary.specs.declared.frame.Frame.TheVariants.{One};
ghost use Rattle.bill_diary.specs.History.{bill_of, history, newest_first};
ghost use Rattle.bill_diary.specs.Place.{place_of};
ghost use Rattle.bill_diary.specs.Sound.{IsSound};
ghost use Rattle.transfer_judge.specs.Plan.{HasAttempts, IsRefusal, Plan, plan_of};
ghost use Rattle.transfer_judge.specs.PlannedTexts.{IsHandedIn, IsListed};
ghost use Rattle.platform_machine.specs.Commanding.{FollowsPlan, IsParted, IsSignedEntry, IsSignedManifest, IsThere, PartsWith, SendsStartWith, StepsAtCommand};
ghost use Rattle.platform_machine.specs.Step.{IsDone};
ghost use Rattle.transfer_core.specs.Decision.{step_by};
ghost use Rattle.transfer_core.specs.Held.{IsHeld};

use crate::decision::{Decision, done, done_with, only_reply};
use crate::transfer::start_message;
use bill_diary::Record;
use canonical_json::Json;
use chain_entry::encode as entry_json;
use document_checksum::checksum;
use ebl_base::{
    ChainLink, Checksum, Entry, Items, MAX_SIGNED_TEXT, Moment, NoMemory, Party, PlatformCode,
    SignedText,
};
use envelope_manifest::{Manifest, PieceList, encode as manifest_json};
use holder_commands::Command;
use party_roster::Roster;
use pint_responses::SealFault;
use platform_machine::held_bill_has_its_document;
use platform_requests::{MessageList, Reply};
use signed_envelope::{ComposeFault, KeyRing, compose};
use std::alloc::Global;
use title_register::{PlaceRef, Register};
use transfer_judge::{PlanRefusal, Planned, plan};

/// What a party's command comes to at a moment. Nothing is written yet.
///
/// The command is well-formed, and so are its party and the moment; the document that it signs nests at most 126 deep
/// (`canonical_json::nests_within`); of a bill on which it acts there are fewer than 4,294,967,295 Parted.
pub fn command<G: KeyRing>(
    alloc: Global,
    roster: &Roster,
    ring: &mut G,
    me: PlatformCode,
    register: &Register,
    now: Moment,
    party: Party,
    asked: &Command,
) -> Result<Decision, SealFault>
    requires sound { IsSound me register.now.diary }
    requires handed { IsHandedIn party (command_view asked.now) now }
    requires attempts { HasAttempts (command_view asked.now) (newest_first register.now.diary) }
    ensures ok { IfOk result (λ d. StepsAtCommand roster.now (G.keys ring.old) me register.now.diary now party
        (command_view asked.now) (step_by register.now.diary d)) }
    ensures sign { result ≡ Err Sign → Rose (G.faults ring.old) (G.faults ring.new) }
    ensures later { G.faults ring.old ≤ G.faults ring.new }
    ensures same { G.keys ring.new ≡ G.keys ring.old }
{
    match plan(alloc, register, roster, me, party, asked, now) {
        Ok(Planned::Nothing) => Ok(nothing(alloc, register, asked)),
        Ok(Planned::Add(written)) => Ok(add(alloc, written)),
        Ok(
            Planned::Part {
                entry,
                documents,
                to,
            },
        ) => part(alloc, ring, me, register, entry, documents, to),
        Err(refusal) => refuse(alloc, refusal),
    }
}

// A command that is refused: the refusal is the reply.
fn refuse(alloc: Global, refusal: PlanRefusal) -> Result<Decision, SealFault>
    ensures ok { (keys : Keys) (me : PlatformCode) (diary : List Frame) (command : CommandRecord) (plan : Plan)
        → IsRefusal plan refusal → IfOk result (λ d. FollowsPlan keys me diary command plan (step_by diary d)) }
    ensures no_sign { result ≢ Err Sign }
{
    let reply = match refusal {
        PlanRefusal::NotOurs => Reply::NotOurs,
        PlanRefusal::Document(fault) => Reply::Document(fault),
        PlanRefusal::NotCarrier => Reply::NotCarrier,
        PlanRefusal::KnownBill => Reply::KnownBill,
        PlanRefusal::NotHere(place) => Reply::NotHere(place),
        PlanRefusal::NoParty(party) => Reply::NoParty(party),
        PlanRefusal::NotAllowed(rule) => Reply::NotAllowed(rule),
        PlanRefusal::Limit(limit) => Reply::Limit(limit),
        PlanRefusal::NoMemory => return Err(SealFault::NoMemory),
    };
    Ok(only_reply(alloc, reply))
}

// An attachment whose bytes are there already: nothing is written.
fn nothing(alloc: Global, register: &Register, asked: &Command) -> Decision
    requires { IsListed (newest_first register.now.diary) (command_view asked.now) }
    ensures { IsThere register.now.diary (command_view asked.now) (step_by register.now.diary result) }
{
    match asked {
        Command::Attach { bill, .. } => done(*bill, Items::new(alloc)),
        Command::Sign { .. } | Command::Act { .. } => unreachable!(),
    }
}

// One record is written.
fn add(alloc: Global, written: Record) -> Decision
    ensures { (diary : List Frame) → IsDone (bill_of written) diary (Some (One written)) [] (step_by diary result) }
{
    let bill = written.bill();
    done_with(bill, written, Items::new(alloc))
}

// ---- an entry that moves the bill

// The entry and its manifest are signed, their Parted is written, and the start is sent.
fn part<G: KeyRing>(
    alloc: Global,
    ring: &mut G,
    me: PlatformCode,
    register: &Register,
    entry: Entry,
    documents: PieceList,
    to: PlatformCode,
) -> Result<Decision, SealFault>
    requires sound { IsSound me register.now.diary }
    requires held { IsHeld (place_of (history entry.bill register.now.diary)) }
    requires entry { IsEntry entry }
    requires documents { AreDocuments documents }
    ensures ok { IfOk result (λ d. IsParted (G.keys ring.old) me register.now.diary entry documents to
        (step_by register.now.diary d)) }
    ensures sign { result ≡ Err Sign → Rose (G.faults ring.old) (G.faults ring.new) }
    ensures later { G.faults ring.old ≤ G.faults ring.new }
    ensures same { G.keys ring.new ≡ G.keys ring.old }
{
    let bill = entry.bill;
    let link = signed_entry(alloc, ring, me, entry)?;
    let manifest = Manifest {
        bill,
        last: link.name,
        documents,
    };
    let text = signed_manifest(alloc, ring, me, &manifest)?;
    Ok(parted(alloc, me, register, link, manifest, text, to)?)
}

// The Parted of a signed entry is written, and its start is sent.
fn parted(
    alloc: Global,
    me: PlatformCode,
    register: &Register,
    link: ChainLink,
    manifest: Manifest,
    manifest_text: SignedText,
    to: PlatformCode,
) -> Result<Decision, NoMemory>
    requires sound { IsSound me register.now.diary }
    requires held { IsHeld (place_of (history manifest.bill register.now.diary)) }
    ensures { IfOk result (λ d. PartsWith register.now.diary link manifest manifest_text to
        (step_by register.now.diary d)) }
{
    let bill = manifest.bill;
    let messages = start_of(alloc, me, register, bill, &link, &manifest_text, to)?;
    let written = Record::Parted {
        bill,
        link,
        manifest,
        manifest_text,
    };
    Ok(done_with(bill, written, messages))
}

// The start of the known chain with the entry.
fn start_of(
    alloc: Global,
    me: PlatformCode,
    register: &Register,
    bill: Checksum,
    link: &ChainLink,
    manifest_text: &SignedText,
    to: PlatformCode,
) -> Result<MessageList, NoMemory>
    requires sound { IsSound me register.now.diary }
    requires held { IsHeld (place_of (history bill register.now.diary)) }
    ensures { IfOk result (SendsStartWith bill (history bill register.now.diary) link.now manifest_text.now to) }
{
    held_bill_has_its_document();
    let PlaceRef::Held { known, since: _ } = register.place(bill) else {
        unreachable!()
    };
    start_message(alloc, register, bill, known, link, manifest_text, to)
}

// The entry's text, signed, and its name.
fn signed_entry<G: KeyRing>(
    alloc: Global,
    ring: &mut G,
    me: PlatformCode,
    entry: Entry,
) -> Result<ChainLink, SealFault>
    requires { IsEntry entry }
    ensures ok { IfOk result (IsSignedEntry (G.keys ring.old) me entry) }
    ensures sign { result ≡ Err Sign → Rose (G.faults ring.old) (G.faults ring.new) }
    ensures later { G.faults ring.old ≤ G.faults ring.new }
    ensures same { G.keys ring.new ≡ G.keys ring.old }
{
    let payload = entry_json(alloc, &entry)?;
    let text = signed(alloc, ring, me, &payload)?;
    Ok(ChainLink {
        name: checksum(text.0.as_slice()),
        text,
        entry,
    })
}

// The manifest's text, signed.
fn signed_manifest<G: KeyRing>(
    alloc: Global,
    ring: &mut G,
    me: PlatformCode,
    manifest: &Manifest,
) -> Result<SignedText, SealFault>
    requires { IsManifest manifest.now }
    ensures ok { IfOk result (IsSignedManifest (G.keys ring.old) me manifest.now) }
    ensures sign { result ≡ Err Sign → Rose (G.faults ring.old) (G.faults ring.new) }
    ensures later { G.faults ring.old ≤ G.faults ring.new }
    ensures same { G.keys ring.new ≡ G.keys ring.old }
{
    let payload = manifest_json(alloc, manifest)?;
    signed(alloc, ring, me, &payload)
}

// A payload, signed within the limit: at most 9,000 bytes always fit.
fn signed<G: KeyRing>(
    alloc: Global,
    ring: &mut G,
    me: PlatformCode,
    payload: &Json,
) -> Result<SignedText, SealFault>
    requires lawful { IsLawful (view payload.now) }
    requires short { length (canon (view payload.now)) ≤ 9000 }
    ensures ok { IfOk result (λ text.
        (s : Signature) × IsComposed (G.keys ring.old) text.0 me (view payload.now) s) }
    ensures fits { IfOk result (λ text. length text.0 ≤ MAX_SIGNED_TEXT) }
    ensures sign { result ≡ Err Sign → Rose (G.faults ring.old) (G.faults ring.new) }
    ensures later { G.faults ring.old ≤ G.faults ring.new }
    ensures same { G.keys ring.new ≡ G.keys ring.old }
{
    match compose(alloc, ring, me, payload, MAX_SIGNED_TEXT) {
        Ok(text) => Ok(text),
        Err(ComposeFault::Sign) => Err(SealFault::Sign),
        Err(ComposeFault::TooLong) => unreachable!(),
        Err(ComposeFault::NoMemory) => Err(SealFault::NoMemory),
    }
}
