//! Planning: what a party's command comes to.
ghost use Rattle.std.specs.Prelude.{◌≡◌, ◌↔◌, ◌<◌, IsTrue, IfOk, IfErr, Ok, count_by};
ghost use Rattle.canonical_json.specs.View.{view};
ghost use Rattle.bill_diary.specs.declared.bill_place.BillPlace.TheVariants.{Held};
ghost use Rattle.bill_diary.specs.History.{history, newest_first};
ghost use Rattle.bill_diary.specs.Place.{place_of};
ghost use Rattle.bill_diary.specs.Sound.{is_parted};
ghost use Rattle.holder_commands.specs.Command.{command_view};
ghost use Rattle.transfer_judge.specs.Plan.{HasAttempts, IsRefusal, entry_by, plan_act, plan_attach, plan_attachment, plan_held, plan_move, plan_of, plan_sign};

use crate::plan_cases::{attach_refusal, last_name, missing_party, plan_bytes, plan_stay};
use crate::planned::{PlanRefusal, Planned};
use bill_diary::Record;
use canonical_json::Json;
use ebl_base::{
    ByteList, Chain, CharList, Checksum, Copied, Entry, Items, Kind, LimitKind, MAX_CHAIN_ENTRIES,
    MAX_DOCUMENT_SIZE, MAX_ENTRY_TRANSACTIONS, Moment, NoMemory, Party, PlatformCode, Transaction,
    TransactionList,
};
use envelope_manifest::Piece;
use holder_commands::Command;
use party_roster::Roster;
use std::alloc::Global;
use title_fold::{Title, apply, moves, possessor};
use title_register::{PlaceRef, Register};
use transport_document::{Document, DocumentFault};

/// Whether one attempt more can be counted, where a command may make one: what [`plan`] needs.
pub fn has_attempts(register: &Register, command: &Command) -> bool
    ensures { IsTrue result ↔ HasAttempts (command_view command.now) (newest_first register.now.diary) }
{
    match command {
        Command::Act { bill, .. } => register.partings(*bill) < u32::MAX as usize,
        Command::Sign { .. } | Command::Attach { .. } => true,
    }
}

/// What a party's command comes to at a moment, by the diary of the platform's register: the first of the refusals of
/// [`PlanRefusal`] that applies, in their order; or one record, an entry that moves the bill to another platform, or
/// nothing.
///
/// `me` is the platform. A SIGN adds a Signed, any other transaction that stays here an Acted, an attachment an
/// Attached; one whose bytes are listed for the bill already comes to nothing. A transaction on a bill needs that it
/// was parted fewer than 4,294,967,295 times ([`has_attempts`]).
///
/// It folds nothing but the one transaction, and goes over no record. The bytes of an attachment are hashed once, and
/// copied where they are added.
pub fn plan(
    alloc: Global,
    register: &Register,
    roster: &Roster,
    me: PlatformCode,
    party: Party,
    command: &Command,
    now: Moment,
) -> Result<Planned, PlanRefusal>
    requires { HasAttempts (command_view command.now) (newest_first register.now.diary) }
    ensures ok { IfOk result (λ planned.
        plan_of roster.now me (newest_first register.now.diary) party (command_view command.now) now ≡ Ok planned) }
    ensures err { IfErr result (IsRefusal
        (plan_of roster.now me (newest_first register.now.diary) party (command_view command.now) now)) }
{
    if party.platform != me {
        return Err(PlanRefusal::NotOurs);
    }
    match command {
        Command::Sign { document } => plan_sign(alloc, register, roster, party, now, document),
        Command::Act {
            bill,
            kind,
            recipient,
        } => {
            let t = Transaction {
                kind: *kind,
                actor: party,
                recipient: *recipient,
                time: now,
            };
            plan_act(alloc, register, roster, me, *bill, t)
        }
        Command::Attach {
            bill,
            name,
            media,
            bytes,
        } => plan_attach(alloc, register, *bill, party, name, media, bytes),
    }
}

// ---- a document

fn plan_sign(
    alloc: Global,
    register: &Register,
    roster: &Roster,
    party: Party,
    now: Moment,
    document: &Json,
) -> Result<Planned, PlanRefusal>
    ensures ok { IfOk result (λ planned.
        plan_sign roster.now (newest_first register.now.diary) party now (view document.now) ≡ Ok planned) }
    ensures err { IfErr result (IsRefusal
        (plan_sign roster.now (newest_first register.now.diary) party now (view document.now))) }
{
    let document = match Document::of_json(alloc, document) {
        Ok(document) => document,
        Err(DocumentFault::NoMemory) => return Err(PlanRefusal::NoMemory),
        Err(fault) => return Err(PlanRefusal::Document(fault)),
    };
    if roster.carrier(document.provider(), document.code()) != Some(party) {
        return Err(PlanRefusal::NotCarrier);
    }
    let bill = document.bill();
    match register.place(bill) {
        PlaceRef::Absent => Ok(Planned::Add(Record::Signed {
            bill,
            document: document.text().copy(alloc)?,
            transaction: Transaction {
                kind: Kind::Sign,
                actor: party,
                recipient: None,
                time: now,
            },
        })),
        _ => Err(PlanRefusal::KnownBill),
    }
}

// ---- a transaction

fn plan_act(
    alloc: Global,
    register: &Register,
    roster: &Roster,
    me: PlatformCode,
    bill: Checksum,
    t: Transaction,
) -> Result<Planned, PlanRefusal>
    requires { count_by is_parted (history bill register.now.diary) < 4294967295 }
    ensures ok { IfOk result (λ planned.
        plan_act roster.now me (history bill register.now.diary) bill t ≡ Ok planned) }
    ensures err { IfErr result (IsRefusal (plan_act roster.now me (history bill register.now.diary) bill t)) }
{
    match register.place(bill) {
        PlaceRef::Held { known, since } => plan_held(
            alloc, register, roster, me, bill, t, known, since,
        ),
        _ => Err(PlanRefusal::NotHere(register.tag(bill))),
    }
}

// A transaction on a bill that is held.
fn plan_held(
    alloc: Global,
    register: &Register,
    roster: &Roster,
    me: PlatformCode,
    bill: Checksum,
    t: Transaction,
    known: &Chain,
    since: &TransactionList,
) -> Result<Planned, PlanRefusal>
    requires attempts { count_by is_parted (history bill register.now.diary) < 4294967295 }
    requires held { place_of (history bill register.now.diary) ≡ Held known.now since.now }
    ensures ok { IfOk result (λ planned.
        plan_held roster.now me (history bill register.now.diary) bill t known.now since.now ≡ Ok planned) }
    ensures err { IfErr result (IsRefusal
        (plan_held roster.now me (history bill register.now.diary) bill t known.now since.now)) }
{
    let before = match register.title(bill) {
        Ok(title) => title,
        Err(rule) => return Err(PlanRefusal::NotAllowed(rule)),
    };
    if let Some(party) = missing_party(roster, me, before, t.kind, t.recipient) {
        return Err(PlanRefusal::NoParty(party));
    }
    let after = match apply(before, &t) {
        Ok(after) => after,
        Err(rule) => return Err(PlanRefusal::NotAllowed(rule)),
    };
    if moves(before, after) {
        plan_move(alloc, register, me, bill, known, since, t, after)
    } else {
        plan_stay(bill, since, t)
    }
}

// A transaction that moves possession to another platform.
fn plan_move(
    alloc: Global,
    register: &Register,
    me: PlatformCode,
    bill: Checksum,
    known: &Chain,
    since: &TransactionList,
    t: Transaction,
    after: Title,
) -> Result<Planned, PlanRefusal>
    requires { count_by is_parted (history bill register.now.diary) < 4294967295 }
    ensures ok { IfOk result (λ planned.
        plan_move me bill (history bill register.now.diary) known.now since.now t after ≡ Ok planned) }
    ensures err { IfErr result (IsRefusal
        (plan_move me bill (history bill register.now.diary) known.now since.now t after)) }
{
    if known.len() >= MAX_CHAIN_ENTRIES {
        return Err(PlanRefusal::Limit(LimitKind::Entries));
    }
    if since.len() >= MAX_ENTRY_TRANSACTIONS {
        return Err(PlanRefusal::Limit(LimitKind::Transactions));
    }
    Ok(Planned::Part {
        entry: entry_by(alloc, register, me, bill, known, since, t)?,
        documents: Items::from_vec(Piece::copy_all(alloc, register.pieces(bill))?),
        to: possessor(after).platform,
    })
}

// The next attempt to part with the bill.
fn entry_by(
    alloc: Global,
    register: &Register,
    me: PlatformCode,
    bill: Checksum,
    known: &Chain,
    since: &TransactionList,
    t: Transaction,
) -> Result<Entry, NoMemory>
    requires { count_by is_parted (history bill register.now.diary) < 4294967295 }
    ensures { IfOk result (λ entry.
        entry ≡ entry_by me bill (history bill register.now.diary) known.now since.now t) }
{
    let mut transactions = since.copy(alloc)?;
    transactions.push(t)?;
    Ok(Entry {
        platform: me,
        bill,
        previous: last_name(known),
        attempt: register.partings(bill) as u32 + 1,
        transactions,
    })
}

// ---- an attachment

fn plan_attach(
    alloc: Global,
    register: &Register,
    bill: Checksum,
    party: Party,
    name: &CharList,
    media: &CharList,
    bytes: &ByteList,
) -> Result<Planned, PlanRefusal>
    ensures ok { IfOk result (λ planned.
        plan_attach (history bill register.now.diary) bill party name.now media.now bytes.now ≡ Ok planned) }
    ensures err { IfErr result (IsRefusal
        (plan_attach (history bill register.now.diary) bill party name.now media.now bytes.now)) }
{
    match register.place(bill) {
        PlaceRef::Held { known, since } => plan_attachment(
            alloc, register, bill, party, name, media, bytes, known, since,
        ),
        _ => Err(PlanRefusal::NotHere(register.tag(bill))),
    }
}

// An attachment to a bill that is held.
fn plan_attachment(
    alloc: Global,
    register: &Register,
    bill: Checksum,
    party: Party,
    name: &CharList,
    media: &CharList,
    bytes: &ByteList,
    known: &Chain,
    since: &TransactionList,
) -> Result<Planned, PlanRefusal>
    requires { place_of (history bill register.now.diary) ≡ Held known.now since.now }
    ensures ok { IfOk result (λ planned. plan_attachment
        (history bill register.now.diary) bill party name.now media.now bytes.now known.now since.now ≡ Ok planned) }
    ensures err { IfErr result (IsRefusal (plan_attachment
        (history bill register.now.diary) bill party name.now media.now bytes.now known.now since.now)) }
{
    let title = match register.title(bill) {
        Ok(title) => title,
        Err(rule) => return Err(PlanRefusal::NotAllowed(rule)),
    };
    if let Some(rule) = attach_refusal(title, party) {
        return Err(PlanRefusal::NotAllowed(rule));
    }
    if bytes.len() > MAX_DOCUMENT_SIZE as usize {
        return Err(PlanRefusal::Limit(LimitKind::DocumentSize));
    }
    plan_bytes(alloc, bill, register.pieces(bill), name, media, bytes)
}
