//! Events as they are written: without further members, the names in order.
ghost use Rattle.std.specs.Prelude.{◌≡◌, [], ◌∷◌, ◌++◌, IfOk, OnOk, codes, map};
ghost use Rattle.canonical_json.specs.Value.{object, text};
ghost use Rattle.canonical_json.specs.View.{member_view, members_view, view};
ghost use Rattle.json_forms.specs.Writing.{capped_value, party_value, platform_value};
ghost use Rattle.world_script.specs.Event.{deed_view, event_view, foreign_view, acts, asks, attaches, delivers, finishes, puts, resends, signs, starts};
ghost use Rattle.world_script.specs.Writing.{bill_value, command_value, event_value, foreign_value, moment_value, reply_value};

use crate::deed::{BillName, Deed};
use crate::event::Event;
use crate::foreign::Foreign;
use canonical_json::{Json, Member};
use ebl_base::{
    ByteList, CharList, Checksum, Kind, Moment, NoMemory, Party, PlatformCode, Reference,
};
use json_forms::{
    bytes_member, checksum_member, member, number_member, object_json, party_member, text_member,
};
use std::alloc::Global;
use upload_state::reference_member;

impl Event {
    /// The written form of the event, an object as [`Event::read`] takes it, with `now` in every command and a bill's
    /// number as a number. A document is copied. A number past 2^53 - 1 is written as that.
    pub fn write(&self, alloc: Global) -> Result<Json, NoMemory>
        ensures { IfOk result (λ json. view json ≡ event_value (event_view self.now)) }
    {
        let mut members = Vec::new(alloc);
        put_event(alloc, &mut members, self)?;
        Ok(object_json(members))
    }
}

// Each `put_` of a form below puts all members of its object into a list that is empty.

fn put_event(alloc: Global, members: &mut Vec<Member>, event: &Event) -> Result<(), NoMemory>
    requires empty { members.old.items ≡ [] }
    ensures { OnOk result (object (members_view members.new.items) ≡ event_value (event_view event.now)) }
{
    match event {
        Event::Command {
            at,
            party,
            now,
            deed,
        } => put_command(alloc, members, *at, *party, *now, deed),
        Event::Deliver { number, at } => put_delivery(alloc, members, *number, *at),
        Event::Restart { at } => put_platform(alloc, members, "restart", *at),
        Event::Resend { at, bill } => put_resend(alloc, members, *at, *bill),
        Event::Ask { at, bill } => put_question(alloc, members, *at, *bill),
        Event::Foreign { at, bytes } => put_foreign(alloc, members, *at, bytes),
        Event::Show { number } => put_number(alloc, members, "show", *number),
    }
}

fn put_delivery(
    alloc: Global,
    members: &mut Vec<Member>,
    number: u64,
    at: Option<PlatformCode>,
) -> Result<(), NoMemory>
    requires empty { members.old.items ≡ [] }
    ensures { OnOk result (object (members_view members.new.items) ≡ event_value (delivers number at)) }
{
    if let Some(at) = at {
        put_platform(alloc, members, "at", at)?;
    }
    put_number(alloc, members, "deliver", number)
}

fn put_resend(
    alloc: Global,
    members: &mut Vec<Member>,
    at: PlatformCode,
    bill: BillName,
) -> Result<(), NoMemory>
    requires empty { members.old.items ≡ [] }
    ensures { OnOk result (object (members_view members.new.items) ≡ event_value (resends at bill)) }
{
    put_at_bill(alloc, members, at, bill)?;
    members.push(member(alloc, "resend", Json::Flag(true))?)?;
    Ok(())
}

fn put_question(
    alloc: Global,
    members: &mut Vec<Member>,
    at: PlatformCode,
    bill: BillName,
) -> Result<(), NoMemory>
    requires empty { members.old.items ≡ [] }
    ensures { OnOk result (object (members_view members.new.items) ≡ event_value (asks at bill)) }
{
    members.push(member(alloc, "ask", Json::Flag(true))?)?;
    put_at_bill(alloc, members, at, bill)
}

// ---- commands

fn put_command(
    alloc: Global,
    members: &mut Vec<Member>,
    at: PlatformCode,
    party: Party,
    now: Moment,
    deed: &Deed,
) -> Result<(), NoMemory>
    requires empty { members.old.items ≡ [] }
    ensures { OnOk result (object (members_view members.new.items)
        ≡ command_value at party now (deed_view deed.now)) }
{
    match deed {
        Deed::Sign { document } => put_signing(alloc, members, at, party, now, document),
        Deed::Act {
            bill,
            kind,
            recipient,
        } => put_act(alloc, members, at, party, now, *bill, *kind, *recipient),
        Deed::Attach {
            bill,
            name,
            media,
            bytes,
        } => put_attachment(alloc, members, at, party, now, *bill, name, media, bytes),
    }
}

fn put_signing(
    alloc: Global,
    members: &mut Vec<Member>,
    at: PlatformCode,
    party: Party,
    now: Moment,
    document: &Json,
) -> Result<(), NoMemory>
    requires empty { members.old.items ≡ [] }
    ensures { OnOk result (object (members_view members.new.items)
        ≡ command_value at party now (signs (view document.now))) }
{
    put_platform(alloc, members, "at", at)?;
    put_text(alloc, members, "do", "SIGN")?;
    members.push(member(alloc, "document", document.copy(alloc)?)?)?;
    put_now_party(alloc, members, now, party)
}

fn put_act(
    alloc: Global,
    members: &mut Vec<Member>,
    at: PlatformCode,
    party: Party,
    now: Moment,
    bill: BillName,
    kind: Kind,
    recipient: Option<Party>,
) -> Result<(), NoMemory>
    requires empty { members.old.items ≡ [] }
    ensures { OnOk result (object (members_view members.new.items)
        ≡ command_value at party now (acts bill kind recipient)) }
{
    put_at_bill(alloc, members, at, bill)?;
    put_text(alloc, members, "do", kind.as_str())?;
    put_now_party(alloc, members, now, party)?;
    if let Some(recipient) = recipient {
        members.push(party_member(alloc, "recipient", recipient)?)?;
    }
    Ok(())
}

fn put_attachment(
    alloc: Global,
    members: &mut Vec<Member>,
    at: PlatformCode,
    party: Party,
    now: Moment,
    bill: BillName,
    name: &CharList,
    media: &CharList,
    bytes: &ByteList,
) -> Result<(), NoMemory>
    requires empty { members.old.items ≡ [] }
    ensures { OnOk result (object (members_view members.new.items)
        ≡ command_value at party now (attaches bill name.now media.now bytes.now)) }
{
    put_at_bill(alloc, members, at, bill)?;
    members.push(bytes_member(alloc, "bytes", bytes.as_slice())?)?;
    put_text(alloc, members, "do", "ATTACH")?;
    put_text(alloc, members, "media", media.as_str())?;
    put_text(alloc, members, "name", name.as_str())?;
    put_now_party(alloc, members, now, party)
}

// ---- bytes from outside

fn put_foreign(
    alloc: Global,
    members: &mut Vec<Member>,
    at: PlatformCode,
    bytes: &Foreign,
) -> Result<(), NoMemory>
    requires empty { members.old.items ≡ [] }
    ensures { OnOk result (object (members_view members.new.items) ≡ foreign_value at (foreign_view bytes.now)) }
{
    match bytes {
        Foreign::Start { body } => put_start(alloc, members, at, body),
        Foreign::Put {
            reference,
            checksum,
            bytes,
        } => put_document(alloc, members, at, *reference, *checksum, bytes),
        Foreign::Finish { reference } => put_finish(alloc, members, at, *reference),
        Foreign::StartReply { bill, text } => put_reply(
            alloc,
            members,
            at,
            "START_REPLY",
            *bill,
            text,
        ),
        Foreign::FinishReply { bill, text } => put_reply(
            alloc,
            members,
            at,
            "FINISH_REPLY",
            *bill,
            text,
        ),
    }
}

fn put_start(
    alloc: Global,
    members: &mut Vec<Member>,
    at: PlatformCode,
    body: &CharList,
) -> Result<(), NoMemory>
    requires empty { members.old.items ≡ [] }
    ensures { OnOk result (object (members_view members.new.items) ≡ foreign_value at (starts body.now)) }
{
    put_platform(alloc, members, "at", at)?;
    put_text(alloc, members, "body", body.as_str())?;
    put_text(alloc, members, "foreign", "START")
}

fn put_document(
    alloc: Global,
    members: &mut Vec<Member>,
    at: PlatformCode,
    reference: Reference,
    checksum: Checksum,
    bytes: &ByteList,
) -> Result<(), NoMemory>
    requires empty { members.old.items ≡ [] }
    ensures { OnOk result (object (members_view members.new.items)
        ≡ foreign_value at (puts reference checksum bytes.now)) }
{
    put_platform(alloc, members, "at", at)?;
    members.push(bytes_member(alloc, "bytes", bytes.as_slice())?)?;
    members.push(checksum_member(alloc, "checksum", checksum)?)?;
    put_text(alloc, members, "foreign", "PUT")?;
    members.push(reference_member(alloc, reference)?)?;
    Ok(())
}

fn put_finish(
    alloc: Global,
    members: &mut Vec<Member>,
    at: PlatformCode,
    reference: Reference,
) -> Result<(), NoMemory>
    requires empty { members.old.items ≡ [] }
    ensures { OnOk result (object (members_view members.new.items) ≡ foreign_value at (finishes reference)) }
{
    put_platform(alloc, members, "at", at)?;
    put_text(alloc, members, "foreign", "FINISH")?;
    members.push(reference_member(alloc, reference)?)?;
    Ok(())
}

fn put_reply(
    alloc: Global,
    members: &mut Vec<Member>,
    at: PlatformCode,
    word: &str,
    bill: BillName,
    text: &CharList,
) -> Result<(), NoMemory>
    requires empty { members.old.items ≡ [] }
    ensures { OnOk result (object (members_view members.new.items) ≡ reply_value at word.now bill text.now) }
{
    put_at_bill(alloc, members, at, bill)?;
    put_text(alloc, members, "foreign", word)?;
    put_text(alloc, members, "text", text.as_str())
}

// ---- members behind what is there

fn put_text(
    alloc: Global,
    members: &mut Vec<Member>,
    name: &str,
    chars: &str,
) -> Result<(), NoMemory>
    ensures { OnOk result (map member_view members.new.items
        ≡ map member_view members.old.items ++ (name.now, text chars.now) ∷ []) }
{
    members.push(text_member(alloc, name, chars)?)?;
    Ok(())
}

fn put_number(
    alloc: Global,
    members: &mut Vec<Member>,
    name: &str,
    number: u64,
) -> Result<(), NoMemory>
    ensures { OnOk result (map member_view members.new.items
        ≡ map member_view members.old.items ++ (name.now, capped_value number) ∷ []) }
{
    members.push(number_member(alloc, name, number)?)?;
    Ok(())
}

fn put_platform(
    alloc: Global,
    members: &mut Vec<Member>,
    name: &str,
    platform: PlatformCode,
) -> Result<(), NoMemory>
    ensures { OnOk result (map member_view members.new.items
        ≡ map member_view members.old.items ++ (name.now, platform_value platform) ∷ []) }
{
    put_text(alloc, members, name, platform.as_str())
}

fn put_at_bill(
    alloc: Global,
    members: &mut Vec<Member>,
    at: PlatformCode,
    bill: BillName,
) -> Result<(), NoMemory>
    ensures { OnOk result (map member_view members.new.items
        ≡ map member_view members.old.items ++ (codes "at", platform_value at) ∷ (codes "bill", bill_value bill) ∷ []) }
{
    put_platform(alloc, members, "at", at)?;
    members.push(bill_member(alloc, bill)?)?;
    Ok(())
}

fn put_now_party(
    alloc: Global,
    members: &mut Vec<Member>,
    now: Moment,
    party: Party,
) -> Result<(), NoMemory>
    ensures { OnOk result (map member_view members.new.items
        ≡ map member_view members.old.items ++ (codes "now", moment_value now) ∷ (codes "party", party_value party) ∷ []) }
{
    put_number(alloc, members, "now", now.number())?;
    members.push(party_member(alloc, "party", party)?)?;
    Ok(())
}

fn bill_member(alloc: Global, bill: BillName) -> Result<Member, NoMemory>
    ensures { IfOk result (λ m. member_view m ≡ (codes "bill", bill_value bill)) }
{
    match bill {
        BillName::Name(name) => checksum_member(alloc, "bill", name),
        BillName::Number(number) => number_member(alloc, "bill", number),
    }
}
