//! Events as they are read.
ghost use Rattle.std.specs.Prelude.{◌≡◌, ◌≢◌, Ok, IfOk, IfErr, IfSome};
ghost use Rattle.canonical_json.specs.Lawful.{IsLawful, HasTexts};
ghost use Rattle.canonical_json.specs.View.{view};
ghost use Rattle.ebl_base.specs.Moment.{IsMoment};
ghost use Rattle.ebl_base.specs.declared.kind.Kind.TheVariants as kinds;
ghost use Rattle.upload_state.specs.Reference.{IsReference};
ghost use Rattle.world_script.specs.Event.{deed_view, event_view, foreign_view};
ghost use Rattle.world_script.specs.Form.{IsBillName, IsDeed, IsEvent, IsForeign};
ghost use Rattle.world_script.specs.Reading.{IsFault, act_of, attachment_of, command_of, deed_by, deed_of, deed_under, delivery_of, event_of, finish_of, finish_reply_of, foreign_of, foreign_under, has, moment_at, named_bill, named_reference, numbered, put_of, question_of, resend_of, restart_of, showing_of, signing_of, start_of, start_reply_of};

use crate::deed::{BillName, Deed};
use crate::event::Event;
use crate::fault::EventFault;
use crate::foreign::Foreign;
use canonical_json::{Json, flag_of, member_of, text_of};
use ebl_base::{
    CharList, Copied, Kind, MAX_DOCUMENT_MEDIA, MAX_DOCUMENT_NAME, MAX_WHOLE_NUMBER, Moment,
    Reference,
};
use envelope_manifest::required_plain_text;
use json_forms::{
    optional_party, platform_in, required_bytes, required_checksum, required_number,
    required_party, required_platform,
};
use std::alloc::Global;
use upload_state::reference_from;

impl Event {
    /// The event that a line's value is, by the first of these marks that is a member of it: `do`, `deliver`,
    /// `restart`, `resend`, `ask`, `foreign`, `show`. Further members are ignored.
    ///
    /// [`EventFault::EventForm`] if and only if it has none of them, or a member of that event is absent or malformed.
    /// Whether a platform is one of the script's roster isn't asked. Documents and texts are copied; bytes are decoded
    /// once, in time linear in their text.
    pub fn read(alloc: Global, json: &Json) -> Result<Event, EventFault>
        ensures ok { IfOk result (λ event. event_of (view json.now) ≡ Ok (event_view event)) }
        ensures form { IfOk result (λ event. IsLawful (view json.now) → HasTexts (view json.now)
            → IsEvent (event_view event)) }
        ensures err { IfErr result (IsFault (event_of (view json.now))) }
    {
        if has(json, "do") {
            read_command(alloc, json)
        } else if has(json, "deliver") {
            read_delivery(json)
        } else if has(json, "restart") {
            read_restart(json)
        } else if has(json, "resend") {
            read_resend(json)
        } else if has(json, "ask") {
            read_question(json)
        } else if has(json, "foreign") {
            read_foreign(alloc, json)
        } else if has(json, "show") {
            read_showing(json)
        } else {
            Err(EventFault::EventForm)
        }
    }
}

// Whether a member has this name.
fn has(json: &Json, name: &str) -> bool
    ensures { result ≡ has name.now (view json.now) }
{
    member_of(json, name).is_some()
}

// ---- members

fn numbered(json: &Json, name: &str) -> Option<u64>
    ensures { result ≡ numbered name.now (view json.now) }
{
    required_number(json, name, 1, MAX_WHOLE_NUMBER)
}

fn named_bill(json: &Json) -> Option<BillName>
    ensures value { result ≡ named_bill (view json.now) }
    ensures form { IfSome result IsBillName }
{
    if let Some(number) = numbered(json, "bill") {
        return Some(BillName::Number(number));
    }
    match required_checksum(json, "bill") {
        Some(name) => Some(BillName::Name(name)),
        None => None,
    }
}

fn named_reference(json: &Json) -> Option<Reference>
    ensures value { result ≡ named_reference (view json.now) }
    ensures form { IfSome result IsReference }
{
    reference_from(text_of(json, "reference")?.as_str().as_bytes())
}

fn moment_at(json: &Json) -> Option<Moment>
    ensures value { result ≡ moment_at (view json.now) }
    ensures form { IfSome result IsMoment }
{
    if !has(json, "now") {
        return Moment::try_new(0);
    }
    Moment::try_new(required_number(json, "now", 0, MAX_WHOLE_NUMBER)?)
}

// ---- commands

fn read_command(alloc: Global, json: &Json) -> Result<Event, EventFault>
    ensures ok { IfOk result (λ event. command_of (view json.now) ≡ Ok (event_view event)) }
    ensures form { IfOk result (λ event. IsLawful (view json.now) → HasTexts (view json.now)
        → IsEvent (event_view event)) }
    ensures err { IfErr result (IsFault (command_of (view json.now))) }
{
    let Some(at) = required_platform(json, "at") else {
        return Err(EventFault::EventForm);
    };
    let Some(party) = required_party(json, "party") else {
        return Err(EventFault::EventForm);
    };
    let Some(now) = moment_at(json) else {
        return Err(EventFault::EventForm);
    };
    let deed = read_deed(alloc, json)?;
    Ok(Event::Command {
        at,
        party,
        now,
        deed,
    })
}

fn read_deed(alloc: Global, json: &Json) -> Result<Deed, EventFault>
    ensures ok { IfOk result (λ deed. deed_of (view json.now) ≡ Ok (deed_view deed)) }
    ensures form { IfOk result (λ deed. IsLawful (view json.now) → HasTexts (view json.now) → IsDeed (deed_view deed)) }
    ensures err { IfErr result (IsFault (deed_of (view json.now))) }
{
    match text_of(json, "do") {
        Some(word) => read_deed_under(alloc, word.as_str(), json),
        None => Err(EventFault::EventForm),
    }
}

fn read_deed_under(alloc: Global, word: &str, json: &Json) -> Result<Deed, EventFault>
    ensures ok { IfOk result (λ deed. deed_under word.now (view json.now) ≡ Ok (deed_view deed)) }
    ensures form { IfOk result (λ deed. IsLawful (view json.now) → HasTexts (view json.now) → IsDeed (deed_view deed)) }
    ensures err { IfErr result (IsFault (deed_under word.now (view json.now))) }
{
    if word == "ATTACH" {
        return read_attachment(alloc, json);
    }
    match Kind::from_text(word.as_bytes()) {
        Some(kind) => read_deed_by(alloc, kind, json),
        None => Err(EventFault::EventForm),
    }
}

fn read_deed_by(alloc: Global, kind: Kind, json: &Json) -> Result<Deed, EventFault>
    ensures ok { IfOk result (λ deed. deed_by kind (view json.now) ≡ Ok (deed_view deed)) }
    ensures form { IfOk result (λ deed. IsLawful (view json.now) → HasTexts (view json.now) → IsDeed (deed_view deed)) }
    ensures err { IfErr result (IsFault (deed_by kind (view json.now))) }
{
    match kind {
        Kind::Sign => read_signing(alloc, json),
        Kind::Issue
        | Kind::Endorse
        | Kind::Transfer
        | Kind::SurrenderForDelivery
        | Kind::SurrenderForAmendment
        | Kind::SurrenderAccepted
        | Kind::SurrenderRefused => read_act(kind, json),
    }
}

fn read_signing(alloc: Global, json: &Json) -> Result<Deed, EventFault>
    ensures ok { IfOk result (λ deed. signing_of (view json.now) ≡ Ok (deed_view deed)) }
    ensures form { IfOk result (λ deed. IsLawful (view json.now) → HasTexts (view json.now) → IsDeed (deed_view deed)) }
    ensures err { IfErr result (IsFault (signing_of (view json.now))) }
{
    let Some(document) = member_of(json, "document") else {
        return Err(EventFault::EventForm);
    };
    let document = document.copy(alloc)?;
    Ok(Deed::Sign { document })
}

fn read_act(kind: Kind, json: &Json) -> Result<Deed, EventFault>
    ensures ok { IfOk result (λ deed. act_of kind (view json.now) ≡ Ok (deed_view deed)) }
    ensures form { kind ≢ kinds.Sign → IfOk result (λ deed. IsDeed (deed_view deed)) }
    ensures err { IfErr result (IsFault (act_of kind (view json.now))) }
{
    let Some(bill) = named_bill(json) else {
        return Err(EventFault::EventForm);
    };
    let Ok(recipient) = optional_party(json, "recipient") else {
        return Err(EventFault::EventForm);
    };
    Ok(Deed::Act {
        bill,
        kind,
        recipient,
    })
}

fn read_attachment(alloc: Global, json: &Json) -> Result<Deed, EventFault>
    ensures ok { IfOk result (λ deed. attachment_of (view json.now) ≡ Ok (deed_view deed)) }
    ensures form { IfOk result (λ deed. IsDeed (deed_view deed)) }
    ensures err { IfErr result (IsFault (attachment_of (view json.now))) }
{
    let Some(bill) = named_bill(json) else {
        return Err(EventFault::EventForm);
    };
    let Some(name) = required_plain_text(json, "name", MAX_DOCUMENT_NAME) else {
        return Err(EventFault::EventForm);
    };
    let Some(media) = required_plain_text(json, "media", MAX_DOCUMENT_MEDIA) else {
        return Err(EventFault::EventForm);
    };
    let Some(bytes) = required_bytes(alloc, json, "bytes")? else {
        return Err(EventFault::EventForm);
    };
    let name = CharList::from_text(alloc, name)?;
    let media = CharList::from_text(alloc, media)?;
    Ok(Deed::Attach {
        bill,
        name,
        media,
        bytes,
    })
}

// ---- bytes from outside

fn read_foreign(alloc: Global, json: &Json) -> Result<Event, EventFault>
    ensures ok { IfOk result (λ event. foreign_of (view json.now) ≡ Ok (event_view event)) }
    ensures form { IfOk result (λ event. HasTexts (view json.now) → IsEvent (event_view event)) }
    ensures err { IfErr result (IsFault (foreign_of (view json.now))) }
{
    let Some(at) = required_platform(json, "at") else {
        return Err(EventFault::EventForm);
    };
    let Some(word) = text_of(json, "foreign") else {
        return Err(EventFault::EventForm);
    };
    let bytes = read_foreign_under(alloc, word.as_str(), json)?;
    Ok(Event::Foreign { at, bytes })
}

fn read_foreign_under(alloc: Global, word: &str, json: &Json) -> Result<Foreign, EventFault>
    ensures ok { IfOk result (λ foreign. foreign_under word.now (view json.now) ≡ Ok (foreign_view foreign)) }
    ensures form { IfOk result (λ foreign. HasTexts (view json.now) → IsForeign (foreign_view foreign)) }
    ensures err { IfErr result (IsFault (foreign_under word.now (view json.now))) }
{
    if word == "START" {
        read_start(alloc, json)
    } else if word == "PUT" {
        read_put(alloc, json)
    } else if word == "FINISH" {
        read_finish(json)
    } else if word == "START_REPLY" {
        read_start_reply(alloc, json)
    } else if word == "FINISH_REPLY" {
        read_finish_reply(alloc, json)
    } else {
        Err(EventFault::EventForm)
    }
}

fn read_start(alloc: Global, json: &Json) -> Result<Foreign, EventFault>
    ensures ok { IfOk result (λ foreign. start_of (view json.now) ≡ Ok (foreign_view foreign)) }
    ensures form { IfOk result (λ foreign. HasTexts (view json.now) → IsForeign (foreign_view foreign)) }
    ensures err { IfErr result (IsFault (start_of (view json.now))) }
{
    let Some(body) = text_of(json, "body") else {
        return Err(EventFault::EventForm);
    };
    let body = body.copy(alloc)?;
    Ok(Foreign::Start { body })
}

fn read_put(alloc: Global, json: &Json) -> Result<Foreign, EventFault>
    ensures ok { IfOk result (λ foreign. put_of (view json.now) ≡ Ok (foreign_view foreign)) }
    ensures form { IfOk result (λ foreign. IsForeign (foreign_view foreign)) }
    ensures err { IfErr result (IsFault (put_of (view json.now))) }
{
    let Some(reference) = named_reference(json) else {
        return Err(EventFault::EventForm);
    };
    let Some(checksum) = required_checksum(json, "checksum") else {
        return Err(EventFault::EventForm);
    };
    let Some(bytes) = required_bytes(alloc, json, "bytes")? else {
        return Err(EventFault::EventForm);
    };
    Ok(Foreign::Put {
        reference,
        checksum,
        bytes,
    })
}

fn read_finish(json: &Json) -> Result<Foreign, EventFault>
    ensures ok { IfOk result (λ foreign. finish_of (view json.now) ≡ Ok (foreign_view foreign)) }
    ensures form { IfOk result (λ foreign. IsForeign (foreign_view foreign)) }
    ensures err { IfErr result (IsFault (finish_of (view json.now))) }
{
    match named_reference(json) {
        Some(reference) => Ok(Foreign::Finish { reference }),
        None => Err(EventFault::EventForm),
    }
}

fn read_start_reply(alloc: Global, json: &Json) -> Result<Foreign, EventFault>
    ensures ok { IfOk result (λ foreign. start_reply_of (view json.now) ≡ Ok (foreign_view foreign)) }
    ensures form { IfOk result (λ foreign. HasTexts (view json.now) → IsForeign (foreign_view foreign)) }
    ensures err { IfErr result (IsFault (start_reply_of (view json.now))) }
{
    let Some(bill) = named_bill(json) else {
        return Err(EventFault::EventForm);
    };
    let Some(text) = text_of(json, "text") else {
        return Err(EventFault::EventForm);
    };
    let text = text.copy(alloc)?;
    Ok(Foreign::StartReply { bill, text })
}

fn read_finish_reply(alloc: Global, json: &Json) -> Result<Foreign, EventFault>
    ensures ok { IfOk result (λ foreign. finish_reply_of (view json.now) ≡ Ok (foreign_view foreign)) }
    ensures form { IfOk result (λ foreign. HasTexts (view json.now) → IsForeign (foreign_view foreign)) }
    ensures err { IfErr result (IsFault (finish_reply_of (view json.now))) }
{
    let Some(bill) = named_bill(json) else {
        return Err(EventFault::EventForm);
    };
    let Some(text) = text_of(json, "text") else {
        return Err(EventFault::EventForm);
    };
    let text = text.copy(alloc)?;
    Ok(Foreign::FinishReply { bill, text })
}

// ---- the other events

fn read_delivery(json: &Json) -> Result<Event, EventFault>
    ensures ok { IfOk result (λ event. delivery_of (view json.now) ≡ Ok (event_view event)) }
    ensures form { IfOk result (λ event. IsEvent (event_view event)) }
    ensures err { IfErr result (IsFault (delivery_of (view json.now))) }
{
    let Some(number) = numbered(json, "deliver") else {
        return Err(EventFault::EventForm);
    };
    let Some(at) = member_of(json, "at") else {
        return Ok(Event::Deliver { number, at: None });
    };
    match platform_in(at) {
        Some(at) => Ok(Event::Deliver {
            number,
            at: Some(at),
        }),
        None => Err(EventFault::EventForm),
    }
}

fn read_restart(json: &Json) -> Result<Event, EventFault>
    ensures ok { IfOk result (λ event. restart_of (view json.now) ≡ Ok (event_view event)) }
    ensures form { IfOk result (λ event. IsEvent (event_view event)) }
    ensures err { IfErr result (IsFault (restart_of (view json.now))) }
{
    match required_platform(json, "restart") {
        Some(at) => Ok(Event::Restart { at }),
        None => Err(EventFault::EventForm),
    }
}

fn read_resend(json: &Json) -> Result<Event, EventFault>
    ensures ok { IfOk result (λ event. resend_of (view json.now) ≡ Ok (event_view event)) }
    ensures form { IfOk result (λ event. IsEvent (event_view event)) }
    ensures err { IfErr result (IsFault (resend_of (view json.now))) }
{
    let Some(true) = flag_of(json, "resend") else {
        return Err(EventFault::EventForm);
    };
    let Some(at) = required_platform(json, "at") else {
        return Err(EventFault::EventForm);
    };
    let Some(bill) = named_bill(json) else {
        return Err(EventFault::EventForm);
    };
    Ok(Event::Resend { at, bill })
}

fn read_question(json: &Json) -> Result<Event, EventFault>
    ensures ok { IfOk result (λ event. question_of (view json.now) ≡ Ok (event_view event)) }
    ensures form { IfOk result (λ event. IsEvent (event_view event)) }
    ensures err { IfErr result (IsFault (question_of (view json.now))) }
{
    let Some(true) = flag_of(json, "ask") else {
        return Err(EventFault::EventForm);
    };
    let Some(at) = required_platform(json, "at") else {
        return Err(EventFault::EventForm);
    };
    let Some(bill) = named_bill(json) else {
        return Err(EventFault::EventForm);
    };
    Ok(Event::Ask { at, bill })
}

fn read_showing(json: &Json) -> Result<Event, EventFault>
    ensures ok { IfOk result (λ event. showing_of (view json.now) ≡ Ok (event_view event)) }
    ensures form { IfOk result (λ event. IsEvent (event_view event)) }
    ensures err { IfErr result (IsFault (showing_of (view json.now))) }
{
    match numbered(json, "show") {
        Some(number) => Ok(Event::Show { number }),
        None => Err(EventFault::EventForm),
    }
}
