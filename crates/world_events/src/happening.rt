//! What an event comes to before any platform is asked.
ghost use Rattle.std.specs.Prelude.{◌≡◌, IfOk, Some, option_copied};
ghost use Rattle.world_script.specs.Event.{deed_view, event_view, foreign_view};
ghost use Rattle.world_events.specs.Happening.{asks, at_command, at_delivery, at_foreign, at_show, bill_named, comes_to, delivered_to, happening_view, numbered, request_in};
ghost use Rattle.platform_requests.specs.Request.{request_view};

use answer_lines::{Answer, Content, Parcel};
use ebl_base::{ByteList, CharList, Checksum, Copied, Moment, NoMemory, Party, PlatformCode};
use holder_commands::Command;
use platform_requests::Request;
use std::alloc::Global;
use world_script::{BillName, Deed, Event, Foreign};

/// The sender of what was delivered: it gets the reply.
#[derive(Clone, Copy, Debug, PartialEq, Eq)]
pub struct Sender {
    pub platform: PlatformCode,
    /// The bill of the exchange.
    pub bill: Checksum,
}

/// A request to a platform.
#[derive(Drop)]
pub struct Asking {
    pub at: PlatformCode,
    /// The moment of a command.
    pub now: Option<Moment>,
    pub request: Request,
    /// The sender of what was delivered; nobody for a command, a question, or bytes from outside.
    pub sender: Option<Sender>,
}

/// What an event comes to before any platform is asked.
#[derive(Drop)]
pub enum Happening {
    /// It is answered at once, and nothing changes.
    Answered(Answer),
    /// A platform is asked.
    Asked(Asking),
    /// A platform starts again.
    StartsAgain(PlatformCode),
}

/// What an event comes to, by the bills that were signed and the parcels that were sent before it. A delivery and a
/// show copy what was sent; everything else is moved.
pub fn comes_to(
    alloc: Global,
    signed: &[Checksum],
    sent: &[Parcel],
    event: Event,
) -> Result<Happening, NoMemory>
    ensures { IfOk result (λ h. happening_view h ≡ comes_to signed.now sent.now (event_view event)) }
{
    match event {
        Event::Command {
            at,
            party,
            now,
            deed,
        } => Ok(at_command(signed, at, party, now, deed)),
        Event::Deliver { number, at } => at_delivery(alloc, at, numbered(sent, number)),
        Event::Restart { at } => Ok(Happening::StartsAgain(at)),
        Event::Resend { at, bill } => Ok(match bill_named(signed, bill) {
            Some(bill) => asked(at, None, Request::Resend { bill }),
            None => no_bill(),
        }),
        Event::Ask { at, bill } => Ok(match bill_named(signed, bill) {
            Some(bill) => asked(at, None, Request::Ask { bill }),
            None => no_bill(),
        }),
        Event::Foreign { at, bytes } => Ok(at_foreign(signed, at, bytes)),
        Event::Show { number } => at_show(alloc, numbered(sent, number)),
    }
}

// The item of this number, counted from 1.
fn numbered<T>(items: &[T], number: u64) -> Option<&T>
    ensures { option_copied result ≡ numbered number items.now }
{
    if number == 0 {
        return None;
    }
    items.get((number - 1) as usize)
}

// The name of a bill.
fn bill_named(signed: &[Checksum], bill: BillName) -> Option<Checksum>
    ensures { result ≡ bill_named signed.now bill }
{
    match bill {
        BillName::Name(name) => Some(name),
        BillName::Number(number) => numbered(signed, number).copied(),
    }
}

// A command, a question, or bytes from outside.
fn asked(at: PlatformCode, now: Option<Moment>, request: Request) -> Happening
    ensures { happening_view result ≡ asks (record {
      at = at;
      now = now;
      request = request_view request;
      sender = None;
    }) }
{
    Happening::Asked(Asking {
        at,
        now,
        request,
        sender: None,
    })
}

fn no_bill() -> Happening
    ensures { result ≡ Happening.Answered Answer.NoBill }
{
    Happening::Answered(Answer::NoBill)
}

fn at_command(
    signed: &[Checksum],
    at: PlatformCode,
    party: Party,
    now: Moment,
    deed: Deed,
) -> Happening
    ensures { happening_view result ≡ at_command signed.now at party now (deed_view deed) }
{
    match deed {
        Deed::Sign { document } => commanded(at, party, now, Command::Sign { document }),
        Deed::Act {
            bill,
            kind,
            recipient,
        } => match bill_named(signed, bill) {
            Some(bill) => commanded(
                at,
                party,
                now,
                Command::Act {
                    bill,
                    kind,
                    recipient,
                },
            ),
            None => no_bill(),
        },
        Deed::Attach {
            bill,
            name,
            media,
            bytes,
        } => match bill_named(signed, bill) {
            Some(bill) => commanded(
                at,
                party,
                now,
                Command::Attach {
                    bill,
                    name,
                    media,
                    bytes,
                },
            ),
            None => no_bill(),
        },
    }
}

fn commanded(at: PlatformCode, party: Party, now: Moment, command: Command) -> Happening
    ensures { happening_view result ≡ asks (record {
      at = at;
      now = Some now;
      request = request_view (Request.Command party command);
      sender = None;
    }) }
{
    asked(at, Some(now), Request::Command { party, command })
}

fn at_foreign(signed: &[Checksum], at: PlatformCode, bytes: Foreign) -> Happening
    ensures { happening_view result ≡ at_foreign signed.now at (foreign_view bytes) }
{
    match bytes {
        Foreign::Start { body } => asked(
            at,
            None,
            Request::Start {
                body: bytes_of(body),
            },
        ),
        Foreign::Put {
            reference,
            checksum,
            bytes,
        } => asked(
            at,
            None,
            Request::Put {
                reference,
                checksum,
                bytes,
            },
        ),
        Foreign::Finish { reference } => asked(at, None, Request::Finish { reference }),
        Foreign::StartReply { bill, text } => match bill_named(signed, bill) {
            Some(bill) => asked(
                at,
                None,
                Request::StartReply {
                    bill,
                    bytes: bytes_of(text),
                },
            ),
            None => no_bill(),
        },
        Foreign::FinishReply { bill, text } => match bill_named(signed, bill) {
            Some(bill) => asked(
                at,
                None,
                Request::FinishReply {
                    bill,
                    bytes: bytes_of(text),
                },
            ),
            None => no_bill(),
        },
    }
}

// The bytes of a text, which is moved.
fn bytes_of(text: CharList) -> ByteList
    ensures { result ≡ text }
{
    ByteList::from_vec(text.into_string().into_bytes())
}

fn at_delivery(
    alloc: Global,
    at: Option<PlatformCode>,
    parcel: Option<&Parcel>,
) -> Result<Happening, NoMemory>
    ensures { IfOk result (λ h. happening_view h ≡ at_delivery at (option_copied parcel.entry)) }
{
    match parcel {
        Some(parcel) => delivered_to(alloc, at.or(parcel.to), parcel),
        None => Ok(Happening::Answered(Answer::NoMessage)),
    }
}

fn delivered_to(
    alloc: Global,
    at: Option<PlatformCode>,
    parcel: &Parcel,
) -> Result<Happening, NoMemory>
    ensures { IfOk result (λ h. happening_view h ≡ delivered_to at parcel.now) }
{
    let Some(at) = at else {
        return Ok(Happening::Answered(Answer::NoMessage));
    };
    let request = request_in(alloc, parcel.bill, &parcel.content)?;
    Ok(Happening::Asked(Asking {
        at,
        now: None,
        request,
        sender: Some(Sender {
            platform: parcel.from,
            bill: parcel.bill,
        }),
    }))
}

// The request that a parcel is when it is delivered.
fn request_in(alloc: Global, bill: Checksum, content: &Content) -> Result<Request, NoMemory>
    ensures { IfOk result (λ request. request_view request ≡ request_in bill content.now) }
{
    match content {
        Content::Start { body } => Ok(Request::Start {
            body: body.copy(alloc)?,
        }),
        Content::Put {
            reference,
            checksum,
            bytes,
        } => Ok(Request::Put {
            reference: *reference,
            checksum: *checksum,
            bytes: bytes.copy(alloc)?,
        }),
        Content::Finish { reference } => Ok(Request::Finish {
            reference: *reference,
        }),
        Content::StartReply { bytes } => Ok(Request::StartReply {
            bill,
            bytes: bytes.copy(alloc)?,
        }),
        Content::FinishReply { bytes } => Ok(Request::FinishReply {
            bill,
            bytes: bytes.copy(alloc)?,
        }),
    }
}

fn at_show(alloc: Global, parcel: Option<&Parcel>) -> Result<Happening, NoMemory>
    ensures { IfOk result (λ h. happening_view h ≡ at_show (option_copied parcel.entry)) }
{
    match parcel {
        Some(parcel) => Ok(Happening::Answered(Answer::Shown(parcel.copy(alloc)?))),
        None => Ok(Happening::Answered(Answer::NoMessage)),
    }
}
