//! The events that the generator makes, one by one. Each costs the draws for it; for a party that acts, the diaries of
//! one bill's shards are gone over, and no line is written.
ghost use Rattle.std.specs.Prelude.{◌≡◌, ◌≤◌, ◌<◌, [], ◌++◌, codes, find, length, IfOk, OnOk};
ghost use Rattle.std.specs.Fmt.{decimal};
ghost use Rattle.ebl_base.specs.Party.{party_eq};
ghost use Rattle.canonical_json.specs.Value.{object, text};
ghost use Rattle.canonical_json.specs.View.{member_view, members_view, view};
ghost use Rattle.world_script.specs.Event.{deed_view, event_view};
ghost use Rattle.platform_world.specs.State.{world_of};
ghost use Rattle.rehearsal.specs.Roster.{made_roster, one, alph, party_at, platform_at};
ghost use Rattle.rehearsal.specs.Events.{acting, asking, deed_at, delivering, document, event_of, first_moment, happening, issuing, listed_or_carrier, made, possessor_in, resending, restarting, signing};

use crate::draws::Draws;
use canonical_json::{Json, Member};
use ebl_base::{Kind, Moment, NoMemory, Party, PlatformCode};
use json_forms::{member, object_json, text_member};
use party_roster::Roster;
use platform_world::{Machine, World};
use std::alloc::Global;
use world_script::{BillName, Deed, Event};

/// The most messages that a script can number: 2^53 - 1.
const MOST_MESSAGES: usize = 9_007_199_254_740_991;

// ---- the commands of the carrier

/// The carrier signs the document of this number.
pub(crate) fn sign(alloc: Global, roster: &Roster, number: u64) -> Result<Event, NoMemory>
    requires { roster.now ≡ made_roster }
    ensures { IfOk result (λ event. event_view event ≡ signing number) }
{
    let document = document(alloc, number)?;
    let party = carrier(roster);
    Ok(command(party, Deed::Sign { document }))
}

// The document of this number.
#[tactic(auto, unfolding(crate::specs::Events::document))]
fn document(alloc: Global, number: u64) -> Result<Json, NoMemory>
    ensures { IfOk result (λ json. view json ≡ document number) }
{
    let mut members = Vec::with_capacity(alloc, 5)?;
    put_document(alloc, &mut members, number)?;
    Ok(object_json(members))
}

#[tactic(auto, unfolding(crate::specs::Events::document))]
fn put_document(alloc: Global, members: &mut Vec<Member>, number: u64) -> Result<(), NoMemory>
    requires empty { members.old.items ≡ [] }
    ensures { OnOk result (object (members_view members.new.items) ≡ document number) }
{
    members.push(text_member(alloc, "carrierCode", "OCNL")?)?;
    members.push(text_member(alloc, "carrierCodeListProvider", "NMFTA")?)?;
    members.push(member(alloc, "isToOrder", Json::Flag(true))?)?;
    members.push(reference_member(alloc, number)?)?;
    members.push(text_member(alloc, "transportDocumentTypeCode", "BOL")?)?;
    Ok(())
}

fn reference_member(alloc: Global, number: u64) -> Result<Member, NoMemory>
    ensures { IfOk result (λ m. member_view m
        ≡ (codes "transportDocumentReference", text (codes "R" ++ decimal number))) }
{
    let reference = format!(in alloc; "R{number}")?;
    text_member(alloc, "transportDocumentReference", reference.as_str())
}

/// The carrier issues the bill of this number to some party.
pub(crate) fn issue(roster: &Roster, draws: &mut Draws, number: u64) -> Event
    requires { roster.now ≡ made_roster }
    ensures { made (event_view result) draws.new.state ≡ issuing number draws.old.state }
{
    let recipient = party_at(roster, draws.draw(6));
    command(
        carrier(roster),
        Deed::Act {
            bill: BillName::Number(number),
            kind: Kind::Issue,
            recipient: Some(recipient),
        },
    )
}

// A party's command at its platform, at the first moment.
fn command(party: Party, deed: Deed) -> Event
    ensures { event_view result ≡ asking party (deed_view deed) }
{
    Event::Command {
        at: party.platform,
        party,
        now: first_moment(),
        deed,
    }
}

fn first_moment() -> Moment
    ensures { result ≡ first_moment }
{
    Moment::try_new(0).unwrap()
}

#[tactic(auto, unfolding(crate::specs::Roster::made_roster))]
fn carrier(roster: &Roster) -> Party
    requires { roster.now ≡ made_roster }
    ensures { result ≡ one alph }
{
    roster.parties()[0]
}

#[tactic(auto, unfolding(crate::specs::Roster::made_roster))]
fn party_at(roster: &Roster, i: u64) -> Party
    requires roster { roster.now ≡ made_roster }
    requires within { i < 6 }
    ensures { result ≡ party_at i }
{
    roster.parties()[i as usize]
}

#[tactic(auto, unfolding(crate::specs::Roster::made_roster))]
fn platform_at(roster: &Roster, i: u64) -> PlatformCode
    requires roster { roster.now ≡ made_roster }
    requires within { i < 3 }
    ensures { result ≡ platform_at i }
{
    roster.platforms()[i as usize]
}

// ---- what happens then

/// The next event, where the rehearsal has so many bills: four times of ten a party acts on a bill, four times one of
/// the last eight messages is delivered, once a bill is sent again, and once a platform starts again.
///
/// It costs a few draws and, for a party that acts, a walk over the whole diaries of one bill's shards on the three
/// platforms.
pub fn next_event<M: Machine>(
    alloc: Global,
    world: &World<M>,
    draws: &mut Draws,
    bills: u64,
) -> Result<Event, NoMemory>
    requires roster { (world_of M.seen world.now).roster ≡ made_roster }
    requires some { 0 < bills }
    ensures made { IfOk result (λ event. made (event_view event) draws.new.state
        ≡ happening bills (world_of M.seen world.now) draws.old.state) }
    ensures few { IfOk result (λ event. length world.now.sent ≤ 9007199254740991) }
{
    if world.sent_count() > MOST_MESSAGES {
        // No memory holds so many messages.
        return Err(NoMemory);
    }
    match draws.draw(10) {
        0..=3 => act(alloc, world, draws, bills),
        4..=7 => Ok(deliver(world, draws)),
        8 => Ok(resend(world.roster(), draws, bills)),
        _ => Ok(restart(world.roster(), draws)),
    }
}

// The possessor of some bill asks something at its platform; of a bill without one, the carrier.
fn act<M: Machine>(
    alloc: Global,
    world: &World<M>,
    draws: &mut Draws,
    bills: u64,
) -> Result<Event, NoMemory>
    requires roster { (world_of M.seen world.now).roster ≡ made_roster }
    requires some { 0 < bills }
    ensures { IfOk result (λ event. made (event_view event) draws.new.state
        ≡ acting bills (world_of M.seen world.now) draws.old.state) }
{
    let number = draws.draw(bills) + 1;
    let what = draws.draw(8);
    let recipient = party_at(world.roster(), draws.draw(6));
    let possessor = possessor_in(alloc, world, number)?;
    let party = listed_or_carrier(world.roster(), possessor);
    Ok(command(party, deed_at(what, number, recipient)))
}

// Whom the line of the bill of this number names as possessor.
fn possessor_in<M: Machine>(
    alloc: Global,
    world: &World<M>,
    number: u64,
) -> Result<Option<Party>, NoMemory>
    requires { 0 < number }
    ensures { IfOk result (λ party. party ≡ possessor_in (world_of M.seen world.now) number) }
{
    match world.signed().get((number - 1) as usize) {
        Some(bill) => Ok(world.standing(alloc, *bill)?.possessor),
        None => Ok(None),
    }
}

// The listed party that somebody is; nobody is the carrier.
fn listed_or_carrier(roster: &Roster, party: Option<Party>) -> Party
    requires { roster.now ≡ made_roster }
    ensures { result ≡ listed_or_carrier party }
{
    match party {
        Some(party) => listed(roster, party).unwrap_or(carrier(roster)),
        None => carrier(roster),
    }
}

fn listed(roster: &Roster, party: Party) -> Option<Party>
    ensures { result ≡ find (λ q. party_eq q party) roster.now.parties }
{
    roster.parties().iter().copied().find(|q| *q == party)
}

// What is asked of the bill of this number, by a number below 8.
fn deed_at(what: u64, number: u64, recipient: Party) -> Deed
    ensures { deed_view result ≡ deed_at what number recipient }
{
    let (kind, recipient) = match what {
        0..=3 => (Kind::Transfer, Some(recipient)),
        4 | 5 => (Kind::Endorse, Some(recipient)),
        6 => (Kind::SurrenderForDelivery, None),
        _ => (Kind::SurrenderRefused, None),
    };
    Deed::Act {
        bill: BillName::Number(number),
        kind,
        recipient,
    }
}

// One of the last eight messages is delivered; the first one, while there is none.
fn deliver<M: Machine>(world: &World<M>, draws: &mut Draws) -> Event
    ensures { made (event_view result) draws.new.state
        ≡ delivering (length world.now.sent) draws.old.state }
{
    let count = world.sent_count() as u64;
    let number = if count == 0 {
        1
    } else {
        count - draws.draw(count.min(8))
    };
    Event::Deliver { number, at: None }
}

// Some platform sends the start of some bill's transfer again.
fn resend(roster: &Roster, draws: &mut Draws, bills: u64) -> Event
    requires roster { roster.now ≡ made_roster }
    requires some { 0 < bills }
    ensures { made (event_view result) draws.new.state ≡ resending bills draws.old.state }
{
    let number = draws.draw(bills) + 1;
    let at = platform_at(roster, draws.draw(3));
    Event::Resend {
        at,
        bill: BillName::Number(number),
    }
}

// Some platform starts again.
fn restart(roster: &Roster, draws: &mut Draws) -> Event
    requires { roster.now ≡ made_roster }
    ensures { made (event_view result) draws.new.state ≡ restarting draws.old.state }
{
    Event::Restart {
        at: platform_at(roster, draws.draw(3)),
    }
}
