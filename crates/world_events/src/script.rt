//! The lines of a script: the first has the roster, and each later one is an event.
ghost use Rattle.std.specs.Prelude.{◌≡◌, ◌≤◌, true, IfOk, IfSome, codes, option_and_then, option_map};
ghost use Rattle.canonical_json.specs.Field.{member_of};
ghost use Rattle.canonical_json.specs.Lawful.{HasTexts, IsLawful};
ghost use Rattle.canonical_json.specs.Reading.{value_in};
ghost use Rattle.canonical_json.specs.Value.{depth};
ghost use Rattle.canonical_json.specs.View.{view};
ghost use Rattle.party_roster.specs.Reading.{roster_of};
ghost use Rattle.party_roster.specs.RosterForm.{IsRoster};
ghost use Rattle.world_script.specs.Event.{event_view};
ghost use Rattle.world_script.specs.Form.{IsEvent};
ghost use Rattle.world_script.specs.Reading.{event_of};
ghost use Rattle.world_events.specs.Script.{IsNested, event_in, if_listed, if_ok, names_listed, platform_of, roster_in};

use canonical_json::{Json, ReadError, member_of, read};
use ebl_base::{NoMemory, PlatformCode};
use party_roster::{Roster, RosterFault};
use std::alloc::Global;
use world_script::{Event, EventFault};

/// The roster of a script's first line: its member `roster`. `None` if and only if the line has none that is
/// well-formed.
pub fn roster_in(alloc: Global, line: &[u8]) -> Result<Option<Roster>, NoMemory>
    ensures roster { IfOk result (λ roster. roster ≡ roster_in line.now) }
    ensures form { IfOk result (λ roster. IfSome roster IsRoster) }
{
    match value_of_line(alloc, line)? {
        Some(json) => roster_of(alloc, &json),
        None => Ok(None),
    }
}

/// The event of a later line. `None` if and only if the line is none, or names a platform that the roster doesn't list.
pub fn event_in(alloc: Global, roster: &Roster, line: &[u8]) -> Result<Option<Event>, NoMemory>
    ensures event { IfOk result (λ event. option_map event_view event ≡ event_in roster.now line.now) }
    ensures form { IfOk result (λ event. IfSome event (λ event. IsEvent (event_view event))) }
    ensures nests { IfOk result (λ event. IfSome event (λ event. IsNested (event_view event))) }
    ensures listed { IfOk result (λ event. IfSome event (λ event. names_listed roster.now (event_view event) ≡ true)) }
{
    match value_of_line(alloc, line)? {
        Some(json) => event_of(alloc, roster, &json),
        None => Ok(None),
    }
}

// The value of a line, if it is JSON.
fn value_of_line(alloc: Global, line: &[u8]) -> Result<Option<Json>, NoMemory>
    ensures value { IfOk result (λ json. option_map view json ≡ if_ok (value_in line.now)) }
    ensures lawful { IfOk result (λ json. IfSome json (λ json. IsLawful (view json))) }
    ensures texts { IfOk result (λ json. IfSome json (λ json. HasTexts (view json))) }
    ensures nests { IfOk result (λ json. IfSome json (λ json. depth (view json) ≤ 127)) }
{
    match read(alloc, line) {
        Ok(json) => Ok(Some(json)),
        Err(ReadError::NoMemory) => Err(NoMemory),
        Err(ReadError::NotJson) => Ok(None),
        Err(ReadError::Repeated) => Ok(None),
        Err(ReadError::Fraction) => Ok(None),
        Err(ReadError::Range) => Ok(None),
    }
}

fn roster_of(alloc: Global, json: &Json) -> Result<Option<Roster>, NoMemory>
    ensures roster { IfOk result (λ roster. roster
        ≡ option_and_then (λ v. if_ok (roster_of v)) (member_of (codes "roster") (view json.now))) }
    ensures form { IfOk result (λ roster. IfSome roster IsRoster) }
{
    let Some(value) = member_of(json, "roster") else {
        return Ok(None);
    };
    match Roster::read(alloc, value) {
        Ok(roster) => Ok(Some(roster)),
        Err(RosterFault::NoMemory) => Err(NoMemory),
        Err(RosterFault::RosterForm(_)) => Ok(None),
    }
}

fn event_of(alloc: Global, roster: &Roster, json: &Json) -> Result<Option<Event>, NoMemory>
    requires lawful { IsLawful (view json.now) }
    requires texts { HasTexts (view json.now) }
    requires nests { depth (view json.now) ≤ 127 }
    ensures event { IfOk result (λ event. option_map event_view event
        ≡ option_and_then (if_listed roster.now) (if_ok (event_of (view json.now)))) }
    ensures form { IfOk result (λ event. IfSome event (λ event. IsEvent (event_view event))) }
    ensures nests { IfOk result (λ event. IfSome event (λ event. IsNested (event_view event))) }
    ensures listed { IfOk result (λ event. IfSome event (λ event. names_listed roster.now (event_view event) ≡ true)) }
{
    match Event::read(alloc, json) {
        Ok(event) => Ok(if_listed(roster, event)),
        Err(EventFault::NoMemory) => Err(NoMemory),
        Err(EventFault::EventForm) => Ok(None),
    }
}

// An event, unless it names a platform that isn't listed.
fn if_listed(roster: &Roster, event: Event) -> Option<Event>
    ensures event { option_map event_view result ≡ if_listed roster.now (event_view event) }
    ensures same { IfSome result (λ listed. event_view listed ≡ event_view event) }
    ensures listed { IfSome result (λ listed. names_listed roster.now (event_view listed) ≡ true) }
{
    if names_listed(roster, &event) {
        Some(event)
    } else {
        None
    }
}

fn names_listed(roster: &Roster, event: &Event) -> bool
    ensures { result ≡ names_listed roster.now (event_view event.now) }
{
    match platform_of(event) {
        Some(platform) => roster.has_platform(platform),
        None => true,
    }
}

// The platform that an event names in `at` or `restart`.
fn platform_of(event: &Event) -> Option<PlatformCode>
    ensures { result ≡ platform_of (event_view event.now) }
{
    match event {
        Event::Command { at, .. }
        | Event::Restart { at }
        | Event::Resend { at, .. }
        | Event::Ask { at, .. }
        | Event::Foreign { at, .. } => Some(*at),
        Event::Deliver { at, .. } => *at,
        Event::Show { .. } => None,
    }
}
