//! What a request asks.
ghost use Rattle.std.specs.Prelude.{◌≡◌, ◌≤◌, Some, IfOk, IfSome, option_map};
ghost use Rattle.canonical_json.specs.Lawful.{HasTexts, IsLawful};
ghost use Rattle.canonical_json.specs.Value.{depth};
ghost use Rattle.canonical_json.specs.View.{view};
ghost use Rattle.holder_commands.specs.Reading.{command_of};
ghost use Rattle.http_heads.specs.declared.route.Route.TheVariants as routes;
ghost use Rattle.http_requests.specs.Asked.{MayBeAsked, asked_view, asks_of, commanded, given_command, json_of, validation_of};

use canonical_json::{Json, read_if_any};
use ebl_base::{ByteList, NoMemory, Party};
use holder_commands::{Command, CommandFault};
use http_heads::Route;
use json_forms::required_party;
use platform_requests::Request;
use std::alloc::Global;

/// What a request asks.
#[derive(Drop)]
pub enum Asked {
    /// A request of the desk.
    Desk(Request),
    /// Whether this party is known.
    Party(Party),
}

/// What a request of this route asks with this body; none if and only if the body is one of a receiver validation or of
/// a command and doesn't have its form. A body that the desk is to have is copied once.
pub fn asked_of(alloc: Global, route: Route, body: &[u8]) -> Result<Option<Asked>, NoMemory>
    ensures value { IfOk result (λ asked. option_map asked_view asked ≡ asks_of route body.now) }
    ensures may { IfOk result (λ asked. IfSome asked MayBeAsked) }
{
    match route {
        Route::Start => {
            let body = ByteList::from_slice(alloc, body)?;
            Ok(Some(Asked::Desk(Request::Start { body })))
        }
        Route::Document {
            reference,
            checksum,
        } => {
            let bytes = ByteList::from_slice(alloc, body)?;
            Ok(Some(Asked::Desk(Request::Put {
                reference,
                checksum,
                bytes,
            })))
        }
        Route::Finish { reference } => Ok(Some(Asked::Desk(Request::Finish { reference }))),
        Route::Validation => party_asked(alloc, body),
        Route::Command => command_asked(alloc, body),
        Route::Bill { bill } => Ok(Some(Asked::Desk(Request::Ask { bill }))),
    }
}

// The value of a body that is JSON.
fn json_of(alloc: Global, body: &[u8]) -> Result<Option<Json>, NoMemory>
    ensures value { IfOk result (λ any. option_map view any ≡ json_of body.now) }
    ensures lawful { IfOk result (λ any. IfSome any (λ json. IsLawful (view json))) }
    ensures texts { IfOk result (λ any. IfSome any (λ json. HasTexts (view json))) }
    ensures nests { IfOk result (λ any. IfSome any (λ json. depth (view json) ≤ 127)) }
{
    read_if_any(alloc, body)
}

fn party_asked(alloc: Global, body: &[u8]) -> Result<Option<Asked>, NoMemory>
    ensures value { IfOk result (λ asked. option_map asked_view asked ≡ asks_of routes.Validation body.now) }
    ensures may { IfOk result (λ asked. IfSome asked MayBeAsked) }
{
    match json_of(alloc, body)? {
        Some(json) => Ok(validation_of(&json)),
        None => Ok(None),
    }
}

fn validation_of(json: &Json) -> Option<Asked>
    ensures value { option_map asked_view result ≡ validation_of (view json.now) }
    ensures may { IfSome result MayBeAsked }
{
    match required_party(json, "party") {
        Some(party) => Some(Asked::Party(party)),
        None => None,
    }
}

fn command_asked(alloc: Global, body: &[u8]) -> Result<Option<Asked>, NoMemory>
    ensures value { IfOk result (λ asked. option_map asked_view asked ≡ asks_of routes.Command body.now) }
    ensures may { IfOk result (λ asked. IfSome asked MayBeAsked) }
{
    match json_of(alloc, body)? {
        Some(json) => given_command(alloc, &json),
        None => Ok(None),
    }
}

fn given_command(alloc: Global, json: &Json) -> Result<Option<Asked>, NoMemory>
    requires lawful { IsLawful (view json.now) }
    requires texts { HasTexts (view json.now) }
    requires nests { depth (view json.now) ≤ 127 }
    ensures value { IfOk result (λ asked. option_map asked_view asked ≡ given_command (view json.now)) }
    ensures may { IfOk result (λ asked. IfSome asked MayBeAsked) }
{
    match required_party(json, "party") {
        Some(party) => commanded(alloc, party, json),
        None => Ok(None),
    }
}

fn commanded(alloc: Global, party: Party, json: &Json) -> Result<Option<Asked>, NoMemory>
    requires lawful { IsLawful (view json.now) }
    requires texts { HasTexts (view json.now) }
    requires nests { depth (view json.now) ≤ 127 }
    ensures value { IfOk result (λ asked. option_map asked_view asked ≡ commanded (Some party) (command_of
        (view json.now))) }
    ensures may { IfOk result (λ asked. IfSome asked MayBeAsked) }
{
    match Command::read(alloc, json) {
        Ok(command) => Ok(Some(Asked::Desk(Request::Command { party, command }))),
        Err(CommandFault::CommandForm(_)) => Ok(None),
        Err(CommandFault::NoMemory) => Err(NoMemory),
    }
}
