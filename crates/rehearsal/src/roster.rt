//! The roster of a rehearsal.
ghost use Rattle.std.specs.Prelude.{◌≡◌, [], codes, IfOk, OnOk};
ghost use Rattle.canonical_json.specs.Value.{list, object};
ghost use Rattle.canonical_json.specs.View.{view, items_view, member_view, members_view};
ghost use Rattle.json_forms.specs.Writing.{each_written, party_value, platform_value};
ghost use Rattle.party_roster.specs.RosterForm.{IsRoster};
ghost use Rattle.party_roster.specs.Writing.{carrier_value, roster_value};
ghost use Rattle.rehearsal.specs.Roster.{carrier, made_roster};

use canonical_json::{Json, Member};
use ebl_base::NoMemory;
use json_forms::{list_json, member, object_json, text_json, text_member};
use party_roster::Roster;
use std::alloc::Global;

/// The roster of a rehearsal: the platforms `ALPH`, `BETA` and `GAMM`; on each the parties `ONE` and `TWO`; and
/// `ALPH/ONE` as the carrier `OCNL` of `NMFTA`.
pub fn made_roster(alloc: Global) -> Result<Roster, NoMemory>
    ensures roster { IfOk result (λ roster. roster ≡ made_roster) }
    ensures form { IfOk result (λ roster. IsRoster roster) }
{
    let json = roster_json(alloc)?;
    match Roster::read(alloc, &json) {
        Ok(roster) => Ok(roster),
        // Its form is a roster's, so memory lacks.
        Err(_) => Err(NoMemory),
    }
}

fn roster_json(alloc: Global) -> Result<Json, NoMemory>
    ensures { IfOk result (λ json. view json ≡ roster_value made_roster) }
{
    let mut members = Vec::with_capacity(alloc, 3)?;
    put_roster(alloc, &mut members)?;
    Ok(object_json(members))
}

fn put_roster(alloc: Global, members: &mut Vec<Member>) -> Result<(), NoMemory>
    requires empty { members.old.items ≡ [] }
    ensures { OnOk result (object (members_view members.new.items) ≡ roster_value made_roster) }
{
    members.push(member(alloc, "carriers", carriers_json(alloc)?)?)?;
    members.push(member(alloc, "parties", parties_json(alloc)?)?)?;
    members.push(member(alloc, "platforms", platforms_json(alloc)?)?)?;
    Ok(())
}

#[tactic(auto, unfolding(crate::specs::Roster::made_roster))]
fn carriers_json(alloc: Global) -> Result<Json, NoMemory>
    ensures { IfOk result (λ json. view json ≡ list (each_written carrier_value made_roster.carriers)) }
{
    Ok(list_json(vec![in alloc; carrier_json(alloc)?]?))
}

fn carrier_json(alloc: Global) -> Result<Json, NoMemory>
    ensures { IfOk result (λ json. view json ≡ carrier_value carrier) }
{
    let mut members = Vec::with_capacity(alloc, 3)?;
    put_carrier(alloc, &mut members)?;
    Ok(object_json(members))
}

fn put_carrier(alloc: Global, members: &mut Vec<Member>) -> Result<(), NoMemory>
    requires empty { members.old.items ≡ [] }
    ensures { OnOk result (object (members_view members.new.items) ≡ carrier_value carrier) }
{
    members.push(text_member(alloc, "code", "OCNL")?)?;
    members.push(text_member(alloc, "party", "ALPH/ONE")?)?;
    members.push(text_member(alloc, "provider", "NMFTA")?)?;
    Ok(())
}

#[tactic(auto, unfolding(crate::specs::Roster::made_roster))]
fn parties_json(alloc: Global) -> Result<Json, NoMemory>
    ensures { IfOk result (λ json. view json ≡ list (each_written party_value made_roster.parties)) }
{
    let mut items = Vec::with_capacity(alloc, 6)?;
    put_parties(alloc, &mut items)?;
    Ok(list_json(items))
}

#[tactic(auto, unfolding(crate::specs::Roster::made_roster))]
fn put_parties(alloc: Global, items: &mut Vec<Json>) -> Result<(), NoMemory>
    requires empty { items.old.items ≡ [] }
    ensures { OnOk result (items_view items.new.items ≡ each_written party_value made_roster.parties) }
{
    items.push(text_json(alloc, "ALPH/ONE")?)?;
    items.push(text_json(alloc, "ALPH/TWO")?)?;
    items.push(text_json(alloc, "BETA/ONE")?)?;
    items.push(text_json(alloc, "BETA/TWO")?)?;
    items.push(text_json(alloc, "GAMM/ONE")?)?;
    items.push(text_json(alloc, "GAMM/TWO")?)?;
    Ok(())
}

#[tactic(auto, unfolding(crate::specs::Roster::made_roster))]
fn platforms_json(alloc: Global) -> Result<Json, NoMemory>
    ensures { IfOk result (λ json. view json ≡ list (each_written platform_value made_roster.platforms)) }
{
    let mut items = Vec::with_capacity(alloc, 3)?;
    put_platforms(alloc, &mut items)?;
    Ok(list_json(items))
}

#[tactic(auto, unfolding(crate::specs::Roster::made_roster))]
fn put_platforms(alloc: Global, items: &mut Vec<Json>) -> Result<(), NoMemory>
    requires empty { items.old.items ≡ [] }
    ensures { OnOk result (items_view items.new.items ≡ each_written platform_value made_roster.platforms) }
{
    items.push(text_json(alloc, "ALPH")?)?;
    items.push(text_json(alloc, "BETA")?)?;
    items.push(text_json(alloc, "GAMM")?)?;
    Ok(())
}
