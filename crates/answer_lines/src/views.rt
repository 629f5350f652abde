//! A bill as an answer shows it.
ghost use Rattle.std.specs.Prelude.{◌≡◌, [], Some, None, IfOk, OnOk, codes};
ghost use Rattle.canonical_json.specs.Value.{object};
ghost use Rattle.canonical_json.specs.View.{member_view, members_view, view};
ghost use Rattle.answer_lines.specs.Lines.{bill_value, view_value};

use canonical_json::{Json, Member};
use ebl_base::{Checksum, NoMemory};
use json_forms::{checksum_member, number_member, object_json, party_member, text_member};
use platform_requests::View;
use reply_forms::{place_text, state_text};
use std::alloc::Global;
use title_fold::{Title, possessor, title_holder};

pub(crate) fn view_json(alloc: Global, number: Option<u64>, v: View) -> Result<Json, NoMemory>
    ensures { IfOk result (λ json. view json ≡ view_value number v) }
{
    match v.title {
        Some(title) => titled_json(alloc, number, v, title),
        None => absent_json(alloc, number, v),
    }
}

fn bill_member(alloc: Global, number: Option<u64>, bill: Checksum) -> Result<Member, NoMemory>
    ensures { IfOk result (λ m. member_view m ≡ (codes "bill", bill_value number bill)) }
{
    match number {
        Some(number) => number_member(alloc, "bill", number),
        None => checksum_member(alloc, "bill", bill),
    }
}

fn absent_json(alloc: Global, number: Option<u64>, v: View) -> Result<Json, NoMemory>
    ensures { IfOk result (λ json. view json ≡ view_value number (record v { title = None })) }
{
    let mut members = Vec::with_capacity(alloc, 3)?;
    put_absent(alloc, &mut members, number, v)?;
    Ok(object_json(members))
}

fn put_absent(
    alloc: Global,
    members: &mut Vec<Member>,
    number: Option<u64>,
    v: View,
) -> Result<(), NoMemory>
    requires empty { members.old.items ≡ [] }
    ensures { OnOk result (object (members_view members.new.items)
        ≡ view_value number (record v { title = None })) }
{
    members.push(bill_member(alloc, number, v.bill)?)?;
    members.push(number_member(alloc, "entries", u64::from(v.entries))?)?;
    members.push(text_member(alloc, "place", place_text(v.place))?)?;
    Ok(())
}

fn titled_json(alloc: Global, number: Option<u64>, v: View, title: Title) -> Result<Json, NoMemory>
    ensures { IfOk result (λ json. view json ≡ view_value number (record v { title = Some title })) }
{
    let mut members = Vec::with_capacity(alloc, 6)?;
    put_titled(alloc, &mut members, number, v, title)?;
    Ok(object_json(members))
}

fn put_titled(
    alloc: Global,
    members: &mut Vec<Member>,
    number: Option<u64>,
    v: View,
    title: Title,
) -> Result<(), NoMemory>
    requires empty { members.old.items ≡ [] }
    ensures { OnOk result (object (members_view members.new.items)
        ≡ view_value number (record v { title = Some title })) }
{
    members.push(bill_member(alloc, number, v.bill)?)?;
    members.push(number_member(alloc, "entries", u64::from(v.entries))?)?;
    members.push(party_member(alloc, "holder", title_holder(title))?)?;
    members.push(text_member(alloc, "place", place_text(v.place))?)?;
    members.push(party_member(alloc, "possessor", possessor(title))?)?;
    members.push(text_member(alloc, "state", state_text(title))?)?;
    Ok(())
}
