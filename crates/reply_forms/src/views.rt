//! A bill as it is shown.
ghost use Rattle.std.specs.Prelude.{◌≡◌, [], Some, None, IfOk, OnOk};
ghost use Rattle.canonical_json.specs.Value.{object};
ghost use Rattle.canonical_json.specs.View.{members_view, view};
ghost use Rattle.reply_forms.specs.Body.{view_value};

use crate::words::{place_text, state_text};
use canonical_json::{Json, Member};
use ebl_base::NoMemory;
use json_forms::{checksum_member, number_member, object_json, party_member, text_member};
use platform_requests::View;
use std::alloc::Global;
use title_fold::{Title, possessor, title_holder};

pub(crate) fn view_json(alloc: Global, v: View) -> Result<Json, NoMemory>
    ensures { IfOk result (λ json. view json ≡ view_value v) }
{
    match v.title {
        Some(title) => titled_json(alloc, v, title),
        None => absent_json(alloc, v),
    }
}

fn absent_json(alloc: Global, v: View) -> Result<Json, NoMemory>
    ensures { IfOk result (λ json. view json ≡ view_value (record v { title = None })) }
{
    let mut members = Vec::with_capacity(alloc, 3)?;
    put_absent(alloc, &mut members, v)?;
    Ok(object_json(members))
}

fn put_absent(alloc: Global, members: &mut Vec<Member>, v: View) -> Result<(), NoMemory>
    requires empty { members.old.items ≡ [] }
    ensures { OnOk result (object (members_view members.new.items) ≡ view_value (record v { title = None })) }
{
    members.push(checksum_member(alloc, "bill", v.bill)?)?;
    members.push(number_member(alloc, "entries", u64::from(v.entries))?)?;
    members.push(text_member(alloc, "place", place_text(v.place))?)?;
    Ok(())
}

fn titled_json(alloc: Global, v: View, title: Title) -> Result<Json, NoMemory>
    ensures { IfOk result (λ json. view json ≡ view_value (record v { title = Some title })) }
{
    let mut members = Vec::with_capacity(alloc, 6)?;
    put_titled(alloc, &mut members, v, title)?;
    Ok(object_json(members))
}

fn put_titled(
    alloc: Global,
    members: &mut Vec<Member>,
    v: View,
    title: Title,
) -> Result<(), NoMemory>
    requires empty { members.old.items ≡ [] }
    ensures { OnOk result (object (members_view members.new.items) ≡ view_value (record v { title = Some title })) }
{
    members.push(checksum_member(alloc, "bill", v.bill)?)?;
    members.push(number_member(alloc, "entries", u64::from(v.entries))?)?;
    members.push(party_member(alloc, "holder", title_holder(title))?)?;
    members.push(text_member(alloc, "place", place_text(v.place))?)?;
    members.push(party_member(alloc, "possessor", possessor(title))?)?;
    members.push(text_member(alloc, "state", state_text(title))?)?;
    Ok(())
}
