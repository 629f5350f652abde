//! How deep a value nests.
ghost use Rattle.std.specs.Prelude.{◌≡◌, nat_le};
ghost use Rattle.canonical_json.specs.Value.{depth, values_depth, members_depth};
ghost use Rattle.canonical_json.specs.View.{view, list_view, object_view};

use crate::value::{Json, JsonList, MemberList};

/// Whether lists and objects nest at most so deep: a value that is neither nests 0 deep. It goes no deeper than that.
#[cycle(nesting)]
pub fn nests_within(json: &Json, most: usize) -> bool
    ensures { result ≡ nat_le (depth (view json.now)) most }
{
    match json {
        Json::Null => true,
        Json::Flag(_) => true,
        Json::Int(_) => true,
        Json::Decimal { .. } => true,
        Json::Text(_) => true,
        Json::List(list) => 0 < most && list_nests_within(list, most - 1),
        Json::Object(members) => 0 < most && members_nest_within(members, most - 1),
    }
}

#[cycle(nesting)]
fn list_nests_within(list: &JsonList, most: usize) -> bool
    ensures { result ≡ nat_le (values_depth (list_view list.now)) most }
{
    for item in list.as_slice() {
        if !nests_within(item, most) {
            return false;
        }
    }
    true
}

#[cycle(nesting)]
fn members_nest_within(members: &MemberList, most: usize) -> bool
    ensures { result ≡ nat_le (members_depth (object_view members.now)) most }
{
    for member in members.as_slice() {
        if !nests_within(&member.value, most) {
            return false;
        }
    }
    true
}
