//! Taking a member out of an object, so that what stands under its name needn't be copied.
ghost use Rattle.std.specs.Prelude.{◌≡◌, option_map};
ghost use Rattle.canonical_json.specs.View.{view, members_view};
ghost use Rattle.canonical_json.specs.Field.{under};
ghost use Rattle.canonical_json.specs.Taking.{place_of, without};

use crate::value::{Json, Member};

/// Takes the first member of that name out of some members, and gives what stood under it. None
/// if and only if there is no such member. The others stay, in their order.
///
/// It allocates nothing, and looks at the members one by one.
pub fn take_member(members: &mut Vec<Member>, name: &str) -> Option<Json>
    ensures value { option_map view result ≡ under name.now (members_view members.old.items) }
    ensures rest { members_view members.new.items ≡ without name.now (members_view members.old.items) }
{
    let at = place_of(members.as_slice(), name)?;
    let member = members.remove(at);
    Some(member.value)
}

// Where the first member of that name stands.
fn place_of(members: &[Member], name: &str) -> Option<usize>
    ensures { result ≡ place_of name.now (members_view members.now) }
{
    for (i, member) in members.iter().enumerate() {
        if member.name.as_str() == name {
            return Some(i);
        }
    }
    None
}
