//! The members of an object by their names. None takes memory; each looks at the members one by one.
ghost use Rattle.std.specs.Prelude.{◌≡◌, option_map};
ghost use Rattle.canonical_json.specs.View.{view, list_view, object_view};
ghost use Rattle.canonical_json.specs.Field.{under, member_of, text_of, int_of, decimal_of, flag_of, list_of};

use crate::value::{Json, JsonList, MemberList};
use ebl_base::CharList;

/// The member of that name. None where the value is no object, or has no such member.
pub fn member_of<'a>(json: &'a Json, name: &str) -> Option<&'a Json>
    ensures { option_map (λ v. view v.now) result ≡ member_of name.now (view json.now) }
{
    match json {
        Json::Object(members) => under(members, name),
        _ => None,
    }
}

/// The member of that name where it is a text. None where the value is no object, or has no such
/// member that is a text.
pub fn text_of<'a>(json: &'a Json, name: &str) -> Option<&'a CharList>
    ensures { option_map (λ t. t.now) result ≡ text_of name.now (view json.now) }
{
    match member_of(json, name) {
        Some(Json::Text(text)) => Some(text),
        _ => None,
    }
}

/// The member of that name where it is a whole number.
pub fn int_of(json: &Json, name: &str) -> Option<i64>
    ensures { result ≡ int_of name.now (view json.now) }
{
    match member_of(json, name) {
        Some(Json::Int(number)) => Some(*number),
        _ => None,
    }
}

/// The digits and the scale of the member of that name where it is a decimal. None if and only if
/// the value is no object with such a member that is a decimal.
pub fn decimal_of(json: &Json, name: &str) -> Option<(i64, u32)>
    ensures { result ≡ decimal_of name.now (view json.now) }
{
    match member_of(json, name) {
        Some(Json::Decimal { digits, scale }) => Some((*digits, *scale)),
        _ => None,
    }
}

/// The member of that name where it is a truth value.
pub fn flag_of(json: &Json, name: &str) -> Option<bool>
    ensures { result ≡ flag_of name.now (view json.now) }
{
    match member_of(json, name) {
        Some(Json::Flag(flag)) => Some(*flag),
        _ => None,
    }
}

/// The member of that name where it is a list.
pub fn list_of<'a>(json: &'a Json, name: &str) -> Option<&'a JsonList>
    ensures { option_map (λ l. list_view l.now) result ≡ list_of name.now (view json.now) }
{
    match member_of(json, name) {
        Some(Json::List(list)) => Some(list),
        _ => None,
    }
}

fn under<'a>(members: &'a MemberList, name: &str) -> Option<&'a Json>
    ensures { option_map (λ v. view v.now) result ≡ under name.now (object_view members.now) }
{
    for member in members.as_slice() {
        if member.name.as_str() == name {
            return Some(&member.value);
        }
    }
    None
}
