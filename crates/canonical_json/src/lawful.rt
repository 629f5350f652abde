//! Whether a value has a canonical text.
ghost use Rattle.std.specs.Prelude.{◌≡◌};
ghost use Rattle.canonical_json.specs.View.{view, list_view, object_view};
ghost use Rattle.canonical_json.specs.Lawful.{is_lawful, are_lawful, members_are_lawful, is_out_of_range};

use crate::name::names_rise;
use crate::number::is_decimal;
use crate::value::{Json, JsonList, MemberList};
use ebl_base::MAX_WHOLE_NUMBER;

/// Whether each whole number is at most 2^53 - 1 in size, each decimal has at most 15 digits, the
/// last of them not 0, a scale of at least 1 and a size of at least 10^-6, and the names of each
/// object rise strictly as sequences of UTF-16 code units. It goes as deep as the value nests.
#[cycle(lawful)]
pub fn is_lawful(json: &Json) -> bool
    ensures { result ≡ is_lawful (view json.now) }
{
    match json {
        Json::Null => true,
        Json::Flag(_) => true,
        Json::Int(number) => !is_out_of_range(*number),
        Json::Decimal { digits, scale } => is_decimal(digits.unsigned_abs(), *scale as usize),
        Json::Text(_) => true,
        Json::List(list) => are_lawful(list),
        Json::Object(members) => names_rise(members.as_slice()) && members_are_lawful(members),
    }
}

#[cycle(lawful)]
fn are_lawful(list: &JsonList) -> bool
    ensures { result ≡ are_lawful (list_view list.now) }
{
    for item in list.as_slice() {
        if !is_lawful(item) {
            return false;
        }
    }
    true
}

#[cycle(lawful)]
fn members_are_lawful(members: &MemberList) -> bool
    ensures { result ≡ members_are_lawful (object_view members.now) }
{
    for member in members.as_slice() {
        if !is_lawful(&member.value) {
            return false;
        }
    }
    true
}

fn is_out_of_range(number: i64) -> bool
    ensures { result ≡ is_out_of_range number }
{
    MAX_WHOLE_NUMBER < number.unsigned_abs()
}
