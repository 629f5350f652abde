//! The forms as they are written. Members are put into an object in the order of their names.
ghost use Rattle.std.specs.Prelude.{◌≡◌, ◌≤◌, All, IfOk};
ghost use Rattle.canonical_json.specs.Lawful.{IsLawful};
ghost use Rattle.canonical_json.specs.Value.{text, list, object};
ghost use Rattle.canonical_json.specs.View.{view, member_view, members_view, items_view};
ghost use Rattle.json_forms.specs.Writing.{HasDigits, capped_value, number_value, platform_value, party_value, checksum_value, checksums_value};

use canonical_json::{Json, JsonList, Member, MemberList};
use ebl_base::{CharList, Checksum, MAX_WHOLE_NUMBER, NoMemory, Party, PlatformCode};
use hex::encode;
use std::alloc::Global;

/// A text.
pub fn text_json(alloc: Global, chars: &str) -> Result<Json, NoMemory>
    ensures { IfOk result (λ json. view json ≡ text chars.now) }
{
    Ok(Json::Text(CharList::from_text(alloc, chars)?))
}

/// A whole number; one past 2^53 - 1, which is the greatest of canonical JSON (RFC 7493, section 2.2), is written as
/// that.
pub fn number_json(number: u64) -> Json
    ensures value { view result ≡ capped_value number }
    ensures small { number ≤ MAX_WHOLE_NUMBER → view result ≡ number_value number }
    ensures lawful { IsLawful (view result) }
{
    Json::Int(number.min(MAX_WHOLE_NUMBER) as i64)
}

/// A checksum, as 64 hexadecimal digits in lower case.
pub fn checksum_json(alloc: Global, checksum: Checksum) -> Result<Json, NoMemory>
    ensures value { IfOk result (λ json. view json ≡ checksum_value checksum) }
    ensures digits { IfOk result (λ json. HasDigits checksum) }
{
    let digits = encode(alloc, checksum.0.as_slice())?;
    Ok(Json::Text(CharList::from_string(digits)))
}

/// A list of checksums, in their order.
pub fn checksums_json(alloc: Global, checksums: &[Checksum]) -> Result<Json, NoMemory>
    ensures value { IfOk result (λ json. view json ≡ checksums_value checksums.now) }
    ensures digits { IfOk result (λ json. All HasDigits checksums.now) }
{
    let mut items = Vec::with_capacity(alloc, checksums.len())?;
    for checksum in checksums {
        items.push(checksum_json(alloc, *checksum)?)?;
    }
    Ok(list_json(items))
}

/// A list of these values.
pub fn list_json(items: Vec<Json>) -> Json
    ensures { view result ≡ list (items_view items.items) }
{
    Json::List(JsonList::from_vec(items))
}

/// An object with these members.
pub fn object_json(members: Vec<Member>) -> Json
    ensures { view result ≡ object (members_view members.items) }
{
    Json::Object(MemberList::from_vec(members))
}

/// A value under a name.
pub fn member(alloc: Global, name: &str, value: Json) -> Result<Member, NoMemory>
    ensures { IfOk result (λ m. member_view m ≡ (name.now, view value)) }
{
    let name = CharList::from_text(alloc, name)?;
    Ok(Member { name, value })
}

/// A whole number under a name, as [`number_json`] writes it.
pub fn number_member(alloc: Global, name: &str, number: u64) -> Result<Member, NoMemory>
    ensures value { IfOk result (λ m. member_view m ≡ (name.now, capped_value number)) }
    ensures small { IfOk result (λ m. number ≤ MAX_WHOLE_NUMBER
        → member_view m ≡ (name.now, number_value number)) }
{
    member(alloc, name, number_json(number))
}

/// A text under a name.
pub fn text_member(alloc: Global, name: &str, chars: &str) -> Result<Member, NoMemory>
    ensures { IfOk result (λ m. member_view m ≡ (name.now, text chars.now)) }
{
    let value = text_json(alloc, chars)?;
    member(alloc, name, value)
}

/// A platform code under a name.
pub fn platform_member(
    alloc: Global,
    name: &str,
    platform: PlatformCode,
) -> Result<Member, NoMemory>
    ensures { IfOk result (λ m. member_view m ≡ (name.now, platform_value platform)) }
{
    text_member(alloc, name, platform.as_str())
}

/// A party under a name, as `ALPH/EXPORT`.
pub fn party_member(alloc: Global, name: &str, party: Party) -> Result<Member, NoMemory>
    ensures { IfOk result (λ m. member_view m ≡ (name.now, party_value party)) }
{
    text_member(alloc, name, party.to_text().as_str())
}

/// A checksum under a name, as 64 hexadecimal digits in lower case.
pub fn checksum_member(alloc: Global, name: &str, checksum: Checksum) -> Result<Member, NoMemory>
    ensures { IfOk result (λ m. member_view m ≡ (name.now, checksum_value checksum)) }
{
    let value = checksum_json(alloc, checksum)?;
    member(alloc, name, value)
}
