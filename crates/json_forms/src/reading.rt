//! The forms as they are read. None allocates except [`checksums_in`].
ghost use Rattle.std.specs.Prelude.{◌≡◌, ◌&&◌, nat_le, option_map, IfOk};
ghost use Rattle.canonical_json.specs.View.{view, list_view, items_view};
ghost use Rattle.json_forms.specs.Reading.{required_items, within, number_in, required_number, party_in, required_party, platform_in, required_platform, checksum_in, required_checksum, required_provider, required_carrier_code, in_form, optional_party, optional_checksum, optional_text, all_of, IsOptionalText};

use canonical_json::{Json, JsonList, int_of, list_of, member_of, text_of};
use document_checksum::from_text;
use ebl_base::{
    CarrierCode, CharList, Checksum, ChecksumList, NoMemory, Party, PlatformCode, Provider,
};
use std::alloc::Global;

/// A member that may be left out is there, and is malformed.
#[derive(Clone, Copy, Debug, PartialEq, Eq)]
pub struct Malformed;

/// The platform code that a value is, a text of four characters. None exactly when it is malformed.
pub fn platform_in(json: &Json) -> Option<PlatformCode>
    ensures { result ≡ platform_in (view json.now) }
{
    match json {
        Json::Text(text) => PlatformCode::try_new(text.as_str().as_bytes()),
        _ => None,
    }
}

/// The party that a value is, a text as `ALPH/EXPORT`. None exactly when it is malformed.
pub fn party_in(json: &Json) -> Option<Party>
    ensures { result ≡ party_in (view json.now) }
{
    match json {
        Json::Text(text) => Party::from_text(text.as_str().as_bytes()),
        _ => None,
    }
}

/// The checksum that a value is, a text of 64 hexadecimal digits in lower case. None exactly when it is of
/// another form.
pub fn checksum_in(json: &Json) -> Option<Checksum>
    ensures { result ≡ checksum_in (view json.now) }
{
    match json {
        Json::Text(text) => from_text(text.as_str().as_bytes()),
        _ => None,
    }
}

/// The platform code that the member of that name is. None exactly when the value is no object with
/// such a member.
pub fn required_platform(json: &Json, name: &str) -> Option<PlatformCode>
    ensures { result ≡ required_platform name.now (view json.now) }
{
    let text = text_of(json, name)?;
    PlatformCode::try_new(text.as_str().as_bytes())
}

/// The party that the member of that name is. None exactly when the value is no object with such a member.
pub fn required_party(json: &Json, name: &str) -> Option<Party>
    ensures { result ≡ required_party name.now (view json.now) }
{
    let text = text_of(json, name)?;
    Party::from_text(text.as_str().as_bytes())
}

/// The checksum that the member of that name is. None exactly when the value is no object with such a member.
pub fn required_checksum(json: &Json, name: &str) -> Option<Checksum>
    ensures { result ≡ required_checksum name.now (view json.now) }
{
    let text = text_of(json, name)?;
    from_text(text.as_str().as_bytes())
}

/// The provider that the member of that name is, `SMDG` or `NMFTA`. None exactly when the value is no
/// object with such a member.
pub fn required_provider(json: &Json, name: &str) -> Option<Provider>
    ensures { result ≡ required_provider name.now (view json.now) }
{
    let text = text_of(json, name)?;
    Provider::from_text(text.as_str().as_bytes())
}

/// The carrier's code that the member of that name is, a text of 1 to 4 characters. None exactly when
/// the value is no object with such a member.
pub fn required_carrier_code(json: &Json, name: &str) -> Option<CarrierCode>
    ensures { result ≡ required_carrier_code name.now (view json.now) }
{
    let text = text_of(json, name)?;
    CarrierCode::try_new(text.as_str().as_bytes())
}

/// The whole number from `least` to `most` that the member of that name is. None exactly when the value is no
/// object with such a member.
pub fn required_number(json: &Json, name: &str, least: u64, most: u64) -> Option<u64>
    ensures { result ≡ required_number name.now least most (view json.now) }
{
    number_in(int_of(json, name)?, least, most)
}

fn number_in(number: i64, least: u64, most: u64) -> Option<u64>
    ensures { result ≡ number_in least most number }
{
    if number < 0 {
        return None;
    }
    let number = number as u64;
    if least <= number && number <= most {
        Some(number)
    } else {
        None
    }
}

/// The party that the member of that name is, or none where there is no such member. [`Malformed`] exactly when
/// the member is there and is no party.
pub fn optional_party(json: &Json, name: &str) -> Result<Option<Party>, Malformed>
    ensures { result ≡ optional_party name.now (view json.now) }
{
    match member_of(json, name) {
        Some(member) => in_form(party_in(member)),
        None => Ok(None),
    }
}

/// The checksum that the member of that name is, or none where there is no such member. [`Malformed`] exactly when
/// the member is there and is no checksum.
pub fn optional_checksum(json: &Json, name: &str) -> Result<Option<Checksum>, Malformed>
    ensures { result ≡ optional_checksum name.now (view json.now) }
{
    match member_of(json, name) {
        Some(member) => in_form(checksum_in(member)),
        None => Ok(None),
    }
}

/// The text that the member of that name is, or none where there is no such member. [`Malformed`] exactly when the
/// member is there and is no text.
pub fn optional_text<'a>(json: &'a Json, name: &str) -> Result<Option<&'a CharList>, Malformed>
    ensures { IsOptionalText (option_map (λ t. t.now)) result (optional_text name.now (view json.now)) }
{
    match member_of(json, name) {
        Some(Json::Text(text)) => Ok(Some(text)),
        Some(_) => Err(Malformed),
        None => Ok(None),
    }
}

fn in_form<T>(form: Option<T>) -> Result<Option<T>, Malformed>
    ensures { result ≡ in_form form }
{
    match form {
        Some(form) => Ok(Some(form)),
        None => Err(Malformed),
    }
}

/// The checksums that the values are. None exactly when one of them is malformed. It looks at each once.
pub fn checksums_in(alloc: Global, items: &[Json]) -> Result<Option<ChecksumList>, NoMemory>
    ensures { IfOk result (λ found. found ≡ all_of checksum_in (items_view items.now)) }
{
    let mut checksums = Vec::with_capacity(alloc, items.len())?;
    for item in items {
        let Some(checksum) = checksum_in(item) else {
            return Ok(None);
        };
        checksums.push(checksum)?;
    }
    Ok(Some(ChecksumList::from_vec(checksums)))
}

/// The values of the list that the member of that name is, where it has `least` to `most`. None exactly
/// where the value is no object with such a member.
pub fn required_items<'a>(
    json: &'a Json,
    name: &str,
    least: usize,
    most: usize,
) -> Option<&'a [Json]>
    ensures { option_map (λ items. items_view items.now) result ≡ required_items name.now least most (view json.now) }
{
    within(list_of(json, name)?, least, most)
}

fn within(list: &JsonList, least: usize, most: usize) -> Option<&[Json]>
    ensures { option_map (λ items. items_view items.now) result ≡ within least most (list_view list.now) }
{
    let items = list.as_slice();
    if is_within(items.len(), least, most) {
        Some(items)
    } else {
        None
    }
}

fn is_within(count: usize, least: usize, most: usize) -> bool
    ensures { result ≡ (nat_le least count && nat_le count most) }
{
    least <= count && count <= most
}
