//! Reading values from the tokens of a text, straight into lists and members.
ghost use Rattle.std.specs.Prelude.{◌≡◌, ◌<◌, ◌++◌, ◌∷◌, [], length, Some, option_map, IfOk, IfErr, OnOk, MatchResult};
ghost use Rattle.std.specs.Str.{IsUtf8};
ghost use Rattle.json.specs.Json as grammar;
ghost use Rattle.canonical_json.specs.View.{view, list_view, object_view};
ghost use Rattle.canonical_json.specs.Lawful.{HasTexts, HaveTexts, MembersHaveTexts};
ghost use Rattle.canonical_json.specs.Faults.{IsValueOf, AreItemsOf, AreMembersOf, IsStop};

use crate::fault::ReadError;
use crate::faults::Faults;
use crate::name::sort_by_names;
use crate::number::number_of;
use crate::value::{Json, JsonList, Member, MemberList};
use ebl_base::{CharList, NoMemory};
use json::{Reader, Token};
use std::alloc::Global;

/// The next value of the reader, with its faults noted. Lists and objects may nest `depth` deep.
/// Where a name comes twice, it is some value. NotJson if no value comes next.
#[cycle(descent)]
#[inline(always)]
pub(crate) fn next_value(
    alloc: Global,
    reader: &mut Reader<'_>,
    depth: usize,
    faults: &mut Faults,
) -> Result<Json, ReadError>
    ensures ok { IfOk result (λ json. (tree : grammar.Json)
        × (grammar.value depth reader.old ≡ Some (tree, reader.new))
        × IsValueOf tree faults.old faults.new (view json)) }
    ensures texts { IfOk result (λ json. HasTexts (view json)) }
    ensures shorter { OnOk result (length reader.new < length reader.old) }
    ensures err { IfErr result (λ e. IsStop (grammar.value depth reader.old) e) }
{
    let Some(token) = reader.next() else {
        return Err(ReadError::NotJson);
    };
    match token {
        Token::String(text) => Ok(Json::Text(char_list(alloc, text)?)),
        Token::Number(text) => Ok(number_of(text, faults)),
        Token::Bool(flag) => Ok(Json::Flag(flag)),
        Token::Null => Ok(Json::Null),
        Token::BeginArray => {
            if depth == 0 {
                return Err(ReadError::NotJson);
            }
            Ok(Json::List(next_items(alloc, reader, depth - 1, faults)?))
        }
        Token::BeginObject => {
            if depth == 0 {
                return Err(ReadError::NotJson);
            }
            Ok(Json::Object(next_members(alloc, reader, depth - 1, faults)?))
        }
        Token::EndObject | Token::EndArray | Token::Key(_) | Token::Bad => Err(ReadError::NotJson),
    }
}

// The values up to the bracket that closes their list.
#[cycle(descent)]
#[inline(never)]
fn next_items(
    alloc: Global,
    reader: &mut Reader<'_>,
    depth: usize,
    faults: &mut Faults,
) -> Result<JsonList, ReadError>
    ensures ok { IfOk result (λ list. (trees : grammar.Items)
        × (grammar.items (grammar.value depth) (length reader.old) reader.old ≡ Some (trees, reader.new))
        × AreItemsOf trees faults.old faults.new (list_view list)) }
    ensures texts { IfOk result (λ list. HaveTexts (list_view list)) }
    ensures shorter { OnOk result (length reader.new < length reader.old) }
    ensures err { IfErr result (λ e.
        IsStop (grammar.items (grammar.value depth) (length reader.old) reader.old) e) }
{
    let mut found = Vec::new(alloc);
    while !reader.take_end_array() {
        let item = next_value(alloc, reader, depth, faults)?;
        push(&mut found, item)?;
    }
    Ok(JsonList::from_vec(found))
}

// The members up to the brace that closes their object, in order.
#[cycle(descent)]
#[inline(never)]
fn next_members(
    alloc: Global,
    reader: &mut Reader<'_>,
    depth: usize,
    faults: &mut Faults,
) -> Result<MemberList, ReadError>
    ensures ok { IfOk result (λ list. (trees : grammar.Members)
        × (grammar.members (grammar.value depth) (length reader.old) reader.old ≡ Some (trees, reader.new))
        × AreMembersOf trees faults.old faults.new (object_view list)) }
    ensures texts { IfOk result (λ list. MembersHaveTexts (object_view list)) }
    ensures shorter { OnOk result (length reader.new < length reader.old) }
    ensures err { IfErr result (λ e.
        IsStop (grammar.members (grammar.value depth) (length reader.old) reader.old) e) }
{
    let mut found = Vec::new(alloc);
    while let Some(name) = next_name(reader)? {
        let name = char_list(alloc, name)?;
        let value = next_value(alloc, reader, depth, faults)?;
        push(&mut found, Member::new(name, value))?;
    }
    let apart = sort_by_names(&mut found)?;
    faults.repeated = faults.repeated | !apart;
    Ok(MemberList::from_vec(found))
}

// The next name, or none at the brace that closes the object.
#[inline(always)]
fn next_name<'a>(reader: &mut Reader<'a>) -> Result<Option<&'a str>, ReadError>
    ensures { MatchResult result
        (λ name. grammar.read_key reader.old ≡ Some (option_map (λ s. s.now) name, reader.new))
        (λ e. IsStop (grammar.read_key reader.old) e) }
{
    match reader.next_key() {
        Ok(name) => Ok(name),
        Err(_) => Err(ReadError::NotJson),
    }
}

fn push<T: Drop>(list: &mut Vec<T>, item: T) -> Result<(), NoMemory>
    ensures { OnOk result (list.new.items ≡ list.old.items ++ item ∷ []) }
{
    list.push(item)?;
    Ok(())
}

fn char_list(alloc: Global, text: &str) -> Result<CharList, NoMemory>
    ensures value { IfOk result (λ chars. chars ≡ text.now) }
    ensures utf8 { IsUtf8 text.now }
{
    CharList::from_text(alloc, text)
}
