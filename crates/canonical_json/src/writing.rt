//! The canonical text of a value (RFC 8785).
ghost use Rattle.std.specs.Prelude.{◌≡◌, ◌≤◌, ◌<◌, ◌+◌, ◌++◌, [], ◌∷◌, false, take, drop, length, replicate, IfOk, OnOk};
ghost use Rattle.std.specs.Char.{digit_char};
ghost use Rattle.std.specs.Str.{IsUtf8};
ghost use Rattle.std.specs.Fmt.{signed_decimal, decimal as digits_of};
ghost use Rattle.std.specs.List.{prefix_len};
ghost use Rattle.json.specs.Print.{quoted, escape_letter, escape_byte};
ghost use Rattle.json.specs.Run.{is_plain};
ghost use Rattle.canonical_json.specs.View.{view, list_view, object_view};
ghost use Rattle.canonical_json.specs.Lawful.{HasTexts, HaveTexts, MembersHaveTexts};
ghost use Rattle.canonical_json.specs.Canon.{comma_if, canon, with_stop, decimal_text, values_text, members_text};

use crate::plain::is_plain;
use crate::value::{Json, JsonList, MemberList};
use ebl_base::{ByteList, NoMemory};
use std::alloc::Global;

/// The canonical text of a value: RFC 8785, sections 3.2.1 to 3.2.3. It takes one buffer that
/// grows, and goes as deep as the value nests.
pub fn write(alloc: Global, json: &Json) -> Result<ByteList, NoMemory>
    ensures text { IfOk result (λ bytes. bytes ≡ canon (view json.now)) }
    ensures texts { OnOk result (HasTexts (view json.now)) }
{
    let mut out = Vec::new(alloc);
    push_value(&mut out, json)?;
    Ok(ByteList::from_vec(out))
}

/// The canonical text of a text of these bytes, in quotation marks: RFC 8785, section 3.2.2.2. It is
/// a text of JSON where the bytes are UTF-8.
pub fn write_text(alloc: Global, text: &[u8]) -> Result<ByteList, NoMemory>
    ensures { IfOk result (λ bytes. bytes ≡ quoted text.now) }
{
    let mut out = Vec::with_capacity(alloc, text.len())?;
    push_quoted(&mut out, text)?;
    Ok(ByteList::from_vec(out))
}

#[cycle(write)]
fn push_value(out: &mut Vec<u8>, json: &Json) -> Result<(), NoMemory>
    ensures text { OnOk result (out.new.items ≡ out.old.items ++ canon (view json.now)) }
    ensures texts { OnOk result (HasTexts (view json.now)) }
{
    match json {
        Json::Null => push_bytes(out, b"null"),
        Json::Flag(true) => push_bytes(out, b"true"),
        Json::Flag(false) => push_bytes(out, b"false"),
        Json::Int(number) => push_number(out, *number),
        Json::Decimal { digits, scale } => push_decimal(out, *digits, *scale as usize),
        Json::Text(text) => push_text(out, text.as_str()),
        Json::List(list) => {
            push_byte(out, b'[')?;
            push_list(out, list)
        }
        Json::Object(members) => {
            push_byte(out, b'{')?;
            push_object(out, members)
        }
    }
}

#[cycle(write)]
fn push_list(out: &mut Vec<u8>, list: &JsonList) -> Result<(), NoMemory>
    ensures text { OnOk result (out.new.items
        ≡ out.old.items ++ values_text false (list_view list.now)) }
    ensures texts { OnOk result (HaveTexts (list_view list.now)) }
{
    let mut later = false;
    for item in list.as_slice() {
        push_comma_if(out, later)?;
        push_value(out, item)?;
        later = true;
    }
    push_byte(out, b']')
}

#[cycle(write)]
fn push_object(out: &mut Vec<u8>, members: &MemberList) -> Result<(), NoMemory>
    ensures text { OnOk result (out.new.items
        ≡ out.old.items ++ members_text false (object_view members.now)) }
    ensures texts { OnOk result (MembersHaveTexts (object_view members.now)) }
{
    let mut later = false;
    for member in members.as_slice() {
        push_comma_if(out, later)?;
        push_name(out, member.name.as_str())?;
        push_value(out, &member.value)?;
        later = true;
    }
    push_byte(out, b'}')
}

fn push_comma_if(out: &mut Vec<u8>, later: bool) -> Result<(), NoMemory>
    ensures { OnOk result (out.new.items ≡ out.old.items ++ comma_if later) }
{
    if later { push_byte(out, b',') } else { Ok(()) }
}

// A name with its colon.
fn push_name(out: &mut Vec<u8>, name: &str) -> Result<(), NoMemory>
    ensures text { OnOk result (out.new.items ≡ out.old.items ++ (quoted name.now ++ 58 ∷ [])) }
    ensures utf8 { IsUtf8 name.now }
{
    push_text(out, name)?;
    push_byte(out, b':')
}

// A single byte costs a few instructions, a piece a call besides.
fn push_byte(out: &mut Vec<u8>, byte: u8) -> Result<(), NoMemory>
    ensures { OnOk result (out.new.items ≡ out.old.items ++ byte ∷ []) }
{
    out.push(byte)?;
    Ok(())
}

fn push_bytes(out: &mut Vec<u8>, bytes: &[u8]) -> Result<(), NoMemory>
    ensures { OnOk result (out.new.items ≡ out.old.items ++ bytes.now) }
{
    out.extend_from_slice(bytes)?;
    Ok(())
}

fn push_number(out: &mut Vec<u8>, number: i64) -> Result<(), NoMemory>
    ensures { OnOk result (out.new.items ≡ out.old.items ++ signed_decimal number) }
{
    let mut buffer = itoa::Buffer::new();
    push_bytes(out, buffer.format(number).as_bytes())
}

fn push_decimal(out: &mut Vec<u8>, digits: i64, scale: usize) -> Result<(), NoMemory>
    ensures { OnOk result (out.new.items ≡ out.old.items ++ decimal_text digits scale) }
{
    if digits < 0 {
        push_byte(out, b'-')?;
    }
    let mut buffer = itoa::Buffer::new();
    push_with_stop(out, buffer.format(digits.unsigned_abs()).as_bytes(), scale)
}

// The digits with a full stop before the last `scale`, behind zeros where they are fewer.
fn push_with_stop(out: &mut Vec<u8>, digits: &[u8], scale: usize) -> Result<(), NoMemory>
    ensures { OnOk result (out.new.items ≡ out.old.items ++ with_stop scale digits.now) }
{
    if scale < digits.len() {
        let (whole, fraction) = digits.split_at(digits.len() - scale);
        push_bytes(out, whole)?;
        push_byte(out, b'.')?;
        return push_bytes(out, fraction);
    }
    push_bytes(out, b"0.")?;
    push_zeros(out, scale - digits.len())?;
    push_bytes(out, digits)
}

fn push_zeros(out: &mut Vec<u8>, count: usize) -> Result<(), NoMemory>
    ensures { OnOk result (out.new.items ≡ out.old.items ++ replicate count 48) }
{
    for _ in 0..count {
        out.push(b'0')?;
    }
    Ok(())
}

fn push_text(out: &mut Vec<u8>, text: &str) -> Result<(), NoMemory>
    ensures text { OnOk result (out.new.items ≡ out.old.items ++ quoted text.now) }
    ensures utf8 { IsUtf8 text.now }
{
    push_quoted(out, text.as_bytes())
}

// RFC 8785, section 3.2.2.2.
fn push_quoted(out: &mut Vec<u8>, text: &[u8]) -> Result<(), NoMemory>
    ensures { OnOk result (out.new.items ≡ out.old.items ++ quoted text.now) }
{
    if !is_plain(text) {
        return push_escaped(out, text);
    }
    push_byte(out, b'"')?;
    push_bytes(out, text)?;
    push_byte(out, b'"')
}

// Bytes that stand for themselves are written together.
fn push_escaped(out: &mut Vec<u8>, text: &[u8]) -> Result<(), NoMemory>
    ensures { OnOk result (out.new.items ≡ out.old.items ++ quoted text.now) }
{
    push_byte(out, b'"')?;
    let mut at = 0;
    loop {
        let stop = plain_end(text, at);
        push_bytes(out, &text[at..stop])?;
        if stop == text.len() {
            return push_byte(out, b'"');
        }
        let (escape, len) = escape_of(text[stop]);
        push_bytes(out, &escape[..len])?;
        at = stop + 1;
    }
}

// Where the bytes from `at` on that stand for themselves end.
fn plain_end(text: &[u8], at: usize) -> usize
    requires { at ≤ length text.now }
    ensures value { result ≡ at + prefix_len is_plain (drop at text.now) }
    ensures bound { result ≤ length text.now }
{
    let mut end = at;
    while end < text.len() && stands_for_itself(text[end]) {
        end += 1;
    }
    end
}

fn stands_for_itself(byte: u8) -> bool
    ensures { result ≡ is_plain byte }
{
    byte >= 0x20 && byte != b'"' && byte != b'\\'
}

// What stands for the byte, and how long it is.
fn escape_of(byte: u8) -> ([u8; 6], usize)
    ensures value { take result.1 result.0 ≡ escape_byte byte }
    ensures bound { result.1 ≤ 6 }
{
    let letter = escape_letter(byte);
    if letter > 0 {
        return ([b'\\', letter, 0, 0, 0, 0], 2);
    }
    if byte < 0x20 {
        return (
            [
                b'\\',
                b'u',
                b'0',
                b'0',
                hex_digit(byte / 16),
                hex_digit(byte % 16),
            ],
            6,
        );
    }
    ([byte, 0, 0, 0, 0, 0], 1)
}

fn escape_letter(byte: u8) -> u8
    ensures { result ≡ escape_letter byte }
{
    match byte {
        b'"' | b'\\' => byte,
        0x08 => b'b',
        0x0C => b'f',
        b'\n' => b'n',
        b'\r' => b'r',
        b'\t' => b't',
        _ => 0,
    }
}

fn hex_digit(digit: u8) -> u8
    requires { digit < 16 }
    ensures { result ≡ digit_char digit }
{
    if digit < 10 {
        b'0' + digit
    } else {
        b'a' - 10 + digit
    }
}
