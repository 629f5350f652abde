//! What no clause can say: that the definitions are those of RFC 8785, and that the calls succeed.
ghost use Rattle.std.specs.Prelude.{◌<◌, IfOk, length};

use crate::tests::comparing::{is_refused, is_rewritten, is_written, same, same_bytes};
use crate::tests::making::{Form, assert_table, shown};
use canonical_json::{
    Json, JsonList, Member, MemberList, ReadError, canonical_reads, decimal_of,
    equal_texts_have_equal_values, flag_of, int_of, is_lawful, list_of, member_of, nests_within,
    read, read_if_any, take_member, text_of, write, write_text,
};
use ebl_base::{ByteList, CharList, NoMemory};
use former_reading::formerly_read_is_read_alike;
use serde_json::Value;
use std::alloc::{AllocError, Global};
use std::process::Abort;
use std::test::Fail;

// What a text is read as, written again, or why it isn't read.
struct Canonical;

impl Form for Canonical {
    fn answer(alloc: Global, text: &[u8]) -> Result<ByteList, Fail> {
        match read(alloc, text) {
            Ok(json) => lawful_text(alloc, json),
            Err(fault) => no_value(alloc, text, fault),
        }
    }
}

fn lawful_text(alloc: Global, json: Json) -> Result<ByteList, Fail> {
    let lawful = is_lawful(&json);
    let text = write(alloc, &json);
    drop(json);
    if lawful {
        Ok(text?)
    } else {
        Err("a value that is read is lawful".into())
    }
}

fn no_value(alloc: Global, text: &[u8], fault: ReadError) -> Result<ByteList, Fail> {
    match read_if_any(alloc, text)? {
        Some(json) => {
            drop(json);
            Err("what isn't read is no value".into())
        }
        None => shown(alloc, fault),
    }
}

// RFC 8785, sections 3.2.2 and 3.2.3, and rows worked by hand from them. The third is long enough for the kit's writer.
const TEXTS: &str = r#"
{} | {}
 [ ]  | []
"0123456789012345678901234567890123456789012345678901234567890123456789\u000a\"\/é" | "0123456789012345678901234567890123456789012345678901234567890123456789\n\"/é"
{"string": "\u20ac$\u000F\u000aA'\u0042\u0022\u005c\\\"\/", "literals": [null, true, false]} | {"literals":[null,true,false],"string":"€$\u000f\nA'B\"\\\\\"/"}
9007199254740991 | 9007199254740991
-9007199254740991 | -9007199254740991
[0,10,-1,100000000000] | [0,10,-1,100000000000]
{"b":1,"a":2} | {"a":2,"b":1}
{"aa":1,"a":2,"":3,"B":4} | {"":3,"B":4,"a":2,"aa":1}
"#;

// The same for what is written with control characters.
const CONTROLS: [(&[u8], &[u8]); 3] = [
    (
        b"{\"\\u20ac\": \"Euro Sign\", \"\\r\": \"Carriage Return\", \"\\ufb33\": \"Hebrew Letter Dalet With Dagesh\", \"1\": \"One\", \"\\ud83d\\ude00\": \"Emoji: Grinning Face\", \"\\u0080\": \"Control\", \"\\u00f6\": \"Latin Small Letter O With Diaeresis\"}",
        b"{\"\\r\":\"Carriage Return\",\"1\":\"One\",\"\xc2\x80\":\"Control\",\"\xc3\xb6\":\"Latin Small Letter O With Diaeresis\",\"\xe2\x82\xac\":\"Euro Sign\",\"\xf0\x9f\x98\x80\":\"Emoji: Grinning Face\",\"\xef\xac\xb3\":\"Hebrew Letter Dalet With Dagesh\"}",
    ),
    (
        b"{\"\\ufb33\":7,\"\\ud83d\\ude00\":6,\"\\u20ac\":5,\"\\u00f6\":4,\"\\u0080\":3,\"1\":2,\"\\r\":1}",
        b"\x7b\x22\x5c\x72\x22\x3a\x31\x2c\x22\x31\x22\x3a\x32\x2c\x22\xc2\x80\x22\x3a\x33\x2c\x22\xc3\xb6\x22\x3a\x34\x2c\x22\xe2\x82\xac\x22\x3a\x35\x2c\x22\xf0\x9f\x98\x80\x22\x3a\x36\x2c\x22\xef\xac\xb3\x22\x3a\x37\x7d",
    ),
    (
        b"\"\\u0000\\u0008\\u0009\\u000A\\u000C\\u000D\\u001F\\u0020\\u007F\\/\"",
        b"\"\\u0000\\b\\t\\n\\f\\r\\u001f \x7f/\"",
    ),
];

fn control_row(rt: &impl Abort, alloc: Global, text: &[u8], want: &[u8]) -> Result<(), Fail> {
    let came = Canonical::answer(alloc, text)?;
    same_bytes(rt, came.as_slice(), want);
    Ok(())
}

#[test]
fn the_text_is_that_of_rfc_8785(rt: HostRuntime) -> Result<(), Fail> {
    for &(text, want) in &CONTROLS {
        control_row(&rt, rt.alloc(), text, want)?;
    }
    assert_table::<Canonical, _>(&rt, TEXTS)
}

// RFC 8259 and RFC 3629 say which texts are none; 2^53 - 1 and the forms of numbers are this crate's limits.
const NONE: &str = r#"
 | NotJson
  | NotJson
{ | NotJson
[1,] | NotJson
{"a":1,} | NotJson
{a:1} | NotJson
'a' | NotJson
tru | NotJson
True | NotJson
NaN | NotJson
{} {} | NotJson
1 2 | NotJson
[]x | NotJson
// truncated and unknown escapes
"\ | NotJson
"\" | NotJson
"\u" | NotJson
"\u12" | NotJson
"\u123g" | NotJson
"\x41" | NotJson
// lone surrogates, in either half
"\ud800" | NotJson
"\udc00" | NotJson
"\ud83d\ud83d" | NotJson
"\ud83d\u0041" | NotJson
"\ude00\ud83d" | NotJson
// numbers
01 | NotJson
-01 | NotJson
+1 | NotJson
.5 | NotJson
1. | NotJson
1e | NotJson
"#;

// The same for what no row of a text can hold.
const NO_ROWS: [&[u8]; 11] = [
    b"\xef\xbb\xbf{}",
    // no UTF-8: overlong, above U+10FFFF, a surrogate, a stray byte
    b"\"\xc0\xaf\"",
    b"\"\xe0\x80\xaf\"",
    b"\"\xf0\x80\x80\xaf\"",
    b"\"\xf4\x90\x80\x80\"",
    b"\"\xed\xa0\x80\"",
    b"\"\xff\"",
    b"\"\x80\"",
    // control characters
    b"\"\x00\"",
    b"\"\n\"",
    b"\"\x1f\"",
];

const OTHERS: &str = r#"
{"a":1,"\u0061":2} | Repeated
{"":1,"b":{"":1,"":2}} | Repeated
{"/":1,"b":2,"\/":1} | Repeated
{"😀":1,"\uD83D\ude00":1} | Repeated
{"\t":1e3,"\u0009":1} | Repeated
[1e400,{"a":9007199254740992,"a":1}] | Repeated
1e3 | Fraction
1E-3 | Fraction
0e0 | Fraction
1e400 | Fraction
0.0000001 | Fraction
123456789012345.6 | Fraction
[9007199254740992,{"a":1e0}] | Fraction
9007199254740992 | Range
9007199254740992.0 | Range
-9007199254740992 | Range
9223372036854775808 | Range
18446744073709551616 | Range
-9223372036854775809 | Range
100000000000000000000000000000000000000000.000 | Range
{"a":[9007199254740992]} | Range
"#;

#[test]
fn each_refusal_has_its_cause(rt: HostRuntime) -> Result<(), Fail> {
    for &text in &NO_ROWS {
        is_refused(&rt, rt.alloc(), text, ReadError::NotJson);
    }
    assert_table::<Canonical, _>(&rt, NONE)?;
    assert_table::<Canonical, _>(&rt, OTHERS)
}

// RFC 8785, section 3.2.2.3, with rows of its appendix B in our range, and the edges of a decimal.
const NUMBERS: &str = r#"
24000.50 | 24000.5
-0 | 0
-0.00 | 0
1.0 | 1
-1.000000000000000000000000000000 | -1
0.000001 | 0.000001
-0.0000033333333333333333 | Fraction
333333333.3333333 | Fraction
333333333.333333 | 333333333.333333
-333333333.333333 | -333333333.333333
4.50 | 4.5
0.002 | 0.002
12345678901234.5 | 12345678901234.5
999999999999999.0 | 999999999999999
9007199254740991.000 | 9007199254740991
-9007199254740991.0 | -9007199254740991
99999999999999.9 | 99999999999999.9
999999999999999.9 | Fraction
0.1 | 0.1
-0.10 | -0.1
0.00000123456789012345 | 0.00000123456789012345
0.000001234567890123456 | Fraction
0.000000999999999999999 | Fraction
10.0000000000000 | 10
0.123456789012345000 | 0.123456789012345
"#;

#[test]
fn a_number_is_read_exactly(rt: HostRuntime) -> Result<(), Fail> {
    assert_table::<Canonical, _>(&rt, NUMBERS)
}

// The text of a decimal, which is lawful or not.
fn decimal_text(
    rt: &impl Abort,
    alloc: Global,
    digits: i64,
    scale: u32,
    lawful: bool,
) -> Result<ByteList, NoMemory> {
    let json = Json::Decimal { digits, scale };
    assert_eq!(rt; is_lawful(&json), lawful);
    let text = write(alloc, &json);
    drop(json);
    text
}

// A text that is lawful reads back, and another has a fraction that is too long.
fn reads_back_if_lawful(
    rt: &impl Abort,
    alloc: Global,
    text: &[u8],
    lawful: bool,
) -> Result<(), Fail> {
    if lawful {
        is_rewritten(rt, alloc, text, text)
    } else {
        is_refused(rt, alloc, text, ReadError::Fraction);
        Ok(())
    }
}

// A decimal is lawful and reads back up to a scale, and isn't read beyond it.
fn scale_row(
    rt: &impl Abort,
    alloc: Global,
    digits: i64,
    scale: u32,
    most: u32,
) -> Result<(), Fail> {
    let text = decimal_text(rt, alloc, digits, scale, scale <= most)?;
    reads_back_if_lawful(rt, alloc, text.as_slice(), scale <= most)
}

// One digit at each scale: 10^-6 is the least, and 15 digits below it are the most.
#[test]
fn each_scale_has_its_edge(rt: HostRuntime) -> Result<(), Fail> {
    for scale in 1..22 {
        scale_row(&rt, rt.alloc(), 1, scale, 6)?;
        scale_row(&rt, rt.alloc(), 999_999_999_999_999, scale, 20)?;
    }
    Ok(())
}

const NESTED: &str = r#"
*127*[**127*]* | *127*[**127*]*
*128*[**128*]* | NotJson
*127*{"a":*1*127*}* | *127*{"a":*1*127*}*
*128*{"a":*1*128*}* | NotJson
"#;

#[test]
fn a_value_nests_127_deep(rt: HostRuntime) -> Result<(), Fail> {
    assert_table::<Canonical, _>(&rt, NESTED)
}

// Whether a value nests within 0, 1, 2, 3 and 4.
struct Depths;

impl Form for Depths {
    fn answer(alloc: Global, text: &[u8]) -> Result<ByteList, Fail> {
        let json = read(alloc, text)?;
        let marks = marks(alloc, &json);
        drop(json);
        Ok(marks?)
    }
}

fn marks(alloc: Global, json: &Json) -> Result<ByteList, NoMemory> {
    let mut marks = ByteList::new(alloc);
    for most in 0..5 {
        marks.push(if nests_within(json, most) { b'+' } else { b'-' })?;
    }
    Ok(marks)
}

// The depths are counted by hand.
const DEPTHS: &str = r#"
null | +++++
[] | -++++
{} | -++++
{"a":{"b":1},"c":[]} | --+++
[0,[],[{}]] | ---++
[{"a":[null]}] | ---++
"#;

#[test]
fn values_nest_within_their_depth(rt: HostRuntime) -> Result<(), Fail> {
    assert_table::<Depths, _>(&rt, DEPTHS)
}

// What this object has under a name: a text, a whole number, a decimal, a truth value, the length of a list, and
// whether it is an object.
struct Members;

const OBJECT: &[u8] =
    b"{\"d\":-0.25,\"f\":false,\"l\":[1,2],\"n\":-7,\"o\":{\"x\":null},\"t\":\"at sea\"}";

impl Form for Members {
    fn answer(alloc: Global, name: &[u8]) -> Result<ByteList, Fail> {
        let name = std::str::from_utf8(name)?;
        let json = read(alloc, OBJECT)?;
        let found = found(alloc, &json, name);
        drop(json);
        found
    }
}

fn found(alloc: Global, json: &Json, name: &str) -> Result<ByteList, Fail> {
    let text = text_of(json, name).map(|t| t.as_str());
    let int = int_of(json, name);
    let decimal = decimal_of(json, name);
    let flag = flag_of(json, name);
    let length = list_of(json, name).map(|l| l.len());
    let object = matches!(member_of(json, name), Some(Json::Object(_)));
    let answer = format!(in alloc; "{text:?} {int:?} {decimal:?} {flag:?} {length:?} {object}")?;
    Ok(ByteList::from_slice(alloc, answer.as_bytes())?)
}

const FOUND: &str = r#"
t | Some("at sea") None None None None false
n | None Some(-7) None None None false
d | None None Some((-25, 2)) None None false
f | None None None Some(false) None false
l | None None None None Some(2) false
o | None None None None None true
x | None None None None None false
 | None None None None None false
tt | None None None None None false
"#;

#[test]
fn members_are_found_by_their_names(rt: HostRuntime) -> Result<(), Fail> {
    assert!(rt; member_of(&Json::Null, "t").is_none());
    assert_table::<Members, _>(&rt, FOUND)
}

fn members_in(alloc: Global, text: &[u8]) -> Result<Vec<Member>, Fail> {
    match read(alloc, text)? {
        Json::Object(members) => Ok(members.into_vec()),
        other => {
            drop(other);
            Err("an object".into())
        }
    }
}

fn kind_of(value: &Option<Json>) -> &'static str {
    match value {
        Some(Json::List(_)) => "a list",
        Some(Json::Null) => "null",
        Some(_) => "another value",
        None => "none",
    }
}

// What is taken out under a name.
fn taken(members: &mut Vec<Member>, name: &str) -> &'static str {
    let value = take_member(members, name);
    let kind = kind_of(&value);
    drop(value);
    kind
}

// Names in turn, and what is taken out under each.
const TAKEN: [(&str, &str); 4] = [("d", "none"), ("a", "a list"), ("a", "none"), ("c", "null")];

fn assert_taken(rt: &impl Abort, members: &mut Vec<Member>) {
    for &(name, want) in &TAKEN {
        assert_eq!(rt; taken(members, name), want, "{name}");
    }
}

// An object whose other members were taken out.
fn object_left(rt: &impl Abort, alloc: Global) -> Result<Json, Fail> {
    let mut members = members_in(alloc, b"{\"a\":[1],\"b\":\"x\\n\",\"c\":null}")?;
    assert_taken(rt, &mut members);
    Ok(Json::Object(MemberList::from_vec(members)))
}

#[test]
fn a_member_is_taken_out(rt: HostRuntime) -> Result<(), Fail> {
    let left = object_left(&rt, rt.alloc())?;
    let written = is_written(&rt, rt.alloc(), &left, b"{\"b\":\"x\\n\"}");
    drop(left);
    Ok(written?)
}

fn is_written_alone(
    rt: &impl Abort,
    alloc: Global,
    text: &[u8],
    want: &[u8],
) -> Result<(), NoMemory> {
    let written = write_text(alloc, text)?;
    same_bytes(rt, written.as_slice(), want);
    Ok(())
}

#[test]
fn a_text_is_written_alone(rt: HostRuntime) -> Result<(), Fail> {
    is_written_alone(&rt, rt.alloc(), b"x\n", b"\"x\\n\"")?;
    is_written_alone(&rt, rt.alloc(), b"\xff\n", b"\"\xff\\n\"")?;
    Ok(())
}

fn named(alloc: Global, name: &str, value: Json) -> Result<Member, NoMemory> {
    let Ok(name) = CharList::from_text(alloc, name) else {
        drop(value);
        return Err(NoMemory);
    };
    Ok(Member::new(name, value))
}

fn pair(alloc: Global, first: &str, second: &str, number: i64) -> Result<Json, NoMemory> {
    let mut members = Vec::new(alloc);
    members.push(named(alloc, first, Json::Int(number))?)?;
    members.push(named(alloc, second, Json::Null)?)?;
    Ok(Json::Object(MemberList::from_vec(members)))
}

// A list of a flag and such an object.
fn built(alloc: Global, first: &str, second: &str, number: i64) -> Result<Json, NoMemory> {
    let mut items = Vec::new(alloc);
    items.push(Json::Flag(true))?;
    items.push(pair(alloc, first, second, number)?)?;
    Ok(Json::List(JsonList::from_vec(items)))
}

// The names of two members and a number, and whether the value that is built of them is lawful.
const BUILT: [(&str, &str, i64, bool); 7] = [
    ("a", "b", 1, true),
    ("\u{1F600}", "\u{FB33}", 9_007_199_254_740_991, true),
    ("\u{FB33}", "\u{1F600}", 1, false),
    ("b", "a", 1, false),
    ("a", "a", 1, false),
    ("a", "b", 9_007_199_254_740_992, false),
    ("a", "b", -9_007_199_254_740_992, false),
];

fn assert_same_text(
    rt: &impl Abort,
    alloc: Global,
    copy: &Json,
    json: &Json,
) -> Result<(), NoMemory> {
    let text = write(alloc, json)?;
    is_written(rt, alloc, copy, text.as_slice())
}

fn is_copied(rt: &impl Abort, alloc: Global, json: &Json) -> Result<(), NoMemory> {
    let copy = json.copy(alloc)?;
    let told = assert_same_text(rt, alloc, &copy, json);
    drop(copy);
    told
}

fn built_row(
    rt: &impl Abort,
    alloc: Global,
    first: &str,
    second: &str,
    number: i64,
    lawful: bool,
) -> Result<(), NoMemory> {
    let json = built(alloc, first, second, number)?;
    assert_eq!(rt; is_lawful(&json), lawful);
    let copied = is_copied(rt, alloc, &json);
    drop(json);
    copied
}

#[test]
fn values_are_built_and_copied(rt: HostRuntime) -> Result<(), Fail> {
    for &(first, second, number, lawful) in &BUILT {
        built_row(&rt, rt.alloc(), first, second, number, lawful)?;
    }
    canonical_reads();
    equal_texts_have_equal_values();
    formerly_read_is_read_alike();
    Ok(())
}

fn assert_no_values(rt: &impl Abort, list: JsonList) {
    let lengths = (list.len(), list.as_slice().len());
    same(rt, "lengths of a list", lengths, (0, 0));
    same(rt, "values of a list", list.into_vec().len(), 0);
}

fn assert_no_members(rt: &impl Abort, members: MemberList) {
    let lengths = (members.len(), members.as_slice().len());
    same(rt, "lengths of members", lengths, (0, 0));
    same(rt, "members of a list", members.into_vec().len(), 0);
}

fn assert_member(rt: &impl Abort, member: &Member) {
    assert_eq!(rt; member.name.as_str(), "a");
    assert!(rt; matches!(member.value, Json::Int(7)));
}

fn copied_member(alloc: Global) -> Result<Member, NoMemory> {
    let member = named(alloc, "a", Json::Int(7))?;
    let copy = member.copy(alloc);
    drop(member);
    copy
}

#[test]
fn lists_of_values_are_copied(rt: HostRuntime) -> Result<(), Fail> {
    assert_no_values(&rt, JsonList::new(rt.alloc()).copy(rt.alloc())?);
    assert_no_members(&rt, MemberList::new(rt.alloc()).copy(rt.alloc())?);
    let member = copied_member(rt.alloc())?;
    assert_member(&rt, &member);
    drop(member);
    Ok(())
}

// A next number of a linear congruence (Knuth, MMIX).
fn next(state: u64) -> u64 {
    state
        .wrapping_mul(6_364_136_223_846_793_005)
        .wrapping_add(1_442_695_040_888_963_407)
}

// One of the texts, by the high bits of a number.
fn pick<'a>(texts: &[&'a [u8]], state: u64) -> &'a [u8]
    requires { 0 < length texts.now }
{
    texts[(state >> 33) as usize % texts.len()]
}

// Pieces of JSON.
const PIECES: [&[u8]; 22] = [
    b"{",
    b"}",
    b"[",
    b"]",
    b",",
    b":",
    b"\"a\"",
    b"\"b\":",
    b"\"\\ud83d\"",
    b"\"\xc3\xa9\"",
    b"1",
    b"-0",
    b"-",
    b"0.5",
    b"2.50",
    b"1e3 ",
    b"true",
    b"null",
    b" ",
    b"[1,2]",
    b"{\"a\":3,\"b\":[]}",
    b"\xff",
];

// Pieces that are mostly no JSON when they are put together.
fn some_pieces(alloc: Global, seed: u64) -> Result<Vec<u8>, AllocError> {
    let mut text = Vec::new(alloc);
    let mut state = next(seed);
    for _ in 0..(1 + state % 7) {
        state = next(state);
        text.extend_from_slice(pick(&PIECES, state))?;
    }
    Ok(text)
}

const NAMES: [&[u8]; 5] = [
    b"\"a\"",
    b"\"\\u0061\"",
    b" \"\"",
    b"\"\\ud83d\\ude00\"",
    b"\"\xf0\x9f\x98\x80\" ",
];

const VALUES: [&[u8]; 8] = [
    b"1",
    b"-0.0",
    b"2.50",
    b"1e3",
    b"9007199254740992",
    b"[null]",
    b"{\"b\":0,\"a\":\"\\/\"}",
    b"01",
];

// A member by the next two numbers, the last of which it gives.
fn add_member(text: &mut Vec<u8>, before: &[u8], state: u64) -> Result<u64, AllocError> {
    text.extend_from_slice(before)?;
    let state = next(state);
    text.extend_from_slice(pick(&NAMES, state))?;
    text.extend_from_slice(b":")?;
    let state = next(state);
    text.extend_from_slice(pick(&VALUES, state))?;
    Ok(state)
}

// An object of two members, whose names are often one.
fn some_object(alloc: Global, seed: u64) -> Result<Vec<u8>, AllocError> {
    let mut text = Vec::new(alloc);
    let state = add_member(&mut text, b"{", seed)?;
    add_member(&mut text, b",", state)?;
    text.extend_from_slice(b"}")?;
    Ok(text)
}

fn some_text(alloc: Global, seed: u64) -> Result<Vec<u8>, AllocError> {
    if seed % 2 == 0 {
        some_pieces(alloc, seed)
    } else {
        some_object(alloc, seed)
    }
}

// What is read is written so that it reads back.
fn assert_reads_back(rt: &impl Abort, alloc: Global, json: &Json) -> Result<(), Fail> {
    let canon = write(alloc, json)?;
    is_rewritten(rt, alloc, canon.as_slice(), canon.as_slice())
}

// 0 of a value, else a number of the cause.
fn answer(rt: &impl Abort, alloc: Global, text: &[u8]) -> Result<usize, Fail>
    ensures { IfOk result (λ number. number < 5) }
{
    match read(alloc, text) {
        Ok(json) => {
            let told = assert_reads_back(rt, alloc, &json);
            drop(json);
            told?;
            Ok(0)
        }
        Err(ReadError::NotJson) => Ok(1),
        Err(ReadError::Repeated) => Ok(2),
        Err(ReadError::Fraction) => Ok(3),
        Err(_) => Ok(4),
    }
}

// What is no JSON here is none to `serde_json`, and the other way round.
fn assert_same_grammar(rt: &impl Abort, alloc: Global, text: &[u8], answer: usize) {
    let value = Value::from_slice(alloc, text);
    let there = value.is_ok();
    drop(value);
    assert_eq!(rt; there, answer != 1, "{text:?}");
}

// The answer to a made text.
fn seed_row(rt: &impl Abort, alloc: Global, seed: u64) -> Result<usize, Fail>
    ensures { IfOk result (λ number. number < 5) }
{
    let text = some_text(alloc, seed)?;
    let answer = answer(rt, alloc, text.as_slice())?;
    assert_same_grammar(rt, alloc, text.as_slice(), answer);
    Ok(answer)
}

// Each answer came often.
fn assert_counts(rt: &impl Abort, counts: &[u64]) {
    for &count in counts {
        assert!(rt; count > 200, "{counts:?}");
    }
}

#[test]
fn the_grammar_is_that_of_serde_json(rt: HostRuntime) -> Result<(), Fail> {
    let mut counts = [0u64; 5];
    for seed in 0..10_000u64 {
        let answer = seed_row(&rt, rt.alloc(), seed)?;
        counts[answer] = counts[answer].saturating_add(1);
    }
    assert_counts(&rt, &counts);
    Ok(())
}
