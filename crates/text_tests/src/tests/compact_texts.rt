//! Which texts have parts. `signed_texts` shows the rest.
use crate::tests::comparing::same;
use crate::tests::making::{Form, assert_table, shown};
use ebl_base::{ByteList, Copied, Signature};
use signed_envelope::{BadSigned, Parts, SplitFault, is_compact, split};
use std::alloc::Global;
use std::test::Fail;

// A text behind its room.
fn room_and_text(text: &[u8]) -> Result<(usize, &[u8]), Fail> {
    let (room, text) = std::str::from_utf8(text)?.split_once(' ').ok_or("a room")?;
    Ok((room.parse()?, text.as_bytes()))
}

// The header, the payload, the bytes of the signature, and the length of what is signed.
struct InParts;

impl Form for InParts {
    fn answer(alloc: Global, text: &[u8]) -> Result<ByteList, Fail> {
        let (room, text) = room_and_text(text)?;
        match split(alloc, text, room) {
            Ok(parts) => copied(alloc, parts),
            Err(fault) => shown(alloc, fault),
        }
    }
}

fn copied(alloc: Global, parts: Parts) -> Result<ByteList, Fail> {
    let answer = with_copy(alloc, &parts);
    drop(parts);
    answer
}

fn with_copy(alloc: Global, parts: &Parts) -> Result<ByteList, Fail> {
    let copy = parts.copy(alloc)?;
    let again = parts_of(alloc, &copy);
    drop(copy);
    let again = again?;
    let answer = parts_of(alloc, parts)?;
    if answer.as_slice() == again.as_slice() {
        Ok(answer)
    } else {
        Err("a copy has the same parts".into())
    }
}

fn parts_of(alloc: Global, parts: &Parts) -> Result<ByteList, Fail> {
    let header = std::str::from_utf8(parts.header.as_slice())?;
    let payload = std::str::from_utf8(parts.payload.as_slice())?;
    let signature = parts.signature.as_bytes();
    let answer = format!(in alloc; "{header} {payload} {signature:?} {}", parts.input_len)?;
    Ok(ByteList::from_slice(alloc, answer.as_bytes())?)
}

// The first has `{}`, `{}` and one zero byte, the second no bytes, and the third the longest signature.
const PARTS: &str = r#"
10 e30.e30.AA | {} {} [0] 7
10 ..AA |   [0] 1
1000 e30.e30.*86*A* | {} {} [*63*0, *0] 7
1000 e30.e30.*87*A* | NotCompact
9 e30.e30.AA | NotCompact
"#;

const OTHERS: &str = "
100  | NotCompact
100 . | NotCompact
100 .. | NotCompact
100 e30 | NotCompact
100 e30.e30 | NotCompact
100 e30.e30. | NotCompact
100 e30.e30.AA. | NotCompact
100 e30.e30.AA.AA | NotCompact
// Padding.
100 e30=.e30.AA | NotCompact
100 e30.e30=.AA | NotCompact
100 e30.e30.AA== | NotCompact
// Bits at the end that are not zero.
100 e31.e30.AA | NotCompact
100 e30.e31.AA | NotCompact
100 e30.e30.AB | NotCompact
// A character alone.
100 e.e30.AA | NotCompact
100 e30.e30.A | NotCompact
// The other alphabet of base64, and no alphabet.
100 ey+-.e30.AA | NotCompact
100 e30.ey/-.AA | NotCompact
100 e3 .e30.AA | NotCompact
100  e30.e30.AA | NotCompact
100 e30.e30.\u{e9}A | NotCompact
";

#[test]
fn parts_of_texts(rt: HostRuntime) -> Result<(), Fail> {
    let line = split(rt.alloc(), b"e30.e30.AA\n", 100).err();
    same(&rt, "a line", line, Some(SplitFault::NotCompact));
    assert_table::<InParts, _>(&rt, PARTS)?;
    assert_table::<InParts, _>(&rt, OTHERS)
}

#[test]
fn lengths_of_no_signature(rt: HostRuntime) {
    same(&rt, "65 bytes", Signature::try_new(&[0; 65]), None);
    same(&rt, "no bytes", Signature::try_new(&[]), None);
    same(&rt, "word", BadSigned::WrongKey.as_str(), "WRONG_KEY");
}

struct Compact;

impl Form for Compact {
    fn answer(alloc: Global, text: &[u8]) -> Result<ByteList, Fail> {
        let (room, text) = room_and_text(text)?;
        let compact = is_compact(alloc, text, room)?;
        shown(alloc, compact)
    }
}

// A room and a text, and whether it is compact.
const COMPACT: &str = r#"
10 e30.e30.AA | true
9 e30.e30.AA | false
10 e30.e31.AA | false
"#;

#[test]
fn compact_texts(rt: HostRuntime) -> Result<(), Fail> {
    assert_table::<Compact, _>(&rt, COMPACT)
}
