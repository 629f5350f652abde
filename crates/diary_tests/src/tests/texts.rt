//! The texts of a Begun. The names are by Python's hashlib.
use super::making::{assert_text, code, columns};
use bill_diary::{Frame, Record};
use closed_family::{Family, Member, NamedText, texts_in};
use document_checksum::to_text;
use ebl_base::{ByteList, Chain, Checksum, Items, NoMemory};
use envelope_manifest::Manifest;
use std::alloc::{AllocError, Global};
use std::process::Abort;
use std::str::from_utf8;

const BILL: Checksum = Checksum([9; 32]);

// A list of one item.
fn one<T: Drop>(alloc: Global, item: T) -> Result<Items<T>, NoMemory> {
    let mut list = Items::new(alloc);
    list.push(item)?;
    Ok(list)
}

// A Begun with a body of these bytes, which came without entries.
fn begun(alloc: Global, body: &[u8]) -> Result<Record, NoMemory> {
    let body = ByteList::from_slice(alloc, body)?;
    Ok(Record::Begun {
        bill: BILL,
        chain: Chain::new(),
        manifest: Manifest {
            bill: BILL,
            last: BILL,
            documents: Items::new(alloc),
        },
        body,
    })
}

// A family of one platform, with one diary, whose frame is this Begun.
fn family<R: Abort>(rt: &R, alloc: Global, body: &[u8]) -> Family {
    let platform = code(rt, "BETA");
    let diary = one(alloc, Frame::One(begun(alloc, body).expect(rt, "no error"))).expect(
        rt, "no error",
    );
    let diaries = one(alloc, diary).expect(rt, "no error");
    one(alloc, Member { platform, diaries }).expect(rt, "no error")
}

// The body of a Begun, and its texts, each with its name. The document's text is canonical whatever the spaces in the
// body are. Last, what is no body has no texts.
const ROWS: &str =
    r#"{"manifest":"m","chain":[],"document":{ }}|{} 44136fa355b3678a1146ad16f7e8649e94fb4fc21fe77e8310c060f61caaff8a, m 62c66a7a5dd70c3146618063c344e531e6d4b59e379808443ce962b3abd63c5a,
{}|"#;

fn put_text(all: &mut String, text: &NamedText) -> Result<(), AllocError> {
    let bytes = from_utf8(text.as_slice()).unwrap_or("no text");
    let name = to_text(text.name());
    let name = from_utf8(name.as_slice()).unwrap_or("no text");
    write!(all, "{bytes} {name}, ")
}

fn put_texts(all: &mut String, texts: &[NamedText]) -> Result<(), AllocError> {
    for text in texts {
        put_text(all, text)?;
    }
    Ok(())
}

fn found<R: Abort>(rt: &R, alloc: Global, family: &Family) -> String {
    let mut all = String::new(alloc);
    put_texts(&mut all, &texts_in(alloc, family).expect(rt, "no error")).expect(rt, "no error");
    all
}

fn assert_row<R: Abort>(rt: &R, alloc: Global, row: &str) {
    let [body, want, ..] = columns(row);
    let family = family(rt, alloc, body.as_bytes());
    let seen = found(rt, alloc, &family);
    assert_text(rt, seen.as_str().trim(), want, row);
}

#[test]
fn texts_of_bodies(rt: HostRuntime) {
    for row in ROWS.lines() {
        assert_row(&rt, rt.alloc(), row);
    }
}
