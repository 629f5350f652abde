//! Names that two different texts share. The names are made up, since real ones are SHA-256, of which no two such texts
//! are known.
use super::making::columns;
use closed_family::{NamedText, Text, first_shared};
use ebl_base::Checksum;
use std::alloc::Global;
use std::process::Abort;

// Texts, each of which begins with its made-up name, and the first name that two of them share. None of no text, and
// none of one text twice. Last, the name whose second text comes first, also where the other one's first text does.
const ROWS: &str = "\
|
1bill 1bill|
1bill 2entry 1other|1
1bill 2entry 2else 1other|2";

// The name that is made of the first character of a text.
fn name_of(text: &str) -> Option<Checksum> {
    Some(Checksum([*text.as_bytes().first()?; 32]))
}

fn put_texts<'a, R: Abort>(rt: &R, named: &mut Vec<NamedText<'a>>, texts: &'a str) {
    for text in texts.split_whitespace() {
        let name = name_of(text).expect(rt, "a name");
        named
            .push(NamedText::new(name, Text::Lent(text.as_bytes())))
            .expect(rt, "no error");
    }
}

fn found<R: Abort>(rt: &R, alloc: Global, texts: &str) -> Option<Checksum> {
    let mut named = Vec::new(alloc);
    put_texts(rt, &mut named, texts);
    first_shared(alloc, &named).expect(rt, "no error")
}

fn assert_row<R: Abort>(rt: &R, alloc: Global, row: &str) {
    let [texts, want, ..] = columns(row);
    let seen = found(rt, alloc, texts);
    assert!(rt; seen == name_of(want), "{row}: {seen:?}");
}

#[test]
fn first_names_that_two_texts_share(rt: HostRuntime) {
    for row in ROWS.lines() {
        assert_row(&rt, rt.alloc(), row);
    }
}
