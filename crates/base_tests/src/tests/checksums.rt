//! Checksums against other programs' values, and the texts that are no checksum's.
use crate::tests::comparing::{same, same_bytes};
use document_checksum::{checksum, from_text, to_text};
use ebl_base::Checksum;
use std::alloc::{AllocError, Global};
use std::process::Abort;
use std::test::Fail;

const EMPTY_OBJECT: &str = "44136fa355b3678a1146ad16f7e8649e94fb4fc21fe77e8310c060f61caaff8a";

// FIPS 180-4 by Python's hashlib; that of `abc` stands in FIPS 180-4's examples too.
const TEXTS: [(&str, &str); 3] = [
    (
        "",
        "e3b0c44298fc1c149afbf4c8996fb92427ae41e4649b934ca495991b7852b855",
    ),
    ("{}", EMPTY_OBJECT),
    (
        "abc",
        "ba7816bf8f01cfea414140de5dae2223b00361a396177a9cb410ff61f20015ad",
    ),
];

fn text_row(rt: &impl Abort, text: &str, want: &str) {
    let name = checksum(text.as_bytes());
    same_bytes(rt, to_text(name).as_slice(), want.as_bytes());
    same(rt, &want, from_text(want.as_bytes()), Some(name));
}

#[test]
fn texts(rt: HostRuntime) {
    for &(text, want) in &TEXTS {
        text_row(&rt, text, want);
    }
}

// Lengths on both sides of a block and of its room for the length, by Python's hashlib.
const LENGTHS: [(usize, &str); 6] = [
    (
        55,
        "9f4390f8d30c2dd92ec9f095b65e2b9ae9b0a925a5258e241c9f1e910f734318",
    ),
    (
        56,
        "b35439a4ac6f0948b6d6f9e3c6af0f5f590ce20f1bde7090ef7970686ec6738a",
    ),
    (
        63,
        "7d3e74a05d7db15bce4ad9ec0658ea98e3f06eeecf16b4c6fff2da457ddc2f34",
    ),
    (
        64,
        "ffe054fe7ae0cb6dc65c3af9b61d5209f439851db43d0ba5997337df154668eb",
    ),
    (
        65,
        "635361c48bb9eab14198e76ea8ab7f1a41685d6ad62aa9146d301d4f17eb0ae0",
    ),
    (
        1_000_000,
        "cdc76e5c9914fb9281a1c7e284d73e67f1809a48a497200e046d39ccc7112cd0",
    ),
];

fn length_row(rt: &impl Abort, alloc: Global, length: usize, want: &str) -> Result<(), AllocError> {
    let text = vec![in alloc; b'a'; length]?;
    let name = to_text(checksum(&text));
    same(rt, &length, name.as_slice(), want.as_bytes());
    Ok(())
}

#[test]
fn lengths(rt: HostRuntime) -> Result<(), Fail> {
    for &(length, want) in &LENGTHS {
        length_row(&rt, rt.alloc(), length, want)?;
    }
    Ok(())
}

const OTHERS: [&str; 8] = [
    "",
    "44136fa355b3678a1146ad16f7e8649e94fb4fc21fe77e8310c060f61caaff8",
    "44136fa355b3678a1146ad16f7e8649e94fb4fc21fe77e8310c060f61caaff8a0",
    "44136fA355b3678a1146ad16f7e8649e94fb4fc21fe77e8310c060f61caaff8a",
    "A4136fa355b3678a1146ad16f7e8649e94fb4fc21fe77e8310c060f61caaff8a",
    "44136ga355b3678a1146ad16f7e8649e94fb4fc21fe77e8310c060f61caaff8a",
    " 4136fa355b3678a1146ad16f7e8649e94fb4fc21fe77e8310c060f61caaff8a",
    "0x136fa355b3678a1146ad16f7e8649e94fb4fc21fe77e8310c060f61caaff8a",
];

#[test]
fn other_forms(rt: HostRuntime) {
    for &other in &OTHERS {
        same(&rt, &other, from_text(other.as_bytes()), None);
    }
    let text = EMPTY_OBJECT.as_bytes();
    assert!(rt; from_text(text).is_some());
    let name = Checksum([0xab; 32]);
    let written = to_text(name);
    same_bytes(
        &rt,
        written.as_slice(),
        b"abababababababababababababababababababababababababababababababab",
    );
}
