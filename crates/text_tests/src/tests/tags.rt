//! Tags against RFC 4231, section 4: keys shorter and longer than a block.
use document_checksum::to_text;
use ebl_base::Checksum;
use std::process::Abort;
use test_signer::hmac_sha256;

const COUNTED: [u8; 25] = [
    1, 2, 3, 4, 5, 6, 7, 8, 9, 10, 11, 12, 13, 14, 15, 16, 17, 18, 19, 20, 21, 22, 23, 24, 25,
];

// The number of a case, its key, its message and its tag.
const CASES: [(u8, &[u8], &[u8], &str); 7] = [
    (
        1,
        &[0x0b; 20],
        b"Hi There",
        "b0344c61d8db38535ca8afceaf0bf12b881dc200c9833da726e9376c2e32cff7",
    ),
    (
        2,
        b"Jefe",
        b"what do ya want for nothing?",
        "5bdcc146bf60754e6a042426089575c75a003f089d2739839dec58b964ec3843",
    ),
    (
        3,
        &[0xaa; 20],
        &[0xdd; 50],
        "773ea91e36800e46854db8ebd09181a72959098b3ef8c122d9635514ced565fe",
    ),
    (
        4,
        &COUNTED,
        &[0xcd; 50],
        "82558a389a443c0ea4cc819899f2083a85f0faa3e578f8077a2e3ff46729665b",
    ),
    // Its first 16 bytes alone.
    (
        5,
        &[0x0c; 20],
        b"Test With Truncation",
        "a3b6167473100ee06e0c796c2955552b",
    ),
    (
        6,
        &[0xaa; 131],
        b"Test Using Larger Than Block-Size Key - Hash Key First",
        "60e431591ee0b67f0d8a26aacbf5b77f8e0bc6213728c5140546040f0ee37f54",
    ),
    (
        7,
        &[0xaa; 131],
        b"This is a test using a larger than block-size key and a larger than block-size data. The key needs to be hashed before being used by the HMAC algorithm.",
        "9b09ffa71b942fcb27635fbcd5b0e944bfdc63644f0713938a7f51535c3a35e2",
    ),
];

fn case_row(rt: &impl Abort, number: u8, key: &[u8], message: &[u8], want: &str) {
    let tag = to_text(Checksum(hmac_sha256(key, message)));
    assert!(rt;
        tag.as_slice().starts_with(want.as_bytes()),
        "case {number}"
    );
}

#[test]
fn rfc4231_cases(rt: HostRuntime) {
    for &(number, key, message, want) in &CASES {
        case_row(&rt, number, key, message, want);
    }
}
