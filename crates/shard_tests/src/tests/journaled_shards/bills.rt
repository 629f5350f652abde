//! The first bill's name.
use document_checksum::to_text;
use sample_bills::bill;
use std::str::from_utf8;
use std::test::Fail;

// The SHA-256 checksum of the first document's canonical text, by sha256sum of GNU coreutils.
const FIRST: &str = "542fe9ce054c1f484751231f6d4e2ea1b57b5cc8e11d531525d1296ddd157e14";

#[test]
fn the_first_bill(rt: HostRuntime) -> Result<(), Fail> {
    let name = to_text(bill(rt.alloc(), 1).ok_or("memory ran out")?);
    assert_eq!(rt; from_utf8(&name).ok().ok_or("text")?, FIRST);
    Ok(())
}
