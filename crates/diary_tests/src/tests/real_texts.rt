//! The texts in these families are those that the values beside them say, and a survey can read them.
use super::entries::{sample_of, samples};
use super::making::{THE_BILL, bill_name, code};
use super::places::assert_same;
use super::steps::register;
use bill_diary::BegunRef;
use canonical_json::{Json, write};
use document_checksum::checksum;
use ebl_base::{ChainLink, Checksum, Entry, PlatformCode, SignedText};
use envelope_manifest::{Body, Manifest, decode};
use signed_envelope::verify_text;
use std::alloc::Global;
use std::process::Abort;
use test_signer::KeyedRing;
use title_register::{Register, last_with_reference};
use upload_state::reference_of;

// What a text says, which a platform signed.
fn said<R: Abort>(rt: &R, alloc: Global, text: &SignedText, who: PlatformCode) -> Json {
    let ring = KeyedRing::derived();
    verify_text(alloc, &ring, text.0.as_slice(), who, 16_384).expect(rt, "no error")
}

// The body is canonical, and its document is the bill's.
fn assert_body<R: Abort>(rt: &R, alloc: Global, parts: &Body, begun: BegunRef) {
    let body = parts.write(alloc).expect(rt, "no error");
    let document = write(alloc, &parts.document).expect(rt, "no error");
    assert!(rt; body.as_slice() == begun.body.as_slice());
    assert!(rt; checksum(document.as_slice()) == begun.bill);
}

// The manifest that a text is, which BETA signed.
fn listed<R: Abort>(rt: &R, alloc: Global, text: &SignedText) -> Manifest {
    let payload = said(rt, alloc, text, code(rt, "BETA"));
    let manifest = decode(alloc, &payload).expect(rt, "no error");
    drop(payload);
    manifest
}

// The manifest's text says what the manifest does.
fn assert_manifest<R: Abort>(rt: &R, alloc: Global, text: &SignedText, manifest: &Manifest) {
    let listed = listed(rt, alloc, text);
    assert_same(rt, alloc, &listed, manifest)
}

// The entry that a text is, which a platform signed.
fn entry_of<R: Abort>(rt: &R, alloc: Global, text: &SignedText, who: PlatformCode) -> Entry {
    let payload = said(rt, alloc, text, who);
    let entry = chain_entry::decode(alloc, &payload).expect(rt, "no error");
    drop(payload);
    entry
}

// A text is that of an entry, which has its name, and which the entry's platform signed.
fn assert_link<R: Abort>(rt: &R, alloc: Global, text: &SignedText, link: &ChainLink) {
    assert!(rt; text.0.as_slice() == link.text.0.as_slice());
    assert!(rt; checksum(text.0.as_slice()) == link.name);
    let entry = entry_of(rt, alloc, text, link.entry.platform);
    assert_same(rt, alloc, &entry, &link.entry)
}

// The texts are those of the chain's entries.
fn assert_links<R: Abort>(rt: &R, alloc: Global, texts: &[SignedText], chain: &[ChainLink]) {
    assert!(rt; texts.len() == chain.len());
    for (text, link) in texts.iter().zip(chain) {
        assert_link(rt, alloc, text, link);
    }
}

// There are two entries, the second one behind the first, and the manifest names it.
fn assert_two<R: Abort>(rt: &R, chain: &[ChainLink], manifest: &Manifest) {
    match chain {
        [first, last] => {
            assert!(rt; last.entry.previous == Some(first.name));
            assert!(rt; manifest.last == last.name);
        }
        _ => panic!(rt; "two entries"),
    }
}

fn assert_begun<R: Abort>(rt: &R, alloc: Global, parts: &Body, begun: BegunRef) {
    assert_body(rt, alloc, parts, begun);
    assert_manifest(rt, alloc, &parts.manifest, begun.manifest);
    assert_links(rt, alloc, parts.chain.as_slice(), begun.chain.as_slice());
    assert_two(rt, begun.chain.as_slice(), begun.manifest);
}

fn assert_found<R: Abort>(
    rt: &R,
    alloc: Global,
    register: &Register,
    bill: Checksum,
    last: Checksum,
) {
    let begun = last_with_reference(register, reference_of(bill, last)).expect(rt, "a Begun");
    assert!(rt; begun.bill == bill && begun.manifest.bill == bill);
    let parts = Body::read(alloc, begun.body.as_slice()).expect(rt, "no error");
    assert_begun(rt, alloc, &parts, begun);
    drop(parts);
}

#[test]
fn texts_of_a_begun(rt: HostRuntime) {
    let samples = samples(&rt, rt.alloc());
    let register = register(&rt, rt.alloc(), &samples, THE_BILL, "begun u.u");
    let last = sample_of(&rt, &samples, THE_BILL, "u.u").last(&rt).name;
    assert_found(
        &rt,
        rt.alloc(),
        &register,
        bill_name(&rt, rt.alloc(), THE_BILL),
        last,
    );
    drop(register);
}
