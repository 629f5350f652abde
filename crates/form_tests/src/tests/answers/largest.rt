//! The longest evidence, and the longest response that can be sealed.
ghost use Rattle.std.specs.Prelude.{IfOk};
ghost use Rattle.pint_responses.specs.Response.{IsEvidence, IsSealable};

use crate::tests::answers::{response, sealed_by, unsealed};
use crate::tests::making::{Form, answer_made, assert_table, platform, same, spelled};
use document_checksum::checksum;
use ebl_base::{
    ByteList, Checksum, ChecksumList, Code, Evidence, NoMemory, PlatformCode, Reason, SignedText,
};
use pint_responses::{Response, is_sealable};
use signed_envelope::is_compact;
use std::alloc::Global;
use std::process::Abort;
use std::test::Fail;

// A header `{}`, a payload of zero bytes and a signature of 63 zero bytes, in 16,384 characters.
const LONGEST: &str = "e30.*16295*A*.*84*A*";

fn longest_evidence(alloc: Global) -> Result<SignedText, Fail>
    ensures { IfOk result (λ t. IsEvidence t.0) }
{
    let text = ByteList::from_vec(spelled(alloc, LONGEST)?);
    match is_compact(alloc, text.as_slice(), 16_384) {
        Ok(true) => Ok(SignedText::from_bytes(alloc, text)?),
        _ => Err(Fail::from("no evidence")),
    }
}

fn signed_text(alloc: Global, text: &[u8]) -> Result<SignedText, NoMemory> {
    SignedText::from_bytes(alloc, ByteList::from_slice(alloc, text)?)
}

// An answer with this text as its own evidence.
fn shown(alloc: Global, own: &[u8]) -> Result<Response, NoMemory> {
    let own = signed_text(alloc, own)?;
    Ok(Response {
        code: Code::DisputedEnvelope,
        bill: None,
        last: None,
        standing: false,
        reason: None,
        missing: ChecksumList::new(alloc),
        evidence: Evidence {
            own: Some(own),
            theirs: None,
        },
    })
}

fn is_shown_sealable(alloc: Global, own: &[u8]) -> Result<bool, NoMemory> {
    let r = shown(alloc, own)?;
    let sealable = is_sealable(alloc, &r);
    drop(r);
    sealable
}

// Texts as the own evidence of an answer.
struct OwnEvidence;

impl Form for OwnEvidence {
    fn answer(alloc: Global, text: &[u8]) -> Result<ByteList, Fail> {
        let sealable = is_shown_sealable(alloc, text)?;
        answer_made(alloc, format!(in alloc; "{} {sealable}", text.len()))
    }
}

// How long a text is, and whether an answer with it can be sealed.
const EVIDENCE: &str = r#"
e30.*16295*A*.*84*A* | 16384 true
e30.*16296*A*.*84*A* | 16385 false
e30.e31.AA | 10 false
"#;

#[test]
fn evidence_that_can_be_sealed(rt: HostRuntime) -> Result<(), Fail> {
    assert_table::<OwnEvidence, _>(&rt, EVIDENCE)
}

fn is_list_sealable(alloc: Global, names: &[Checksum]) -> Result<bool, NoMemory> {
    let missing = ChecksumList::from_slice(alloc, names)?;
    let r = response(Code::MissingDocuments, None, None, missing);
    let sealable = is_sealable(alloc, &r);
    drop(r);
    sealable
}

#[test]
fn missing_documents_that_can_be_sealed(rt: HostRuntime) -> Result<(), Fail> {
    let name = checksum(b"abc");
    let sixteen = is_list_sealable(rt.alloc(), &[name; 16])?;
    same(&rt, "16 documents", sixteen, true);
    let more = is_list_sealable(rt.alloc(), &[name; 17])?;
    same(&rt, "17 documents", more, false);
    Ok(())
}

fn longest(alloc: Global) -> Result<Response, Fail>
    ensures { IfOk result (λ r. IsSealable r) }
{
    let own = longest_evidence(alloc)?;
    let theirs = longest_evidence(alloc)?;
    let name = checksum(b"abc");
    let missing = ChecksumList::from_slice(alloc, &[name; 16])?;
    Ok(Response {
        code: Code::BadSignature,
        bill: Some(name),
        last: Some(name),
        standing: false,
        reason: Some(Reason::Signature(usize::MAX)),
        missing,
        evidence: Evidence {
            own: Some(own),
            theirs: Some(theirs),
        },
    })
}

fn sealed_longest(alloc: Global) -> Result<SignedText, Fail> {
    let alph = platform("ALPH")?;
    let r = longest(alloc)?;
    let text = sealed_by(alloc, alph, &r);
    drop(r);
    Ok(text?)
}

#[test]
fn longest_response(rt: HostRuntime) -> Result<(), Fail> {
    let text = sealed_longest(rt.alloc())?;
    // By Python's json, base64 and hmac.
    assert_eq!(rt; text.0.len(), 45_559);
    drop(text);
    Ok(())
}

fn disputed(alloc: Global) -> Result<Response, Fail>
    ensures { IfOk result (λ r. IsSealable r) }
{
    let theirs = longest_evidence(alloc)?;
    Ok(Response {
        code: Code::DisputedEnvelope,
        bill: None,
        last: None,
        standing: true,
        reason: Some(Reason::Parts),
        missing: ChecksumList::new(alloc),
        evidence: Evidence {
            own: None,
            theirs: Some(theirs),
        },
    })
}

fn sealed_dispute(alloc: Global, who: PlatformCode) -> Result<SignedText, Fail> {
    let r = disputed(alloc)?;
    let text = sealed_by(alloc, who, &r);
    drop(r);
    Ok(text?)
}

fn unsealed_dispute(alloc: Global) -> Result<Response, Fail> {
    let alph = platform("ALPH")?;
    let text = sealed_dispute(alloc, alph)?;
    let again = unsealed(alloc, alph, text.0.as_slice());
    drop(text);
    Ok(again?)
}

fn assert_disputed(rt: &impl Abort, r: &Response, text: &[u8]) {
    assert!(rt; r.standing && r.evidence.own.is_none());
    match &r.evidence.theirs {
        Some(theirs) => assert!(rt; theirs.0.as_slice() == text),
        None => panic!(rt; "no evidence"),
    }
}

#[test]
fn evidence_there_and_back(rt: HostRuntime) -> Result<(), Fail> {
    let evidence = spelled(rt.alloc(), LONGEST)?;
    let again = unsealed_dispute(rt.alloc())?;
    assert_disputed(&rt, &again, &evidence);
    drop(again);
    Ok(())
}
