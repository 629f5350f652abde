//! Requests that are honest, and requests that no run may see: another chain than the one that was sent, and forged
//! continuations of it.
use canonical_json::{Json, is_lawful, read};
use ebl_base::{
    ByteList, Checksum, NoMemory, PlatformCode, Reference, SharedBytes, SignedText, TextList,
};
use envelope_manifest::Body;
use honest_texts::{SentText, is_honest};
use party_roster::Roster;
use platform_requests::Request;
use signed_envelope::compose;
use std::alloc::Global;
use std::test::Fail;
use test_signer::KeyedRing;

// DELT isn't among the platforms.
const ROSTER: &[u8] = br#"{
    "carriers":[{"code":"OCNL","party":"ALPH/CARRIER","provider":"NMFTA"}],
    "parties":["ALPH/CARRIER"],
    "platforms":["ALPH","BETA","GAMM"]
}"#;

fn platform(code: &str) -> Result<PlatformCode, Fail> {
    Ok(PlatformCode::try_new(code.as_bytes()).ok_or("a code")?)
}

// A text of this payload, signed by a platform. Whether it is an entry or an answer isn't asked.
fn signed(alloc: Global, by: &str, payload: &[u8]) -> Result<SignedText, Fail> {
    let payload = read(alloc, payload)?;
    let signed = signed_payload(alloc, by, &payload);
    drop(payload);
    signed
}

fn signed_payload(alloc: Global, by: &str, payload: &Json) -> Result<SignedText, Fail> {
    if !is_lawful(payload) {
        return Err("a lawful payload".into());
    }
    let by = platform(by)?;
    let mut ring = KeyedRing::derived();
    Ok(compose(alloc, &mut ring, by, payload, 16_384)?)
}

// The bytes of an answer that a platform signed.
fn reply(alloc: Global, by: &str, payload: &[u8]) -> Result<ByteList, Fail> {
    let text = signed(alloc, by, payload)?;
    let bytes = ByteList::from_slice(alloc, text.0.as_slice());
    drop(text);
    Ok(bytes?)
}

// A text of a chain: these bytes, or a payload of them that a platform signed.
type Text = (Option<&'static str>, &'static [u8]);

// What ALPH has sent.
const ENTRY: Text = (Some("ALPH"), b"{\"of\":\"entry\"}");

// What BETA has answered.
const ANSWER: &[u8] = b"{\"of\":\"answer\"}";

const OTHER: &[u8] = b"{\"of\":\"other\"}";

fn text_of(alloc: Global, text: Text) -> Result<SignedText, Fail> {
    match text {
        (Some(by), payload) => signed(alloc, by, payload),
        (None, bytes) => Ok(SignedText::from_bytes(alloc, ByteList::from_slice(alloc, bytes)?)?),
    }
}

fn add(alloc: Global, texts: &mut Vec<SignedText>, text: Text) -> Result<(), Fail> {
    Ok(texts.push(text_of(alloc, text)?)?)
}

fn add_all(alloc: Global, texts: &mut Vec<SignedText>, all: &[Text]) -> Result<(), Fail> {
    for text in all {
        add(alloc, texts, *text)?;
    }
    Ok(())
}

fn chain(alloc: Global, all: &[Text]) -> Result<TextList, Fail> {
    let mut texts = Vec::new(alloc);
    match add_all(alloc, &mut texts, all) {
        Ok(()) => Ok(TextList::from_vec(texts)),
        Err(fail) => {
            drop(texts);
            Err(fail)
        }
    }
}

// The bytes of a body with this chain.
fn written(alloc: Global, document: Json, chain: TextList) -> Result<ByteList, NoMemory> {
    let body = Body {
        document,
        manifest: SignedText(SharedBytes::new()),
        chain,
    };
    let bytes = body.write(alloc);
    drop(body);
    bytes
}

// The body with a chain of these texts.
fn body(alloc: Global, texts: &[Text]) -> Result<ByteList, Fail> {
    let chain = chain(alloc, texts)?;
    match read(alloc, b"{}") {
        Ok(document) => Ok(written(alloc, document, chain)?),
        Err(fault) => {
            drop(chain);
            Err(fault.into())
        }
    }
}

fn sent_reply(alloc: Global) -> Result<SentText, Fail> {
    Ok(SentText::Reply {
        from: platform("BETA")?,
        bytes: reply(alloc, "BETA", ANSWER)?,
    })
}

fn sent_start(alloc: Global) -> Result<SentText, Fail> {
    Ok(SentText::Start {
        from: platform("ALPH")?,
        body: body(alloc, &[ENTRY])?,
    })
}

fn send(alloc: Global, sent: &mut Vec<SentText>) -> Result<(), Fail> {
    sent.push(sent_reply(alloc)?)?;
    Ok(sent.push(sent_start(alloc)?)?)
}

fn roster(alloc: Global) -> Result<Roster, Fail> {
    let json = read(alloc, ROSTER)?;
    let roster = Roster::read(alloc, &json);
    drop(json);
    Ok(roster?)
}

// Whether a request is honest where these texts were sent.
fn is_honest_after(alloc: Global, sent: &[SentText], request: &Request) -> Result<bool, Fail> {
    let roster = roster(alloc)?;
    let is_honest = is_honest(alloc, &roster, &KeyedRing::derived(), sent, request);
    drop(roster);
    Ok(is_honest?)
}

fn is_honest_where(
    alloc: Global,
    sent: &mut Vec<SentText>,
    request: &Request,
) -> Result<bool, Fail> {
    send(alloc, sent)?;
    is_honest_after(alloc, sent.as_slice(), request)
}

// Whether a request is honest where ALPH has sent a start with one entry, and BETA an answer to it.
fn is_honest_now(alloc: Global, request: Request) -> Result<bool, Fail> {
    let mut sent = Vec::new(alloc);
    let is_honest = is_honest_where(alloc, &mut sent, &request);
    drop(sent);
    drop(request);
    is_honest
}

// Whether the start with a chain of these texts is honest.
fn is_honest_chain(alloc: Global, texts: &[Text]) -> Result<bool, Fail> {
    let body = body(alloc, texts)?;
    is_honest_now(alloc, Request::Start { body })
}

// Whether the answer with this payload is, which a platform signed.
fn is_honest_reply(alloc: Global, by: &str, payload: &[u8]) -> Result<bool, Fail> {
    let bill = Checksum([7; 32]);
    let bytes = reply(alloc, by, payload)?;
    is_honest_now(alloc, Request::StartReply { bill, bytes })
}

// The chain was sent; behind it stand a text that nobody signed and one of a platform that isn't listed.
#[test]
fn texts_that_were_sent(rt: HostRuntime) -> Result<(), Fail> {
    let stranger = (Some("DELT"), b"{\"of\":\"entry\"}".as_slice());
    let rubbish = (None, b"x".as_slice());
    assert!(rt; is_honest_chain(rt.alloc(), &[ENTRY, rubbish, stranger])?);
    Ok(())
}

// ALPH signed another entry too, which it never sent.
#[test]
fn parted_chains(rt: HostRuntime) -> Result<(), Fail> {
    assert!(rt; !is_honest_chain(rt.alloc(), &[(Some("ALPH"), OTHER)])?);
    Ok(())
}

// Somebody who has BETA's key signs two entries behind the one that BETA received.
#[test]
fn forged_continuations(rt: HostRuntime) -> Result<(), Fail> {
    for payload in &[
        b"{\"to\":\"ALPH\"}".as_slice(),
        b"{\"to\":\"GAMM\"}".as_slice(),
    ] {
        assert!(rt; !is_honest_chain(rt.alloc(), &[ENTRY, (Some("BETA"), *payload)])?);
    }
    Ok(())
}

#[test]
fn replies(rt: HostRuntime) -> Result<(), Fail> {
    assert!(rt; is_honest_reply(rt.alloc(), "BETA", ANSWER)?);
    assert!(rt; is_honest_reply(rt.alloc(), "DELT", OTHER)?);
    assert!(rt; !is_honest_reply(rt.alloc(), "BETA", OTHER)?);
    Ok(())
}

const REFERENCE: Reference = Reference([7; 16]);

fn put(alloc: Global) -> Result<Request, NoMemory> {
    Ok(Request::Put {
        reference: REFERENCE,
        checksum: Checksum([7; 32]),
        bytes: ByteList::from_slice(alloc, b"abc")?,
    })
}

fn finish() -> Request {
    Request::Finish {
        reference: REFERENCE,
    }
}

fn rubbish(alloc: Global) -> Result<Request, NoMemory> {
    Ok(Request::Start {
        body: ByteList::from_slice(alloc, b"x")?,
    })
}

// A document and a finish bring no text that is signed; bytes that are no body bring none either.
#[test]
fn documents_and_rubbish(rt: HostRuntime) -> Result<(), Fail> {
    assert!(rt; is_honest_now(rt.alloc(), put(rt.alloc())?)?);
    assert!(rt; is_honest_now(rt.alloc(), finish())?);
    assert!(rt; is_honest_now(rt.alloc(), rubbish(rt.alloc())?)?);
    Ok(())
}
