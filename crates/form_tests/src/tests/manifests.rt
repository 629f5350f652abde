//! Manifests and bodies in and out of their forms, in tables as `making` has them.
use crate::tests::making::{Form, InJson, JsonForm, assert_table, json, refusal, same, spelled};
use canonical_json::{Json, text_of};
use document_checksum::checksum;
use ebl_base::{ByteList, Copied, NoMemory};
use envelope_manifest::{
    Body, Manifest, ManifestFault, Piece, decode, decode_piece, encode, encode_piece,
};
use std::alloc::Global;
use std::process::Abort;
use std::test::Fail;

struct Manifests;

impl JsonForm for Manifests {
    type Fault = ManifestFault;

    fn again(alloc: Global, json: &Json) -> Result<Json, ManifestFault> {
        let manifest = decode(alloc, json)?;
        let json = encode(alloc, &manifest);
        drop(manifest);
        Ok(json?)
    }
}

// What is refused has a second fault behind the first where there can be one.
const MANIFESTS: &str = r#"
{'bill':'$','documents':[{'checksum':'@','media':'text/plain','name':'abc.txt','size':3}],'last':'@'} | {'bill':'$','documents':[{'checksum':'@','media':'text/plain','name':'abc.txt','size':3}],'last':'@'}
[] | ManifestForm(Bill)
{'bill':'44136FA355b3678a1146ad16f7e8649e94fb4fc21fe77e8310c060f61caaff8a','last':1} | ManifestForm(Bill)
{'bill':'$'} | ManifestForm(Last)
{'bill':'$','documents':0,'last':null} | ManifestForm(Last)
{'bill':'$','documents':{},'last':'$'} | ManifestForm(Documents)
{'bill':'$','documents':[{'checksum':'$','media':'a','name':'a','size':-1}],'last':'$'} | ManifestForm(Documents)
"#;

// Documents with one name, and documents that are together as large as they may be, or larger.
const LISTED: &str = r#"
{'bill':'*32*01*','documents':[],'last':'*32*02*'} | {'bill':'*32*01*','documents':[],'last':'*32*02*'}
{'bill':'*32*01*','documents':[{'checksum':'*32*07*','media':'b','name':'a','size':1},{'checksum':'*32*08*','media':'b','name':'a','size':1}],'last':'*32*02*'} | {'bill':'*32*01*','documents':[{'checksum':'*32*07*','media':'b','name':'a','size':1},{'checksum':'*32*08*','media':'b','name':'a','size':1}],'last':'*32*02*'}
{'bill':'*32*01*','documents':[{'checksum':'*32*07*','media':'b','name':'a','size':1},{'checksum':'*32*08*','media':'b','name':'a','size':1},{'checksum':'*32*07*','media':'b','name':'a','size':2}],'last':'*32*02*'} | ManifestForm(Documents)
{'bill':'*32*01*','documents':[{'checksum':'*32*07*','media':'b','name':'a','size':2097152},{'checksum':'*32*08*','media':'b','name':'a','size':2097152}],'last':'*32*02*'} | {'bill':'*32*01*','documents':[{'checksum':'*32*07*','media':'b','name':'a','size':2097152},{'checksum':'*32*08*','media':'b','name':'a','size':2097152}],'last':'*32*02*'}
{'bill':'*32*01*','documents':[{'checksum':'*32*07*','media':'b','name':'a','size':2097152},{'checksum':'*32*08*','media':'b','name':'a','size':2097152},{'checksum':'*32*09*','media':'b','name':'a','size':0}],'last':'*32*02*'} | {'bill':'*32*01*','documents':[{'checksum':'*32*07*','media':'b','name':'a','size':2097152},{'checksum':'*32*08*','media':'b','name':'a','size':2097152},{'checksum':'*32*09*','media':'b','name':'a','size':0}],'last':'*32*02*'}
{'bill':'*32*01*','documents':[{'checksum':'*32*07*','media':'b','name':'a','size':2097152},{'checksum':'*32*08*','media':'b','name':'a','size':2097152},{'checksum':'*32*09*','media':'b','name':'a','size':1}],'last':'*32*02*'} | ManifestForm(Documents)
{'bill':'*32*01*','documents':[{'checksum':'*32*07*','media':'b','name':'a','size':2097152},{'checksum':'*32*08*','media':'b','name':'a','size':2097152},{'checksum':'*32*09*','media':'b','name':'a','size':2097152}],'last':'*32*02*'} | ManifestForm(Documents)
{'bill':'*32*01*','documents':[{'checksum':'*32*07*','media':'b','name':'a','size':2097153}],'last':'*32*02*'} | ManifestForm(Documents)
"#;

// Sixteen documents, and one more.
const MANY: &str = r#"
{'bill':'*32*01*','documents':[{'checksum':'*32*00*','media':'b','name':'a','size':0},{'checksum':'*32*01*','media':'b','name':'a','size':0},{'checksum':'*32*02*','media':'b','name':'a','size':0},{'checksum':'*32*03*','media':'b','name':'a','size':0},{'checksum':'*32*04*','media':'b','name':'a','size':0},{'checksum':'*32*05*','media':'b','name':'a','size':0},{'checksum':'*32*06*','media':'b','name':'a','size':0},{'checksum':'*32*07*','media':'b','name':'a','size':0},{'checksum':'*32*08*','media':'b','name':'a','size':0},{'checksum':'*32*09*','media':'b','name':'a','size':0},{'checksum':'*32*0a*','media':'b','name':'a','size':0},{'checksum':'*32*0b*','media':'b','name':'a','size':0},{'checksum':'*32*0c*','media':'b','name':'a','size':0},{'checksum':'*32*0d*','media':'b','name':'a','size':0},{'checksum':'*32*0e*','media':'b','name':'a','size':0},{'checksum':'*32*0f*','media':'b','name':'a','size':0}],'last':'*32*02*'} | {'bill':'*32*01*','documents':[{'checksum':'*32*00*','media':'b','name':'a','size':0},{'checksum':'*32*01*','media':'b','name':'a','size':0},{'checksum':'*32*02*','media':'b','name':'a','size':0},{'checksum':'*32*03*','media':'b','name':'a','size':0},{'checksum':'*32*04*','media':'b','name':'a','size':0},{'checksum':'*32*05*','media':'b','name':'a','size':0},{'checksum':'*32*06*','media':'b','name':'a','size':0},{'checksum':'*32*07*','media':'b','name':'a','size':0},{'checksum':'*32*08*','media':'b','name':'a','size':0},{'checksum':'*32*09*','media':'b','name':'a','size':0},{'checksum':'*32*0a*','media':'b','name':'a','size':0},{'checksum':'*32*0b*','media':'b','name':'a','size':0},{'checksum':'*32*0c*','media':'b','name':'a','size':0},{'checksum':'*32*0d*','media':'b','name':'a','size':0},{'checksum':'*32*0e*','media':'b','name':'a','size':0},{'checksum':'*32*0f*','media':'b','name':'a','size':0}],'last':'*32*02*'}
{'bill':'*32*01*','documents':[{'checksum':'*32*00*','media':'b','name':'a','size':0},{'checksum':'*32*01*','media':'b','name':'a','size':0},{'checksum':'*32*02*','media':'b','name':'a','size':0},{'checksum':'*32*03*','media':'b','name':'a','size':0},{'checksum':'*32*04*','media':'b','name':'a','size':0},{'checksum':'*32*05*','media':'b','name':'a','size':0},{'checksum':'*32*06*','media':'b','name':'a','size':0},{'checksum':'*32*07*','media':'b','name':'a','size':0},{'checksum':'*32*08*','media':'b','name':'a','size':0},{'checksum':'*32*09*','media':'b','name':'a','size':0},{'checksum':'*32*0a*','media':'b','name':'a','size':0},{'checksum':'*32*0b*','media':'b','name':'a','size':0},{'checksum':'*32*0c*','media':'b','name':'a','size':0},{'checksum':'*32*0d*','media':'b','name':'a','size':0},{'checksum':'*32*0e*','media':'b','name':'a','size':0},{'checksum':'*32*0f*','media':'b','name':'a','size':0},{'checksum':'*32*10*','media':'b','name':'a','size':0}],'last':'*32*02*'} | ManifestForm(Documents)
"#;

#[test]
fn manifests_are_read_and_written(rt: HostRuntime) -> Result<(), Fail> {
    assert_table::<InJson<Manifests>, _>(&rt, MANIFESTS)?;
    assert_table::<InJson<Manifests>, _>(&rt, LISTED)?;
    assert_table::<InJson<Manifests>, _>(&rt, MANY)
}

fn decoded(alloc: Global, text: &str) -> Result<Manifest, Fail> {
    let json = json(alloc, text)?;
    let manifest = decode(alloc, &json);
    drop(json);
    Ok(manifest?)
}

fn assert_piece(rt: &impl Abort, piece: &Piece) {
    let named = piece.name.as_str() == "abc.txt" && piece.media.as_str() == "text/plain";
    assert!(rt;
        named && piece.size == 3 && piece.checksum == checksum(b"abc"),
        "{piece:?}"
    );
}

fn assert_manifest(rt: &impl Abort, manifest: &Manifest) {
    let named = manifest.bill == checksum(b"{}") && manifest.last == checksum(b"abc");
    assert!(rt; named && manifest.documents.len() == 1, "{manifest:?}");
    for piece in manifest.documents.as_slice() {
        assert_piece(rt, piece);
    }
}

fn assert_copy(rt: &impl Abort, alloc: Global, manifest: &Manifest) -> Result<(), Fail> {
    let copy = manifest.copy(alloc)?;
    assert_manifest(rt, &copy);
    drop(copy);
    Ok(())
}

#[test]
fn a_manifest_has_its_parts(rt: HostRuntime) -> Result<(), Fail> {
    let text =
        "{'bill':'$','documents':[{'checksum':'@','media':'text/plain','name':'abc.txt','size':3}],'last':'@'}";
    let manifest = decoded(rt.alloc(), text)?;
    let copied = assert_copy(&rt, rt.alloc(), &manifest);
    drop(manifest);
    copied
}

// A document that a manifest lists.
struct Pieces;

impl JsonForm for Pieces {
    type Fault = ManifestFault;

    fn again(alloc: Global, json: &Json) -> Result<Json, ManifestFault> {
        let piece = decode_piece(alloc, json)?;
        let json = encode_piece(alloc, &piece);
        drop(piece);
        Ok(json?)
    }
}

// A document alone, and a whole manifest, which is none.
const PIECES: &str = r#"
{'checksum':'@','media':'text/plain','name':'abc.txt','size':3} | {'checksum':'@','media':'text/plain','name':'abc.txt','size':3}
{'bill':'$','documents':[{'checksum':'@','media':'text/plain','name':'abc.txt','size':3}],'last':'@'} | ManifestForm(Documents)
"#;

// Lengths are counted in bytes of UTF-8: 128 and 129 of a name, 64 and 65 of a media type.
const LENGTHS: &str = r#"
{'checksum':'*64*0*','media':'*64*a*','name':'*128*a*','size':0} | {'checksum':'*64*0*','media':'*64*a*','name':'*128*a*','size':0}
{'checksum':'*64*0*','media':'a','name':'*129*a*','size':0} | ManifestForm(Documents)
{'checksum':'*64*0*','media':'*65*a*','name':'a','size':0} | ManifestForm(Documents)
{'checksum':'*64*0*','media':'*32*é*','name':'*64*é*','size':0} | {'checksum':'*64*0*','media':'*32*é*','name':'*64*é*','size':0}
{'checksum':'*64*0*','media':'é','name':'*65*é*','size':0} | ManifestForm(Documents)
{'checksum':'*64*0*','media':'*33*é*','name':'é','size':0} | ManifestForm(Documents)
{'checksum':'*64*0*','media':'*16*😀*','name':'*32*😀*','size':0} | {'checksum':'*64*0*','media':'*16*😀*','name':'*32*😀*','size':0}
{'checksum':'*64*0*','media':'😀','name':'*33*😀*','size':0} | ManifestForm(Documents)
{'checksum':'*64*0*','media':'*17*😀*','name':'😀','size':0} | ManifestForm(Documents)
"#;

// Control characters and characters beside them, in a name and in a media type.
const CONTROLS: &str = "
{'checksum':'*64*0*','media':'a','name':'','size':0} | ManifestForm(Documents)
{'checksum':'*64*0*','media':'','name':'a','size':0} | ManifestForm(Documents)
{'checksum':'*64*0*','media':'a','name':'a\\nb','size':0} | ManifestForm(Documents)
{'checksum':'*64*0*','media':'a\\nb','name':'a','size':0} | ManifestForm(Documents)
{'checksum':'*64*0*','media':'a','name':'\\u0000','size':0} | ManifestForm(Documents)
{'checksum':'*64*0*','media':'\\u0000','name':'a','size':0} | ManifestForm(Documents)
{'checksum':'*64*0*','media':'a','name':'\\u001f','size':0} | ManifestForm(Documents)
{'checksum':'*64*0*','media':'\\u001f','name':'a','size':0} | ManifestForm(Documents)
{'checksum':'*64*0*','media':'a','name':'\\u0020','size':0} | {'checksum':'*64*0*','media':'a','name':'\u{20}','size':0}
{'checksum':'*64*0*','media':'\\u0020','name':'a','size':0} | {'checksum':'*64*0*','media':'\u{20}','name':'a','size':0}
{'checksum':'*64*0*','media':'a','name':'\\u007e','size':0} | {'checksum':'*64*0*','media':'a','name':'\u{7e}','size':0}
{'checksum':'*64*0*','media':'\\u007e','name':'a','size':0} | {'checksum':'*64*0*','media':'\u{7e}','name':'a','size':0}
{'checksum':'*64*0*','media':'a','name':'a\\u007f','size':0} | ManifestForm(Documents)
{'checksum':'*64*0*','media':'a\\u007f','name':'a','size':0} | ManifestForm(Documents)
{'checksum':'*64*0*','media':'a','name':'\\u0080','size':0} | {'checksum':'*64*0*','media':'a','name':'\u{80}','size':0}
{'checksum':'*64*0*','media':'\\u0080','name':'a','size':0} | {'checksum':'*64*0*','media':'\u{80}','name':'a','size':0}
{'checksum':'*64*0*','media':'a','name':'\\u20ac','size':0} | {'checksum':'*64*0*','media':'a','name':'€','size':0}
{'checksum':'*64*0*','media':'\\u20ac','name':'a','size':0} | {'checksum':'*64*0*','media':'€','name':'a','size':0}
";

#[test]
fn documents_are_read_and_written(rt: HostRuntime) -> Result<(), Fail> {
    assert_table::<InJson<Pieces>, _>(&rt, PIECES)?;
    assert_table::<InJson<Pieces>, _>(&rt, LENGTHS)?;
    assert_table::<InJson<Pieces>, _>(&rt, CONTROLS)
}

struct Bodies;

impl Form for Bodies {
    fn answer(alloc: Global, text: &[u8]) -> Result<ByteList, Fail> {
        match Body::read(alloc, text) {
            Ok(body) => Ok(body_again(alloc, body)?),
            Err(fault) => refusal(alloc, fault),
        }
    }
}

fn body_again(alloc: Global, body: Body) -> Result<ByteList, NoMemory> {
    let text = body.write(alloc);
    drop(body);
    text
}

// Bodies, with chains of one text, of two and of 66, and texts that are none: the first wrong part is named.
const BODIES: &str = r#"
{ 'manifest':'b.b.b', 'more':[1], 'document':{'n':7,'a':'at sea'}, 'chain':['a.a.a','\u20ac\n'] } | {'chain':['a.a.a','€\n'],'document':{'a':'at sea','n':7},'manifest':'b.b.b'}
{'chain':['a.a.a','€\n'],'document':{'a':'at sea','n':7},'manifest':'b.b.b'} | {'chain':['a.a.a','€\n'],'document':{'a':'at sea','n':7},'manifest':'b.b.b'}
{'document':{},'manifest':'m','chain':['t']} | {'chain':['t'],'document':{},'manifest':'m'}
{'document':{},'manifest':'m','chain':['t','t']} | {'chain':['t','t'],'document':{},'manifest':'m'}
{'document':{},'manifest':'m','chain':[*65*'t',*'t']} | {'chain':[*65*'t',*'t'],'document':{},'manifest':'m'}
 | BodyForm(Json)
{'chain':[],'document':{},'manifest':'' | BodyForm(Json)
{'chain':[],'document':{'a':1e5},'manifest':''} | BodyForm(Json)
[{'document':{}}] | BodyForm(Json)
{'chain':0} | BodyForm(Document)
{'chain':[],'document':[],'manifest':0} | BodyForm(Document)
{'chain':{},'document':{}} | BodyForm(Manifest)
{'chain':[],'document':{},'manifest':{}} | BodyForm(Manifest)
{'document':{},'manifest':''} | BodyForm(Chain)
{'chain':'','document':{},'manifest':''} | BodyForm(Chain)
{'chain':['a',null,'c'],'document':{},'manifest':''} | BodyForm(Chain)
"#;

#[test]
fn bodies_are_read_and_written(rt: HostRuntime) -> Result<(), Fail> {
    assert_table::<Bodies, _>(&rt, BODIES)
}

// A text, and the one that the body is written as.
const CAME: &str =
    r"{ 'manifest':'b.b.b', 'more':[1], 'document':{'n':7,'a':'at sea'}, 'chain':['a.a.a','\u20ac\n'] }";

const WRITTEN: &str =
    r"{'chain':['a.a.a','€\n'],'document':{'a':'at sea','n':7},'manifest':'b.b.b'}";

fn body_of(alloc: Global, text: &str) -> Result<Body, Fail> {
    let bytes = spelled(alloc, text)?;
    Ok(Body::read(alloc, &bytes)?)
}

fn assert_body(rt: &impl Abort, body: &Body) {
    let member = text_of(&body.document, "a").map(|t| t.as_str());
    same(rt, "member", member, Some("at sea"));
    let manifest = body.manifest.0.as_slice();
    same(rt, "manifest", manifest, b"b.b.b".as_slice());
    same(rt, "chain", body.chain.len(), 2);
}

fn copy_written(alloc: Global, body: &Body) -> Result<ByteList, NoMemory> {
    let copy = body.copy(alloc)?;
    body_again(alloc, copy)
}

fn assert_written(rt: &impl Abort, alloc: Global, body: &Body) -> Result<(), Fail> {
    let wanted = spelled(alloc, WRITTEN)?;
    let text = copy_written(alloc, body)?;
    same(rt, "a copy", text.as_slice(), wanted.as_slice());
    Ok(())
}

#[test]
fn a_body_has_its_parts_and_is_copied(rt: HostRuntime) -> Result<(), Fail> {
    let body = body_of(rt.alloc(), CAME)?;
    assert_body(&rt, &body);
    let written = assert_written(&rt, rt.alloc(), &body);
    drop(body);
    written
}
