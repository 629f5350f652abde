//! The body in which a bill is sent.
ghost use Rattle.std.specs.Prelude.{◌≡◌, ◌≤◌, Ok, IfOk, IfErr};
ghost use Rattle.canonical_json.specs.Canon.{canon};
ghost use Rattle.canonical_json.specs.Value.{depth};

use crate::body_reading::body_of;
use crate::body_writing::{push_text, push_texts};
use crate::fault::{BodyFault, BodyField};
use canonical_json::{Json, ReadError, read, write};
use ebl_base::{ByteList, Copied, NoMemory, SignedText, TextList};
use std::alloc::Global;

/// What one platform sends another to transfer a bill: the document, the manifest, and the whole chain.
#[derive(Drop)]
pub struct Body {
    /// The transport document, an object. Whether it is one of a bill isn't asked here.
    pub document: Json,
    /// The manifest as a signed text. Whether it is one isn't asked here.
    pub manifest: SignedText,
    /// The signed texts of the chain, in their order. How many they are isn't asked here.
    pub chain: TextList,
}

impl Body {
    ghost use Rattle.envelope_manifest.specs.Body.{ReadsAs, IsBody, IsBodyFault, IsPartFault, body_in, body_view, body_value};

    /// The body that a text is: an object with `document`, an object; `manifest`, a text; `chain`, a list of texts.
    /// Further members are ignored.
    ///
    /// [`BodyFault::BodyForm`] names the first wrong part in that order, and before it the whole, where the text is
    /// not read by `canonical_json` or no object. The text is read once, and its parts are moved out of what was read.
    pub fn read(alloc: Global, bytes: &[u8]) -> Result<Body, BodyFault>
        ensures ok { IfOk result (λ body. ReadsAs bytes.now (body_view body)) }
        ensures read { IfOk result (λ body. body_in bytes.now ≡ Ok (body_view body)) }
        ensures form { IfOk result (λ body. IsBody (body_view body)) }
        ensures nests { IfOk result (λ body. depth (body_view body).document ≤ 126) }
        ensures err { IfErr result (IsBodyFault bytes.now) }
        ensures refused { IfErr result (IsPartFault (body_in bytes.now)) }
    {
        match read(alloc, bytes) {
            Ok(json) => body_of(alloc, json),
            Err(ReadError::NoMemory) => Err(BodyFault::NoMemory),
            Err(_) => Err(BodyFault::BodyForm(BodyField::Json)),
        }
    }

    /// A copy: a document with the same value, and the same texts.
    pub fn copy(&self, alloc: Global) -> Result<Body, NoMemory>
        ensures { IfOk result (λ body. body_view body ≡ body_view self.now) }
    {
        let document = self.document.copy(alloc)?;
        let manifest = self.manifest.copy(alloc)?;
        let chain = self.chain.copy(alloc)?;
        Ok(Body {
            document,
            manifest,
            chain,
        })
    }

    /// The canonical text of the body (RFC 8785), without further members. [`Body::read`] takes it when the body
    /// is well-formed and its document nests at most 126 deep.
    pub fn write(&self, alloc: Global) -> Result<ByteList, NoMemory>
        ensures { IfOk result (λ bytes. bytes ≡ canon (body_value (body_view self.now))) }
    {
        let document = write(alloc, &self.document)?;
        self.write_around(alloc, document.as_slice())
    }

    /// The same, around the document's canonical text, where that is at hand: it isn't written again.
    pub fn write_around(&self, alloc: Global, document: &[u8]) -> Result<ByteList, NoMemory>
        requires { document.now ≡ canon (body_view self.now).document }
        ensures { IfOk result (λ bytes. bytes ≡ canon (body_value (body_view self.now))) }
    {
        let mut out = ByteList::from_slice(alloc, b"{\"chain\":[")?;
        push_texts(alloc, &mut out, self.chain.as_slice())?;
        out.extend_from_slice(b",\"document\":")?;
        out.extend_from_slice(document)?;
        out.extend_from_slice(b",\"manifest\":")?;
        push_text(alloc, &mut out, &self.manifest)?;
        out.extend_from_slice(b"}")?;
        Ok(out)
    }
}
