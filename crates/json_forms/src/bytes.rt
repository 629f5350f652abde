//! Bytes inside JSON: a text in base64 with padding (RFC 4648, section 4), in its one strict spelling.
ghost use Rattle.std.specs.Prelude.{◌≡◌, ℕ, List, Some, IfOk, IfSome};
ghost use Rattle.std.specs.Str.{IsUtf8};
ghost use Rattle.base64.specs.GeneralPurpose.{IsBytes};
ghost use Rattle.canonical_json.specs.View.{view, member_view};
ghost use Rattle.json_forms.specs.Bytes.{bytes_of, required_bytes, bytes_value, base64};

use crate::writing::member;
use base64::DecodeAllocError;
use base64::engine::general_purpose::STANDARD;
use canonical_json::{Json, Member, text_of};
use ebl_base::{ByteList, CharList, NoMemory};
use std::alloc::Global;

/// The bytes that a text spells in base64. None if and only if it is no such text.
///
/// The bytes are decoded once, in time linear in the text.
#[tactic(auto, unfolding(crate::specs::Bytes::bytes_of))]
pub fn bytes_of(alloc: Global, spelt: &[u8]) -> Result<Option<ByteList>, NoMemory>
    ensures bytes { IfOk result (λ found. found ≡ bytes_of spelt.now) }
    ensures form { IfOk result (λ found. IfSome found IsBytes) }
{
    match STANDARD.decode(alloc, spelt) {
        Ok(bytes) => Ok(Some(ByteList::from_vec(bytes))),
        Err(DecodeAllocError::OutOfMemory) => Err(NoMemory),
        Err(DecodeAllocError::DecodeError(_)) => Ok(None),
    }
}

/// The bytes that the member of that name spells. None if and only if the value is no object with such a member.
pub fn required_bytes(alloc: Global, json: &Json, name: &str) -> Result<Option<ByteList>, NoMemory>
    ensures bytes { IfOk result (λ found. found ≡ required_bytes name.now (view json.now)) }
    ensures form { IfOk result (λ found. IfSome found IsBytes) }
{
    match text_of(json, name) {
        Some(text) => bytes_of(alloc, text.as_str().as_bytes()),
        None => Ok(None),
    }
}

/// Bytes under a name.
#[tactic(auto, unfolding(crate::specs::Bytes::base64))]
pub fn bytes_member(alloc: Global, name: &str, bytes: &[u8]) -> Result<Member, NoMemory>
    ensures { IfOk result (λ m. member_view m ≡ (name.now, bytes_value bytes.now)) }
{
    let text = STANDARD.encode(alloc, bytes)?;
    member(alloc, name, Json::Text(CharList::from_string(text)))
}

/// Bytes have one spelling, and it is a text that spells them.
pub fn bytes_have_one_spelling()
    ensures one { (spelt bytes : List ℕ) → IsBytes spelt → IsBytes bytes
        → bytes_of spelt ≡ Some bytes → spelt ≡ base64 bytes }
    ensures back { (bytes : List ℕ) → IsBytes bytes → bytes_of (base64 bytes) ≡ Some bytes }
    ensures text { (bytes : List ℕ) → IsUtf8 (base64 bytes) }
{}
