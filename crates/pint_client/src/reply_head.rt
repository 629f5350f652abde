//! What the head of a reply says.
ghost use Rattle.std.specs.Prelude.{◌≡◌, ◌≤◌, ◌<◌, ◌^◌, [], ℕ, codes, true, length, map, IfSome, IfNone, All, Option, Some};
ghost use Rattle.std.specs.Str.Parse.{digits_value};
ghost use Rattle.httparse.specs.Grammar.{ResponseHead, ReadsResponse};
ghost use Rattle.httparse.specs.Spans.{header_bytes, IsHeaderWithin, IsResponseAt, IsResponseWithin};
ghost use Rattle.http_heads.specs.declared.head.TheConstants.{MAX_FIELDS};
ghost use Rattle.http_heads.specs.Fields.{is_length};
ghost use Rattle.pint_client.specs.Reply.{States, length_by};

use http_heads::{MAX_BODY, MAX_FIELDS, are_all, first_value, has_field, is_length};
use httparse::Status;
use httparse::spans::{EMPTY_HEADER_SPAN, HeaderSpan, ResponseSpans, parse_response};

/// What the head of a reply says: its status, and how long its body is.
#[derive(Clone, Copy, Debug, PartialEq, Eq)]
pub struct ReplyHead {
    pub status: u16,
    pub body: usize,
}

/// What a piece that is the whole head of a reply says. `None` if it is no such head, or states no length, or more than
/// [`MAX_BODY`].
pub fn reply_head(piece: &[u8]) -> Option<ReplyHead>
    ensures some { IfSome result (λ says. States piece.now says.status says.body) }
    ensures none { IfNone result ((status size : ℕ) → ¬ (States piece.now status size)) }
{
    let mut headers = [EMPTY_HEADER_SPAN; MAX_FIELDS];
    let Some(head) = whole_head(piece, &mut headers) else {
        return None;
    };
    let Some(size) = stated_length(piece, head.code, &headers[..head.headers]) else {
        return None;
    };
    if size > MAX_BODY {
        return None;
    }
    Some(ReplyHead {
        status: head.code,
        body: size as usize,
    })
}

// The head that the whole piece is.
fn whole_head(piece: &[u8], headers: &mut [HeaderSpan]) -> Option<ResponseSpans>
    requires { length headers.old ≡ MAX_FIELDS }
    ensures some { IfSome result (λ spans. (h : ResponseHead) × ReadsResponse piece.now h []
        × (length h.fields ≤ MAX_FIELDS) × IsResponseAt piece.now headers.new spans h) }
    ensures within { IfSome result (λ spans. IsResponseWithin piece.now headers.new spans) }
    ensures none { IfNone result ((h : ResponseHead) → ReadsResponse piece.now h []
        → length h.fields ≤ MAX_FIELDS → ⊥) }
{
    match parse_response(piece, headers) {
        Ok(Status::Complete(head)) => {
            if head.len == piece.len() {
                Some(head)
            } else {
                None
            }
        }
        _ => None,
    }
}

// The length of the body that these fields state.
fn stated_length(piece: &[u8], status: u16, headers: &[HeaderSpan]) -> Option<u64>
    requires { All (IsHeaderWithin (length piece.now)) headers.now }
    ensures { result ≡ length_by status (map (header_bytes piece.now) headers.now) }
{
    if status == 204 {
        return Some(0);
    }
    if has_field(piece, headers, b"transfer-encoding") {
        return None;
    }
    let length = first_value(piece, headers, b"content-length")?;
    if is_length(length) && are_all(piece, headers, b"content-length", length) {
        Some(number(length))
    } else {
        None
    }
}

fn number(digits: &[u8]) -> u64
    requires { is_length digits.now ≡ true }
    ensures { result ≡ digits_value 10 digits.now }
{
    let mut count: u64 = 0;
    for digit in digits {
        count = count * 10 + u64::from(*digit - b'0');
    }
    count
}
