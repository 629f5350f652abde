//! Looking into the fields of a head: of a request, and by the client of a reply.
ghost use Rattle.std.specs.Prelude.{◌≡◌, ◌+◌, ◌≤◌, length, codes, map, All, min, option_map};
ghost use Rattle.std.specs.Char.{is_ascii_digit};
ghost use Rattle.std.specs.List.{list_all, list_any};
ghost use Rattle.std.specs.Str.Parse.{AllDigits, digits_value};
ghost use Rattle.httparse.specs.Spans.{IsHeaderWithin, header_bytes};
ghost use Rattle.http_heads.specs.Fields.{is_name, is_text, values, first_of, has_one, is_length, closes};

use httparse::spans::HeaderSpan;

/// The most bytes of a body.
pub const MAX_BODY: u64 = 4_194_304;

/// Whether a header has this name, in letters of either case.
pub fn has_field(piece: &[u8], headers: &[HeaderSpan], name: &[u8]) -> bool
    requires { All (IsHeaderWithin (length piece.now)) headers.now }
    ensures { result ≡ has_one (values name.now (map (header_bytes piece.now) headers.now)) }
{
    for header in headers {
        if is_name(name, header.name.of(piece)) {
            return true;
        }
    }
    false
}

/// Whether a header `Connection` is `close`.
pub(crate) fn closes(piece: &[u8], headers: &[HeaderSpan]) -> bool
    requires { All (IsHeaderWithin (length piece.now)) headers.now }
    ensures { result ≡ closes (map (header_bytes piece.now) headers.now) }
{
    for header in headers {
        if is_name(b"connection", header.name.of(piece))
            && is_name(b"close", header.value.of(piece))
        {
            return true;
        }
    }
    false
}

/// The value of the first header of this name.
pub fn first_value<'a>(piece: &'a [u8], headers: &[HeaderSpan], name: &[u8]) -> Option<&'a [u8]>
    requires { All (IsHeaderWithin (length piece.now)) headers.now }
    ensures { option_map (λ v. v.now) result ≡ first_of (values name.now (map (header_bytes piece.now) headers.now)) }
{
    for header in headers {
        if is_name(name, header.name.of(piece)) {
            return Some(header.value.of(piece));
        }
    }
    None
}

/// Whether every header of this name has this value.
pub fn are_all(piece: &[u8], headers: &[HeaderSpan], name: &[u8], value: &[u8]) -> bool
    requires { All (IsHeaderWithin (length piece.now)) headers.now }
    ensures { result ≡ list_all (is_text value.now) (values name.now (map (header_bytes piece.now) headers.now)) }
{
    for header in headers {
        if is_name(name, header.name.of(piece)) && !is_text(value, header.value.of(piece)) {
            return false;
        }
    }
    true
}

/// Whether a value is the text of a length: 1 to 19 digits.
pub fn is_length(value: &[u8]) -> bool
    ensures { result ≡ is_length value.now }
{
    1 <= value.len() && value.len() <= 19 && are_digits(value)
}

fn are_digits(value: &[u8]) -> bool
    ensures { result ≡ list_all is_ascii_digit value.now }
{
    for digit in value {
        if !digit.is_ascii_digit() {
            return false;
        }
    }
    true
}

/// The number that the digits write, or the least that is too large for a body.
pub(crate) fn capped_length(digits: &[u8]) -> u64
    requires { AllDigits 10 digits.now }
    ensures { result ≡ min (digits_value 10 digits.now) (MAX_BODY + 1) }
{
    let mut size = 0;
    for digit in digits {
        size = capped(size * 10 + (*digit - b'0') as u64);
    }
    size
}

fn capped(size: u64) -> u64
    ensures { result ≡ min size (MAX_BODY + 1) }
{
    if size <= MAX_BODY { size } else { MAX_BODY + 1 }
}

pub(crate) fn is_text(a: &[u8], b: &[u8]) -> bool
    ensures { result ≡ is_text a.now b.now }
{
    a == b
}

fn is_name(a: &[u8], b: &[u8]) -> bool
    ensures { result ≡ is_name a.now b.now }
{
    a.eq_ignore_ascii_case(b)
}
