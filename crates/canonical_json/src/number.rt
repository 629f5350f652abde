//! The number that a number's text is (RFC 8259, section 6), in lowest terms by tens.
ghost use Rattle.std.specs.Prelude.{◌≡◌, ◌≤◌, ◌<◌, ℕ, min, length, true};
ghost use Rattle.std.specs.Str.Parse.{AllDigits, digits_value_after};
ghost use Rattle.fast_float.specs.Text.{scan, with_sign};
ghost use Rattle.canonical_json.specs.Number.{is_negative, lowest, is_decimal, exact, from_parts, number_in};
ghost use Rattle.canonical_json.specs.Faults.{IsNoted, ends_in_zero};
ghost use Rattle.canonical_json.specs.Lawful.{HasTexts};
ghost use Rattle.canonical_json.specs.View.{view};

use crate::faults::Faults;
use crate::value::Json;
use ebl_base::MAX_WHOLE_NUMBER;
use fast_float::Numeral;

// Sizes from here on need no exact value, since no number of this size is read.
const TOO_LARGE: u64 = MAX_WHOLE_NUMBER + 1;

/// The value of a number's text, or null where it has a fault, which is noted.
pub(crate) fn number_of(text: &str, faults: &mut Faults) -> Json
    ensures noted { IsNoted (number_in text.now) faults.old faults.new result }
    ensures texts { HasTexts (view result) }
{
    let bytes = text.as_bytes();
    if is_negative(bytes) {
        number_from(true, &bytes[1..], faults)
    } else {
        number_from(false, bytes, faults)
    }
}

fn is_negative(text: &[u8]) -> bool
    ensures value { result ≡ is_negative text.now }
    ensures some { result ≡ true → 0 < length text.now }
{
    !text.is_empty() && text[0] == b'-'
}

// The text has no minus.
fn number_from(negative: bool, text: &[u8], faults: &mut Faults) -> Json
    ensures noted { IsNoted (from_parts negative (scan text.now)) faults.old faults.new result }
    ensures texts { HasTexts (view result) }
{
    let numeral = Numeral::scan(text);
    if !numeral.exponent().is_empty() {
        faults.fraction = true;
        return Json::Null;
    }
    let fraction = without_ending_zeros(numeral.fraction());
    let size = capped_size(capped_size(0, numeral.whole()), fraction);
    exact(negative, size, fraction.len(), faults)
}

// The value of size / 10^scale in lowest terms.
fn exact(negative: bool, size: u64, scale: usize, faults: &mut Faults) -> Json
    ensures noted { (n : ℕ) → size ≡ min n 9007199254740992
        → IsNoted (exact negative (n, scale)) faults.old faults.new result }
    ensures texts { HasTexts (view result) }
{
    if scale == 0 {
        return whole(negative, size, faults);
    }
    if !is_decimal(size, scale) {
        faults.fraction = true;
        return Json::Null;
    }
    Json::Decimal {
        digits: with_sign(negative, size),
        scale: scale as u32,
    }
}

fn whole(negative: bool, size: u64, faults: &mut Faults) -> Json
    ensures noted { (n : ℕ) → size ≡ min n 9007199254740992
        → IsNoted (exact negative (n, 0)) faults.old faults.new result }
    ensures texts { HasTexts (view result) }
{
    if MAX_WHOLE_NUMBER < size {
        faults.range = true;
        return Json::Null;
    }
    Json::Int(with_sign(negative, size))
}

fn with_sign(negative: bool, size: u64) -> i64
    requires { size ≤ 9007199254740992 }
    ensures { result ≡ with_sign negative size }
{
    if negative {
        -(size as i64)
    } else {
        size as i64
    }
}

/// Whether size / 10^scale is a decimal: at most 15 digits, the last of them not 0, and at least
/// 10^-6.
pub(crate) fn is_decimal(size: u64, scale: usize) -> bool
    ensures value { result ≡ is_decimal size scale }
    ensures few { result ≡ true → (size < 1000000000000000) × (scale ≤ 20) }
{
    if 20 < scale {
        return false;
    }
    let near = 10u128.pow(scale as u32) <= size as u128 * 1_000_000;
    (0 < scale) & (size % 10 != 0) & (size < 1_000_000_000_000_000) & near
}

// The digits up to the last that isn't 0.
fn without_ending_zeros(digits: &[u8]) -> &[u8]
    requires { AllDigits 10 digits.now }
    ensures lowest { (n : ℕ) → lowest (digits_value_after 10 n digits.now) (length digits.now)
        ≡ (digits_value_after 10 n result.now, length result.now) }
    ensures digits { AllDigits 10 result.now }
{
    let mut end = digits.len();
    while ends_in_zero(digits, end) {
        end -= 1;
    }
    &digits[..end]
}

// Whether the digit before `end` is 0.
fn ends_in_zero(digits: &[u8], end: usize) -> bool
    requires { end ≤ length digits.now }
    ensures value { result ≡ ends_in_zero digits.now end }
    ensures some { result ≡ true → 0 < end }
{
    end > 0 && digits[end - 1] == b'0'
}

// The number that the digits write behind those of `start`, or the least that is too large.
fn capped_size(start: u64, digits: &[u8]) -> u64
    requires digits { AllDigits 10 digits.now }
    requires start { start ≤ 9007199254740992 }
    ensures { result ≡ min (digits_value_after 10 start digits.now) 9007199254740992 }
{
    let mut size = start;
    for digit in digits {
        size = capped(size * 10 + (*digit - b'0') as u64);
    }
    size
}

fn capped(size: u64) -> u64
    ensures { result ≡ min size 9007199254740992 }
{
    if size < TOO_LARGE { size } else { TOO_LARGE }
}
