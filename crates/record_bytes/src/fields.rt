//! The fields of a frame, taken from its front. Texts are borrowed.
ghost use Rattle.std.specs.Prelude.{◌≡◌, ◌↔◌, ◌<◌, ◌^◌, IsTrue, ℕ, List, [], ◌∷◌, IfSome, IfNone};
ghost use Rattle.ebl_base.specs.declared.checksum.Checksum.{Checksum};
ghost use Rattle.record_bytes.specs.Fields.{four_bytes};
ghost use Rattle.record_bytes.specs.Reading.{BeginsWithText, BeginsWithName, BeginsWithNames, IsText, AreTexts};

use ebl_base::Checksum;

/// The text at the front, and what follows it. None if and only if the bytes begin with no text.
pub(crate) fn text_at(bytes: &[u8]) -> Option<(&[u8], &[u8])>
    ensures found { IfSome result (λ p. BeginsWithText bytes.now p.0.now p.1.now) }
    ensures none { IfNone result ((text rest : List ℕ) → ¬ BeginsWithText bytes.now text rest) }
{
    let (length, rest) = bytes.split_first_chunk::<4>()?;
    let length = number_of(length);
    if rest.len() < length {
        return None;
    }
    Some(rest.split_at(length))
}

fn number_of(four: &[u8; 4]) -> usize
    ensures bytes { four_bytes result ≡ four.now }
    ensures short { result < 2 ^ 32 }
{
    u32::from_be_bytes(*four) as usize
}

/// The text that the bytes are. None if and only if they are none.
pub(crate) fn one_text(bytes: &[u8]) -> Option<&[u8]>
    ensures found { IfSome result (λ text. IsText bytes.now text.now) }
    ensures none { IfNone result ((text : List ℕ) → ¬ IsText bytes.now text) }
{
    let (text, rest) = text_at(bytes)?;
    if rest.is_empty() { Some(text) } else { None }
}

/// The two texts that the bytes are. None if and only if they aren't two.
pub(crate) fn two_texts(bytes: &[u8]) -> Option<(&[u8], &[u8])>
    ensures found { IfSome result (λ p. AreTexts bytes.now p.0.now p.1.now) }
    ensures none { IfNone result ((first second : List ℕ) → ¬ AreTexts bytes.now first second) }
{
    let (first, rest) = text_at(bytes)?;
    let second = one_text(rest)?;
    Some((first, second))
}

/// The name at the front, and what follows it. None if and only if there are fewer than 32 bytes.
pub(crate) fn name_at(bytes: &[u8]) -> Option<(Checksum, &[u8])>
    ensures found { IfSome result (λ p. BeginsWithName bytes.now p.0 p.1.now) }
    ensures none { IfNone result ((name : Checksum) (rest : List ℕ) → ¬ BeginsWithName bytes.now name rest) }
{
    let (name, rest) = bytes.split_first_chunk::<32>()?;
    Some((Checksum(*name), rest))
}

/// The names of a bill and an entry at the front, and what follows them. None if and only if there are fewer than 64
/// bytes.
pub(crate) fn names_at(bytes: &[u8]) -> Option<(Checksum, Checksum, &[u8])>
    ensures found { IfSome result (λ p. BeginsWithNames bytes.now p.0 p.1 p.2.now) }
    ensures none { IfNone result ((bill entry : Checksum) (rest : List ℕ)
        → ¬ BeginsWithNames bytes.now bill entry rest) }
{
    let (bill, rest) = name_at(bytes)?;
    let (entry, rest) = name_at(rest)?;
    Some((bill, entry, rest))
}

/// The byte at the front, and what follows it. None if and only if there is none.
pub(crate) fn byte_at(bytes: &[u8]) -> Option<(u8, &[u8])>
    ensures found { IfSome result (λ p. bytes.now ≡ p.0 ∷ p.1.now) }
    ensures none { IfNone result (bytes.now ≡ []) }
{
    match bytes {
        [byte, rest @ ..] => Some((*byte, rest)),
        [] => None,
    }
}

/// Whether two lists of bytes are one.
pub(crate) fn are_same(left: &[u8], right: &[u8]) -> bool
    ensures { IsTrue result ↔ (left.now ≡ right.now) }
{
    left == right
}
