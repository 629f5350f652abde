//! The segments of a text that a byte ends, one after the other.
ghost use Rattle.std.specs.Prelude.{◌≡◌, ◌≤◌, ◌<◌, ◌==◌, [], ◌∷◌, length, MatchOption};
ghost use Rattle.std.specs.List.{position, position_or_len};
ghost use Rattle.ebl_base.specs.Segments.{segments_of};

fn position_of(end: u8, text: &[u8]) -> Option<usize>
    ensures { result ≡ position (λ b. b == end) text.now }
{
    text.iter().position(|byte| *byte == end)
}

// How many bytes are before the first byte of this kind, or all if there is none.
fn len_before(end: u8, text: &[u8]) -> usize
    ensures len { result ≡ position_or_len (λ b. b == end) text.now }
    ensures most { result ≤ length text.now }
{
    position_of(end, text).unwrap_or(text.len())
}

/// The first segment of a text whose segments end with a byte, as lines do, and what is behind it. The last end may be
/// missing.
///
/// `None` if and only if the text is empty. Each byte of the segment is looked at once, and none behind it.
pub fn first_segment(end: u8, text: &[u8]) -> Option<(&[u8], &[u8])>
    ensures first { MatchOption result (text.now ≡ [])
        (λ x. segments_of end text.now ≡ x.0.now ∷ segments_of end x.1.now) }
    ensures shorter { MatchOption result (text.now ≡ []) (λ x. length x.1.now < length text.now) }
{
    if text.is_empty() {
        return None;
    }
    let (segment, behind) = text.split_at(len_before(end, text));
    if behind.is_empty() {
        return Some((segment, behind));
    }
    Some((segment, &behind[1..]))
}
