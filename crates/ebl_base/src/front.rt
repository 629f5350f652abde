//! The text in front of a fixed array.
ghost use Rattle.std.specs.Prelude.{◌≡◌, ◌≤◌, ◌+◌, ◌++◌, length, take, drop};
ghost use Rattle.std.specs.Str.{IsAscii};

/// The first bytes as a text.
pub(crate) fn front_text(bytes: &[u8], len: usize) -> &str
    requires within { len ≤ length bytes.now }
    requires ascii { IsAscii (take len bytes.now) }
    ensures { result.now ≡ take len bytes.now }
{
    let front = &bytes[..len];
    std::str::from_utf8(front).unwrap()
}

/// Writes a text over the bytes from a place on.
pub(crate) fn put_text(bytes: &mut [u8], at: usize, text: &[u8])
    requires { at + length text.now ≤ length bytes.old }
    ensures { bytes.new ≡ take at bytes.old ++ text.now ++ drop (at + length text.now) bytes.old }
{
    bytes[at..at + text.len()].copy_from_slice(text);
}
