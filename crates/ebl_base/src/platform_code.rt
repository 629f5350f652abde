//! The codes of title platforms.
ghost use Rattle.std.specs.Prelude.{◌≡◌, ◌↔◌, ◌≤◌, length, take, IfSome, IsTrue};
ghost use Rattle.std.specs.List.{list_all, prefix_len};
ghost use Rattle.std.specs.Str.{IsAscii};
ghost use Rattle.ebl_base.specs.PlatformCode.{IsCode, code_of, code_text, is_code_character};

use crate::front::front_text;

/// The code of a title platform: four characters `A` to `Z` or `0` to `9`.
#[derive(Clone, Copy, Debug, PartialEq, Eq, PartialOrd, Ord)]
pub struct PlatformCode {
    bytes: [u8; 4],
}

fn is_code_byte(byte: u8) -> bool
    ensures { result ≡ is_code_character byte }
{
    byte.is_ascii_uppercase() || byte.is_ascii_digit()
}

pub(crate) fn are_code_bytes(bytes: &[u8]) -> bool
    ensures { result ≡ list_all is_code_character bytes.now }
{
    bytes.iter().all(|byte| is_code_byte(*byte))
}

impl PlatformCode {
    /// The code with this text; `None` if and only if the text is malformed.
    pub fn try_new(bytes: &[u8]) -> Option<PlatformCode>
        ensures value { result ≡ code_of bytes.now }
        ensures form { IfSome result (λ code. IsCode code) }
    {
        let [a, b, c, d] = bytes else {
            return None;
        };
        if !are_code_bytes(bytes) {
            return None;
        }
        Some(PlatformCode {
            bytes: [*a, *b, *c, *d],
        })
    }

    /// Whether the code has its form, as each that was made does.
    pub fn is_well_formed(&self) -> bool
        ensures { IsTrue result ↔ IsCode self.now }
    {
        PlatformCode::try_new(self.as_bytes()).is_some_and(|code| code == *self)
    }

    /// The four characters.
    pub fn as_str(&self) -> &str
        ensures text { result.now ≡ code_text self.now }
        ensures most { length result.now ≤ 4 }
    {
        front_text(&self.bytes, code_front_len(&self.bytes))
    }

    /// The four characters, in ASCII.
    pub fn as_bytes(&self) -> &[u8]
        ensures text { result.now ≡ code_text self.now }
        ensures most { length result.now ≤ 4 }
    {
        self.as_str().as_bytes()
    }
}

// How many leading bytes are code characters.
pub(crate) fn code_front_len(bytes: &[u8]) -> usize
    ensures len { result ≡ prefix_len is_code_character bytes.now }
    ensures most { result ≤ length bytes.now }
    ensures ascii { IsAscii (take result bytes.now) }
{
    bytes.iter().take_while(|byte| is_code_byte(**byte)).count()
}
