//! The names of parties on their platforms.
ghost use Rattle.std.specs.Prelude.{◌≡◌, ◌↔◌, ◌≤◌, length, take, IfSome, IsTrue};
ghost use Rattle.std.specs.List.{list_all, prefix_len};
ghost use Rattle.std.specs.Str.{IsAscii};
ghost use Rattle.ebl_base.specs.Name35.{IsName35, name_of, name_text, is_name_character};

use crate::front::{front_text, put_text};

/// The name of a party on its platform: 1 to 35 characters `A` to `Z`, `0` to `9`, `-` or `_`.
#[derive(Clone, Copy, Debug, PartialEq, Eq, PartialOrd, Ord)]
pub struct Name35 {
    // The characters, and zeros behind them.
    bytes: [u8; 35],
}

pub(crate) fn is_name_byte(byte: u8) -> bool
    ensures { result ≡ is_name_character byte }
{
    byte.is_ascii_uppercase() || byte.is_ascii_digit() || byte == b'-' || byte == b'_'
}

fn are_name_bytes(bytes: &[u8]) -> bool
    ensures { result ≡ list_all is_name_character bytes.now }
{
    bytes.iter().all(|byte| is_name_byte(*byte))
}

// How many leading bytes are name characters.
fn name_front_len(bytes: &[u8]) -> usize
    ensures len { result ≡ prefix_len is_name_character bytes.now }
    ensures most { result ≤ length bytes.now }
    ensures ascii { IsAscii (take result bytes.now) }
{
    bytes.iter().take_while(|byte| is_name_byte(**byte)).count()
}

impl Name35 {
    /// The most characters of a name.
    pub const MOST: usize = 35;

    /// The name with this text; `None` if and only if the text is malformed.
    pub fn try_new(text: &[u8]) -> Option<Name35>
        ensures value { result ≡ name_of text.now }
        ensures form { IfSome result (λ name. IsName35 name) }
    {
        if text.is_empty() || text.len() > Name35::MOST {
            return None;
        }
        if !are_name_bytes(text) {
            return None;
        }
        let mut bytes = [0; 35];
        put_text(&mut bytes, 0, text);
        Some(Name35 { bytes })
    }

    /// Whether the name has its form, as each that was made does.
    pub fn is_well_formed(&self) -> bool
        ensures { IsTrue result ↔ IsName35 self.now }
    {
        Name35::try_new(self.as_bytes()).is_some_and(|name| name == *self)
    }

    /// The characters.
    pub fn as_str(&self) -> &str
        ensures text { result.now ≡ name_text self.now }
        ensures most { length result.now ≤ 35 }
    {
        front_text(&self.bytes, name_front_len(&self.bytes))
    }

    /// The characters, in ASCII.
    pub fn as_bytes(&self) -> &[u8]
        ensures text { result.now ≡ name_text self.now }
        ensures most { length result.now ≤ 35 }
    {
        self.as_str().as_bytes()
    }
}
