//! Parties, and their texts.
ghost use Rattle.std.specs.Prelude.{◌≡◌, ◌↔◌, ◌≤◌, length, take, IfSome, IsTrue};
ghost use Rattle.std.specs.List.{prefix_len};
ghost use Rattle.std.specs.Str.{IsAscii};
ghost use Rattle.ebl_base.specs.Party.{IsParty, party_of, party_text, party_text_bytes, is_party_character};

use crate::front::{front_text, put_text};
use crate::name35::{Name35, is_name_byte};
use crate::platform_code::PlatformCode;

/// A party to bills: a name on its platform. Its text is `ALPH/EXPORT`.
#[derive(Clone, Copy, Debug, PartialEq, Eq, PartialOrd, Ord)]
pub struct Party {
    pub platform: PlatformCode,
    pub code: Name35,
}

/// The text of a party, as [`Party::to_text`] gives it.
#[derive(Clone, Copy, Debug, PartialEq, Eq)]
pub struct PartyText {
    // The characters, and zeros behind them.
    bytes: [u8; 40],
}

impl Party {
    /// The party with this text, as `ALPH/EXPORT`; `None` if and only if the text is malformed: it is a platform code,
    /// a slash and a name.
    pub fn from_text(text: &[u8]) -> Option<Party>
        ensures value { result ≡ party_of text.now }
        ensures form { IfSome result (λ party. IsParty party) }
    {
        let [a, b, c, d, b'/', name @ ..] = text else {
            return None;
        };
        let platform = PlatformCode::try_new(&[*a, *b, *c, *d])?;
        let code = Name35::try_new(name)?;
        Some(Party { platform, code })
    }

    /// Whether the party has its form, as each that was made of a code and a name does.
    pub fn is_well_formed(&self) -> bool
        ensures { IsTrue result ↔ IsParty self.now }
    {
        self.platform.is_well_formed() && self.code.is_well_formed()
    }

    /// The text of the party, as `ALPH/EXPORT`.
    pub fn to_text(&self) -> PartyText
        ensures { party_text_bytes result ≡ party_text self.now }
    {
        let platform = self.platform.as_bytes();
        let name = self.code.as_bytes();
        let mut bytes = [0; 40];
        put_text(&mut bytes, 0, platform);
        put_text(&mut bytes, platform.len(), b"/");
        put_text(&mut bytes, platform.len() + 1, name);
        PartyText { bytes }
    }
}

impl PartyText {
    /// The characters.
    pub fn as_str(&self) -> &str
        ensures { result.now ≡ party_text_bytes self.now }
    {
        front_text(&self.bytes, party_front_len(&self.bytes))
    }

    /// The characters, in ASCII.
    pub fn as_bytes(&self) -> &[u8]
        ensures { result.now ≡ party_text_bytes self.now }
    {
        self.as_str().as_bytes()
    }
}

fn is_party_byte(byte: u8) -> bool
    ensures { result ≡ is_party_character byte }
{
    is_name_byte(byte) || byte == b'/'
}

// How many leading bytes are characters of parties' texts.
fn party_front_len(bytes: &[u8]) -> usize
    ensures len { result ≡ prefix_len is_party_character bytes.now }
    ensures most { result ≤ length bytes.now }
    ensures ascii { IsAscii (take result bytes.now) }
{
    bytes
        .iter()
        .take_while(|byte| is_party_byte(**byte))
        .count()
}
