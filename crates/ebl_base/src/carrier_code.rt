//! The code of a carrier.
ghost use Rattle.std.specs.Prelude.{◌≡◌, ◌↔◌, ◌≤◌, length, IfSome, IsTrue};
ghost use Rattle.ebl_base.specs.CarrierCode.{IsCarrierCode, carrier_code_of, carrier_code_text};

use crate::front::{front_text, put_text};
use crate::platform_code::{are_code_bytes, code_front_len};

/// The code of a carrier in the list of a [`Provider`](crate::Provider): 1 to 4 characters `A` to `Z`
/// or `0` to `9`.
#[derive(Clone, Copy, Debug, PartialEq, Eq, PartialOrd, Ord)]
pub struct CarrierCode {
    // The characters, and zeros behind them.
    bytes: [u8; 4],
}

impl CarrierCode {
    /// The most characters of a code.
    pub const MOST: usize = 4;

    /// The code with this text; `None` if and only if the text is malformed.
    pub fn try_new(text: &[u8]) -> Option<CarrierCode>
        ensures value { result ≡ carrier_code_of text.now }
        ensures form { IfSome result (λ code. IsCarrierCode code) }
    {
        if text.is_empty() || text.len() > CarrierCode::MOST {
            return None;
        }
        if !are_code_bytes(text) {
            return None;
        }
        let mut bytes = [0; 4];
        put_text(&mut bytes, 0, text);
        Some(CarrierCode { bytes })
    }

    /// Whether the code has its form, as each that was made does.
    pub fn is_well_formed(&self) -> bool
        ensures { IsTrue result ↔ IsCarrierCode self.now }
    {
        CarrierCode::try_new(self.as_bytes()).is_some_and(|code| code == *self)
    }

    /// The characters.
    pub fn as_str(&self) -> &str
        ensures text { result.now ≡ carrier_code_text self.now }
        ensures most { length result.now ≤ 4 }
    {
        front_text(&self.bytes, code_front_len(&self.bytes))
    }

    /// The characters, in ASCII.
    pub fn as_bytes(&self) -> &[u8]
        ensures text { result.now ≡ carrier_code_text self.now }
        ensures most { length result.now ≤ 4 }
    {
        self.as_str().as_bytes()
    }
}
