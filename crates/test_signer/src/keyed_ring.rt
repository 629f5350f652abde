//! A ring of keys that anybody can derive.
ghost use Rattle.std.specs.Prelude.{◌≡◌, ◌↔◌, true, IfOk, IsErr};
ghost use Rattle.ebl_base.specs.Faults.{HasCause};
ghost use Rattle.ebl_base.specs.Signature.{IsSignature};
ghost use Rattle.test_signer.specs.KeyedRing.{ring_faults, ring_keys, ring_rule};
ghost use Rattle.test_signer.specs.Keys.{derived_key, one_key, tag_of};

use crate::hmac::hmac_sha256;
use crate::keys::derived_tag;
use crate::tags::{are_equal, signature_of};
use ebl_base::{Failed, PlatformCode, Signature, count_fault};
use signed_envelope::{Alg, KeyRing};

/// A ring for tests, with HS256 (RFC 7518, section 3.2). It gives no security: anybody can derive its keys.
#[derive(Debug, Drop)]
pub struct KeyedRing {
    // Where there is none, each platform has a key of its own.
    one: Option<OneKey>,
    faults: u64,
}

#[derive(Clone, Copy, Debug, PartialEq, Eq)]
struct OneKey {
    owner: PlatformCode,
    key: [u8; 64],
}

impl KeyedRing {
    /// Each platform's key is the SHA-256 digest of the ASCII text `EBL-TEST-KEY-` followed by its code. It never
    /// fails.
    pub fn derived() -> KeyedRing
        ensures keys { ring_rule result ≡ derived_key }
        ensures faults { ring_faults result ≡ 0 }
    {
        KeyedRing {
            one: None,
            faults: 0,
        }
    }

    /// One platform has this key, and no other has one: the ring signs and verifies for that platform alone.
    pub fn one_key(who: PlatformCode, key: [u8; 64]) -> KeyedRing
        ensures keys { ring_rule result ≡ one_key who key }
        ensures faults { ring_faults result ≡ 0 }
    {
        KeyedRing {
            one: Some(OneKey { owner: who, key }),
            faults: 0,
        }
    }

    fn tag(&self, who: PlatformCode, input: &[u8]) -> Option<[u8; 32]>
        ensures { result ≡ tag_of (ring_rule self.now who) input.now }
    {
        match self.one {
            None => Some(derived_tag(who, input)),
            Some(one) if one.owner == who => Some(hmac_sha256(&one.key, input)),
            Some(_) => None,
        }
    }
}

impl KeyRing for KeyedRing {
    ghost keys = { ring_keys };

    ghost faults = { ring_faults };

    fn alg(&self) -> Alg {
        Alg::Hs256
    }

    fn sign(&mut self, who: PlatformCode, input: &[u8]) -> Result<Signature, Failed>
        ensures signed { IfOk result (λ s. (ring_keys self.old).signs who input.now s ≡ true) }
        ensures form { IfOk result (λ s. IsSignature s) }
        ensures keyless { IsErr result ↔ (ring_rule self.old who ≡ None) }
        ensures cause { HasCause (ring_faults self.old) (ring_faults self.new) result }
        ensures same { ring_rule self.new ≡ ring_rule self.old }
    {
        match self.tag(who, input) {
            Some(tag) => Ok(signature_of(&tag)),
            None => Err(count_fault(&mut self.faults)),
        }
    }

    fn verify(&self, who: PlatformCode, input: &[u8], signature: Signature) -> bool {
        match self.tag(who, input) {
            Some(tag) => are_equal(&tag, signature.as_bytes()),
            None => false,
        }
    }
}
