//! A ring of keys whose calls fail where a test says.
ghost use Rattle.std.specs.Prelude.{◌≡◌, ◌↔◌, true, Contains, IfOk, IsErr, is_err};
ghost use Rattle.ebl_base.specs.Calls.{after_call};
ghost use Rattle.ebl_base.specs.Faults.{HasCause};
ghost use Rattle.ebl_base.specs.Signature.{IsSignature};
ghost use Rattle.test_signer.specs.FailingRing.{ring_calls};
ghost use Rattle.test_signer.specs.Keys.{derived_keys};

use crate::keys::derived_tag;
use crate::tags::{are_equal, signature_of};
use ebl_base::{CallList, Calls, Copied, Failed, NoMemory, PlatformCode, Signature};
use signed_envelope::{Alg, KeyRing};
use std::alloc::Global;

/// The keys of [`crate::KeyedRing::derived`], with calls of `sign` that fail. It gives no security.
#[derive(Debug, Drop)]
pub struct FailingRing {
    calls: Calls,
}

impl FailingRing {
    /// A ring that fails exactly at the listed calls of `sign`, counted from 0.
    pub fn derived(fails: CallList) -> FailingRing
        ensures { ring_calls result ≡ record { fails = fails; number = 0; faults = 0 } }
    {
        FailingRing {
            calls: Calls::new(fails),
        }
    }
}

impl Copied for FailingRing {
    fn copy(&self, alloc: Global) -> Result<Self, NoMemory> {
        let calls = self.calls.copy(alloc)?;
        Ok(FailingRing { calls })
    }
}

impl KeyRing for FailingRing {
    ghost keys = { λ _. derived_keys };

    ghost faults = { λ ring. (ring_calls ring).faults };

    fn alg(&self) -> Alg {
        Alg::Hs256
    }

    fn sign(&mut self, who: PlatformCode, input: &[u8]) -> Result<Signature, Failed>
        ensures signed { IfOk result (λ s. derived_keys.signs who input.now s ≡ true) }
        ensures form { IfOk result (λ s. IsSignature s) }
        ensures listed { IsErr result ↔ Contains (ring_calls self.old).fails (ring_calls self.old).number }
        ensures cause { HasCause (ring_calls self.old).faults (ring_calls self.new).faults result }
        ensures counted { ring_calls self.new ≡ after_call (is_err result) (ring_calls self.old) }
    {
        if self.calls.next_fails() {
            return Err(self.calls.fail());
        }
        Ok(signature_of(&derived_tag(who, input)))
    }

    fn verify(&self, who: PlatformCode, input: &[u8], signature: Signature) -> bool {
        are_equal(&derived_tag(who, input), signature.as_bytes())
    }
}
