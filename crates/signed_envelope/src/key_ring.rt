//! Rings of keys.
ghost use Rattle.std.specs.Prelude.{◌≡◌, ℕ, true, IfOk};
ghost use Rattle.ebl_base.specs.Faults.{HasCause};
ghost use Rattle.ebl_base.specs.Signature.{IsSignature};
ghost use Rattle.signed_envelope.specs.KeyRing.{Keys};

use crate::alg::Alg;
use ebl_base::{Failed, PlatformCode, Signature};

/// The keys of platforms: it signs as one, and verifies what one signed.
pub trait KeyRing {
    /// The algorithm, and which signatures are a platform's for an input. No call changes it.
    ghost keys: { Self → Keys };

    /// How often `sign` has failed. The count never falls.
    ghost faults: { Self → ℕ };

    /// The algorithm of every signature of the ring.
    fn alg(&self) -> Alg
        ensures { result ≡ (keys self.now).alg };

    /// A signature of the platform for the input. `Failed` comes only where the count of faults rose.
    fn sign(&mut self, who: PlatformCode, input: &[u8]) -> Result<Signature, Failed>
        ensures signed { IfOk result (λ s. (keys self.old).signs who input.now s ≡ true) }
        ensures form { IfOk result (λ s. IsSignature s) }
        ensures cause { HasCause (faults self.old) (faults self.new) result }
        ensures same { keys self.new ≡ keys self.old };

    /// Whether the signature is the platform's for the input.
    fn verify(&self, who: PlatformCode, input: &[u8], signature: Signature) -> bool
        ensures { result ≡ (keys self.now).signs who input.now signature };
}
