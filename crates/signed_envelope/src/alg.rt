//! The algorithms of signatures.
ghost use Rattle.std.specs.Prelude.{◌≡◌};
ghost use Rattle.signed_envelope.specs.Alg.{alg_text};

/// The algorithm of a signature (RFC 7518, section 3.1).
#[derive(Clone, Copy, Debug, PartialEq, Eq)]
pub enum Alg {
    /// HMAC with SHA-256.
    Hs256,
    /// ECDSA with P-256 and SHA-256.
    Es256,
}

impl Alg {
    /// The name of the algorithm, as the header's member `alg` has it.
    pub fn text(self) -> &'static str
        ensures { result.now ≡ alg_text self }
    {
        match self {
            Alg::Hs256 => "HS256",
            Alg::Es256 => "ES256",
        }
    }
}
