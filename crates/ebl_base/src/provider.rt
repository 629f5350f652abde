//! The lists of carriers' codes.
ghost use Rattle.std.specs.Prelude.{◌≡◌};
ghost use Rattle.ebl_base.specs.Provider.{provider_of, provider_text};

/// Who keeps a list of carriers' codes.
#[derive(Clone, Copy, Debug, PartialEq, Eq, PartialOrd, Ord)]
pub enum Provider {
    /// The Ship Message Design Group, with its text `SMDG`.
    Smdg,
    /// The National Motor Freight Traffic Association, with its text `NMFTA`.
    Nmfta,
}

// Every provider, once.
const PROVIDERS: [Provider; 2] = [Provider::Smdg, Provider::Nmfta];

impl Provider {
    /// The provider with this text; `None` if and only if the text is neither `SMDG` nor `NMFTA`.
    pub fn from_text(text: &[u8]) -> Option<Provider>
        ensures { result ≡ provider_of text.now }
    {
        PROVIDERS
            .iter()
            .copied()
            .find(|provider| provider.as_str().as_bytes() == text)
    }

    /// The text of the provider.
    pub fn as_str(self) -> &'static str
        ensures { result.now ≡ provider_text self }
    {
        match self {
            Provider::Smdg => "SMDG",
            Provider::Nmfta => "NMFTA",
        }
    }
}
