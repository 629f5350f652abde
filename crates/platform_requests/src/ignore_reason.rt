//! Why another platform's reply is ignored.
ghost use Rattle.std.specs.Prelude.{◌≡◌};
ghost use Rattle.platform_requests.specs.Words.{ignore_text};

/// Why another platform's reply to a start or a finish is ignored. The first that applies is named.
#[derive(Clone, Copy, Debug, PartialEq, Eq)]
pub enum IgnoreReason {
    /// No transfer of the bill is under way from here.
    NotParting,
    /// The reply is malformed.
    Form,
    /// The reply is for another transfer: its reference isn't that of the parting entry.
    Reference,
    /// The reply isn't signed by the platform that the bill is sent to.
    Signature,
    /// The reply is about another entry.
    OtherEntry,
    /// The reply is passing: it neither takes the bill nor declines it for good.
    Passing,
}

impl IgnoreReason {
    /// The word of the reason in an answer line, as `NOT_PARTING`.
    pub fn as_str(self) -> &'static str
        ensures { result.now ≡ ignore_text self }
    {
        match self {
            IgnoreReason::NotParting => "NOT_PARTING",
            IgnoreReason::Form => "FORM",
            IgnoreReason::Reference => "REFERENCE",
            IgnoreReason::Signature => "SIGNATURE",
            IgnoreReason::OtherEntry => "OTHER_ENTRY",
            IgnoreReason::Passing => "PASSING",
        }
    }
}
