//! A carrier of a roster.
use ebl_base::{CarrierCode, Party, Provider};

/// The party for which a carrier's code stands in transport documents.
#[derive(Clone, Copy, Debug, PartialEq, Eq)]
pub struct Carrier {
    /// Who keeps the list in which the code stands.
    pub provider: Provider,
    pub code: CarrierCode,
    pub party: Party,
}
