//! How a bill stands.
use ebl_base::Party;

/// How a bill stands on all platforms, as its line says it.
#[derive(Clone, Copy, Debug, PartialEq, Eq)]
pub struct Standing {
    /// How many entries the longest accepted chain has.
    pub entries: usize,
    /// Whether accepted chains part ways.
    pub forked: bool,
    /// Who has possession, if there is a title.
    pub possessor: Option<Party>,
}
