//! The title to a bill, and who has which part in it.
ghost use Rattle.std.specs.Prelude.{◌≡◌};
ghost use Rattle.title_fold.specs.Title.{carrier, possessor, title_holder};

use ebl_base::{Kind, Party};

/// The title to a bill: how far the bill has come, and who has which part in it.
#[derive(Clone, Copy, Debug, PartialEq, Eq)]
pub enum Title {
    /// The carrier has signed the document, and hasn't issued the bill yet.
    Signed {
        carrier: Party,
    },
    /// The bill was issued: one party has possession, one party holds the title.
    Live {
        carrier: Party,
        possessor: Party,
        holder: Party,
    },
    /// A surrender was asked for, of this kind and by this party, and the carrier hasn't answered.
    Asked {
        kind: Kind,
        carrier: Party,
        by: Party,
    },
    /// The carrier accepted a surrender of this kind: nothing can be done with the bill any more.
    Ended {
        kind: Kind,
        carrier: Party,
    },
}

/// The party that signed the bill.
pub fn carrier(t: Title) -> Party
    ensures { result ≡ carrier t }
{
    match t {
        Title::Signed { carrier }
        | Title::Live { carrier, .. }
        | Title::Asked { carrier, .. }
        | Title::Ended { carrier, .. } => carrier,
    }
}

/// The party that has possession of the bill: the carrier, but where the bill is live.
pub fn possessor(t: Title) -> Party
    ensures { result ≡ possessor t }
{
    match t {
        Title::Live { possessor, .. } => possessor,
        other => carrier(other),
    }
}

/// The party that holds the title: the carrier before the bill is issued and after its end, and the asker while a
/// surrender is asked for.
pub fn title_holder(t: Title) -> Party
    ensures { result ≡ title_holder t }
{
    match t {
        Title::Live { holder, .. } => holder,
        Title::Asked { by, .. } => by,
        Title::Signed { carrier } | Title::Ended { carrier, .. } => carrier,
    }
}
