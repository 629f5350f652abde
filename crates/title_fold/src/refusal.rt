//! Why a transaction is refused, and where a fold stops.
ghost use Rattle.std.specs.Prelude.{◌≡◌};
ghost use Rattle.title_fold.specs.Refusal.{refusal_text};

/// Why a transaction is refused. The rules are asked in this order, and the first that applies refuses.
#[derive(Clone, Copy, Debug, PartialEq, Eq)]
pub enum FoldRefusal {
    /// A SIGN when there is a title already.
    F1,
    /// Another kind than SIGN when there is no title.
    F2,
    /// The title is ended.
    F3,
    /// The kind isn't for a title in this state.
    F4,
    /// A recipient is missing, or there is one and the kind has none.
    F5,
    /// The kind is the carrier's, and the actor isn't the carrier.
    F6,
    /// The kind is the possessor's, and the actor isn't the possessor.
    F7,
    /// The kind is the title holder's, and the actor isn't the title holder.
    F8,
    /// An ENDORSE or a TRANSFER to the actor itself.
    F9,
}

impl FoldRefusal {
    /// The name of the rule, `F1` to `F9`.
    pub fn as_str(self) -> &'static str
        ensures { result.now ≡ refusal_text self }
    {
        match self {
            FoldRefusal::F1 => "F1",
            FoldRefusal::F2 => "F2",
            FoldRefusal::F3 => "F3",
            FoldRefusal::F4 => "F4",
            FoldRefusal::F5 => "F5",
            FoldRefusal::F6 => "F6",
            FoldRefusal::F7 => "F7",
            FoldRefusal::F8 => "F8",
            FoldRefusal::F9 => "F9",
        }
    }
}

/// Where a fold stopped: the first transaction that is refused, and why.
#[derive(Clone, Copy, Debug, PartialEq, Eq)]
pub struct FoldAt {
    /// The place of the transaction in the list, counted from 0.
    pub place: usize,
    /// The rule that refuses it.
    pub rule: FoldRefusal,
}
