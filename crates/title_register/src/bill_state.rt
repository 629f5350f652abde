//! What is kept of one bill.
ghost use Rattle.std.specs.Prelude.{◌≡◌};
ghost use Rattle.bill_diary.specs.Titles.{is_ended_by};
ghost use Rattle.title_register.specs.BillState.{acts_with, state_with, unknown};
ghost use Rattle.title_register.specs.Standing.{place_at};

use crate::change::Change;
use crate::standing::Standing;
use ebl_base::{ChecksumList, Items};
use envelope_manifest::PieceList;
use std::alloc::Global;
use title_fold::{FoldRefusal, Title};

/// What is kept of one bill: where it stands, and what would cost a fold or a walk to work out anew.
#[derive(Drop)]
pub(crate) struct BillState {
    pub(crate) standing: Standing,
    /// The title at the place, or the rule that refuses the first transaction that is refused.
    pub(crate) title: Result<Option<Title>, FoldRefusal>,
    /// The additional documents.
    pub(crate) pieces: PieceList,
    /// How often the bill was parted.
    pub(crate) partings: usize,
    /// The names of all entries that came with a Taken.
    pub(crate) arrived: ChecksumList,
    /// Whether no record told a chain since the last Parted.
    pub(crate) fresh: bool,
}

/// What changes in what is kept of a bill. It has all memory that the state after it needs.
#[derive(Drop)]
pub(crate) struct StateChange {
    pub(crate) standing: Change,
    pub(crate) title: Result<Option<Title>, FoldRefusal>,
    /// The documents now. `None` where they stay.
    pub(crate) pieces: Option<PieceList>,
    pub(crate) partings: usize,
    /// The names of all entries that came with a Taken. `None` where they stay.
    pub(crate) arrived: Option<ChecksumList>,
    pub(crate) fresh: bool,
}

impl BillState {
    /// What is kept of a bill of which there is no record.
    pub(crate) fn unknown(alloc: Global) -> Self
        ensures { result ≡ unknown }
    {
        BillState {
            standing: Standing::nothing(alloc),
            title: Ok(None),
            pieces: Items::new(alloc),
            partings: 0,
            arrived: Items::new(alloc),
            fresh: false,
        }
    }

    /// Whether the possessor may act: the bill is held, and its title isn't ended.
    pub(crate) fn may_act(&self) -> bool
        ensures { result ≡ acts_with (place_at self.now.standing) self.now.title }
    {
        self.standing.is_held() && !is_ended(self.title)
    }

    /// The state after a change.
    pub(crate) fn changed(self, change: StateChange) -> Self
        ensures { result ≡ state_with change self }
    {
        let BillState {
            standing,
            pieces,
            arrived,
            ..
        } = self;
        BillState {
            standing: standing.changed(change.standing),
            title: change.title,
            pieces: change.pieces.unwrap_or(pieces),
            partings: change.partings,
            arrived: change.arrived.unwrap_or(arrived),
            fresh: change.fresh,
        }
    }
}

// Whether a title is ended.
fn is_ended(folded: Result<Option<Title>, FoldRefusal>) -> bool
    ensures { result ≡ is_ended_by folded }
{
    match folded {
        Ok(Some(Title::Ended { .. })) => true,
        _ => false,
    }
}
