//! How two chains of one bill meet.
ghost use Rattle.bill_chain.specs.Chain.{names_of};
ghost use Rattle.transfer_chain.specs.Meeting.{Meet};

use bill_chain::common_front;
use ebl_base::{Chain, ChainLink};

/// How two chains meet, by the names of their entries.
#[derive(Clone, Copy, Debug, PartialEq, Eq)]
pub enum Meeting {
    /// They have the same entries.
    Equal,
    /// The second has all entries of the first, and more behind them.
    FirstIsPrefix,
    /// The first has all entries of the second, and more behind them.
    SecondIsPrefix,
    /// Both have an entry at this place, counted from 0, and these are the first that differ.
    Parts(usize),
}

/// How two chains meet, by the names of their entries. It allocates nothing, and looks at no entry behind the first two
/// that differ.
pub fn meet(a: &Chain, b: &Chain) -> Meeting
    ensures { Meet (names_of a.now) (names_of b.now) result }
{
    meet_links(a.as_slice(), b.as_slice())
}

fn meet_links(a: &[ChainLink], b: &[ChainLink]) -> Meeting
    ensures { Meet (names_of a.now) (names_of b.now) result }
{
    let place = common_front(a, b);
    if place < a.len().min(b.len()) {
        return Meeting::Parts(place);
    }
    if a.len() < b.len() {
        return Meeting::FirstIsPrefix;
    }
    if b.len() < a.len() {
        return Meeting::SecondIsPrefix;
    }
    Meeting::Equal
}
