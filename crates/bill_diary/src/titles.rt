//! The title after a chain.
ghost use Rattle.std.specs.Prelude.{◌≡◌};
ghost use Rattle.bill_chain.specs.Chain.{title_after_chain};
ghost use Rattle.bill_diary.specs.Titles.{unplaced};

use bill_chain::fold_after_chain;
use ebl_base::ChainLink;
use title_fold::{FoldRefusal, Title};

/// The title after a chain's transactions; `None` where it has none. Else the rule that refuses the first transaction
/// that is refused. It goes over the links, and copies none.
pub fn title_after_chain(links: &[ChainLink]) -> Result<Option<Title>, FoldRefusal>
    ensures { result ≡ unplaced (title_after_chain links.now) }
{
    fold_after_chain(links, &[])
}
