//! The title after a change of where a bill stands.
ghost use Rattle.std.specs.Prelude.{◌≡◌, option_copied, unwrap_or};
ghost use Rattle.title_register.specs.BillState.{title_by};
ghost use Rattle.title_register.specs.Standing.{parting_with, standing_with};

use crate::change::{Change, PartingChange, known_now};
use crate::standing::Standing;
use ebl_base::{ChainLink, Transaction, TransactionList};
use title_fold::{FoldRefusal, Title};

/// The title at the place after a change, or the rule that refuses the first transaction that is refused. It goes on
/// from the title after the chain that is known then, and folds no chain.
pub(crate) fn title_after(
    standing: &Standing,
    change: &Change,
) -> Result<Option<Title>, FoldRefusal>
    ensures { result ≡ title_by (standing_with change.now standing.now) }
{
    let Some(chain) = known_now(&change.known, &standing.known) else {
        return Ok(None);
    };
    if let Some(link) = parting_now(&change.parting, &standing.parting) {
        return chain.title_with(link.entry.transactions.as_slice());
    }
    if change.left {
        return chain.title();
    }
    chain.title_with(since_now(&change.since, &standing.since))
}

// The entry that is parting after a change.
fn parting_now<'a>(
    change: &'a PartingChange,
    parting: &'a Option<ChainLink>,
) -> Option<&'a ChainLink>
    ensures { option_copied result ≡ parting_with change.now parting.now }
{
    match change {
        PartingChange::Same => parting.as_ref(),
        PartingChange::Over => None,
        PartingChange::Begins(link) => Some(link),
    }
}

// The transactions that were made since the last Taken, after a change.
fn since_now<'a>(
    change: &'a Option<TransactionList>,
    since: &'a TransactionList,
) -> &'a [Transaction]
    ensures { result.now ≡ unwrap_or change.now since.now }
{
    match change {
        Some(list) => list.as_slice(),
        None => since.as_slice(),
    }
}
