//! The title after a chain. Each transaction is folded once, from link to link: nothing is copied.
ghost use Rattle.std.specs.Prelude.{◌≡◌, ◌++◌};
ghost use Rattle.title_fold.specs.Fold.{fold, fold_from};
ghost use Rattle.bill_chain.specs.Chain.{destination, possessor_after, title_after_chain, transactions_of, without_place};

use ebl_base::{ChainLink, Party, PlatformCode, Transaction};
use title_fold::{FoldRefusal, Title, fold_from, possessor};

/// The title after a chain and further transactions, or the rule that refuses the first that is refused. No entry and
/// no transaction leave no title.
pub fn fold_after_chain(
    chain: &[ChainLink],
    more: &[Transaction],
) -> Result<Option<Title>, FoldRefusal>
    ensures { result ≡ without_place (fold (transactions_of chain.now ++ more.now)) }
{
    match fold_links(chain) {
        Ok(title) => fold_more(more, title),
        Err(rule) => Err(rule),
    }
}

/// The party that has possession after a chain; `None` if the chain is empty or a transaction of it is refused.
pub fn possessor_after(chain: &[ChainLink]) -> Option<Party>
    ensures { result ≡ possessor_after chain.now }
{
    match fold_links(chain) {
        Ok(Some(title)) => Some(possessor(title)),
        Ok(None) => None,
        Err(_) => None,
    }
}

/// Where a chain moves possession: the platform of the party that has it afterwards. `None` if the chain is empty or a
/// transaction of it is refused.
pub fn destination(chain: &[ChainLink]) -> Option<PlatformCode>
    ensures { result ≡ destination chain.now }
{
    possessor_after(chain).map(|party| party.platform)
}

fn fold_links(chain: &[ChainLink]) -> Result<Option<Title>, FoldRefusal>
    ensures { result ≡ without_place (title_after_chain chain.now) }
{
    let mut title = None;
    for link in chain {
        match fold_more(link.entry.transactions.as_slice(), title) {
            Ok(next) => title = next,
            Err(rule) => return Err(rule),
        }
    }
    Ok(title)
}

/// The title after further transactions, made one after the other on a title; or the rule that refuses the first that
/// is refused.
pub fn fold_more(list: &[Transaction], before: Option<Title>) -> Result<Option<Title>, FoldRefusal>
    ensures { result ≡ without_place (fold_from list.now before 0) }
{
    match fold_from(list, before, 0) {
        Ok(title) => Ok(title),
        Err(at) => Err(at.rule),
    }
}
