//! Chains by references to their links.
ghost use Rattle.std.specs.Prelude.{◌≡◌, ◌∷◌, [], ◌++◌, IfOk, OnOk, length, map, option_copied};
ghost use Rattle.title_fold.specs.Fold.{fold};
ghost use Rattle.bill_chain.specs.Chain.{last_of, title_after_chain, transactions_of, without_place};

use bill_chain::fold_more;
use ebl_base::{Chain, ChainLink, Copied, Items, NoMemory, Transaction};
use std::alloc::Global;
use std::marker::Model;
use title_fold::{FoldRefusal, Title};

/// A chain by references to its links.
#[derive(Drop)]
pub(crate) struct Links<'a> {
    links: Vec<&'a ChainLink>,
}

impl<'a> Model for Links<'a> {
    ghost use Rattle.std.specs.Prelude.{List, map};
    ghost use Rattle.ebl_base.specs.declared.chain.ChainLink.{ChainLink};

    ghost Value = { List ChainLink };

    ghost view = { λ s. map (λ link. link.now) s.links.items };
}

impl<'a> Links<'a> {
    /// The empty chain.
    pub(crate) fn new(alloc: Global) -> Self
        ensures { result ≡ [] }
    {
        Links {
            links: Vec::new(alloc),
        }
    }

    pub(crate) fn len(&self) -> usize
        ensures { result ≡ length self.now }
    {
        self.links.len()
    }

    /// The last link.
    pub(crate) fn last(&self) -> Option<&'a ChainLink>
        ensures { option_copied result ≡ last_of self.now }
    {
        last_of(&self.links)
    }

    /// The title after the links and further transactions, or the rule that refuses the first that is refused. It goes
    /// over the links, and copies none.
    pub(crate) fn title_with(&self, more: &[Transaction]) -> Result<Option<Title>, FoldRefusal>
        ensures { result ≡ without_place (fold (transactions_of self.now ++ more.now)) }
    {
        title_with(&self.links, more)
    }

    /// Puts a link at the end.
    pub(crate) fn push(&mut self, link: &'a ChainLink) -> Result<(), NoMemory>
        ensures { OnOk result (self.new ≡ self.old ++ link.now ∷ []) }
    {
        self.links.push(link)?;
        Ok(())
    }

    /// The links of a chain.
    pub(crate) fn of(alloc: Global, chain: &'a [ChainLink]) -> Result<Self, NoMemory>
        ensures { IfOk result (λ links. links ≡ chain.now) }
    {
        let mut links = Links::new(alloc);
        for link in chain {
            links.push(link)?;
        }
        Ok(links)
    }

    /// A copy of the references.
    pub(crate) fn copy(&self, alloc: Global) -> Result<Self, NoMemory>
        ensures { IfOk result (λ links. links ≡ self.now) }
    {
        let links = Vec::from_slice(alloc, &self.links)?;
        Ok(Links { links })
    }

    /// A chain with copies of the links.
    pub(crate) fn chain(&self, alloc: Global) -> Result<Chain, NoMemory>
        ensures { IfOk result (λ chain. chain ≡ self.now) }
    {
        let mut chain = Items::new(alloc);
        for link in &self.links {
            chain.push((*link).copy(alloc)?)?;
        }
        Chain::from_vec(alloc, chain.into_vec())
    }
}

fn last_of<'a>(links: &[&'a ChainLink]) -> Option<&'a ChainLink>
    ensures { option_copied result ≡ last_of (map (λ l. l.now) links.now) }
{
    match links.last() {
        Some(link) => Some(*link),
        None => None,
    }
}

fn title_with(links: &[&ChainLink], more: &[Transaction]) -> Result<Option<Title>, FoldRefusal>
    ensures { result ≡ without_place (fold (transactions_of (map (λ l. l.now) links.now) ++ more.now)) }
{
    match title_after(links) {
        Ok(title) => fold_more(more, title),
        Err(rule) => Err(rule),
    }
}

// The title after the links.
fn title_after(links: &[&ChainLink]) -> Result<Option<Title>, FoldRefusal>
    ensures { result ≡ without_place (title_after_chain (map (λ l. l.now) links.now)) }
{
    let mut title = None;
    for link in links {
        match fold_more(link.entry.transactions.as_slice(), title) {
            Ok(after) => title = after,
            Err(rule) => return Err(rule),
        }
    }
    Ok(title)
}
