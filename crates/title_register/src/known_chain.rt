//! The chain of a bill that is known, with the title after it.
ghost use Rattle.std.specs.Prelude.{◌≡◌, ◌++◌, ◌∷◌, [], IfOk, length};
ghost use Rattle.title_fold.specs.Fold.{fold};
ghost use Rattle.bill_chain.specs.Chain.{title_after_chain, transactions_of};
ghost use Rattle.bill_diary.specs.Titles.{unplaced};

use bill_chain::fold_more;
use bill_diary::title_after_chain;
use ebl_base::{Chain, ChainLink, Copied, NoMemory, Transaction};
use std::alloc::Global;
use std::marker::Model;
use title_fold::{FoldRefusal, Title};

/// A chain that is known. The title after it is kept beside it, so that what is done on the bill afterwards never folds
/// the chain again. Contracts see the chain.
#[derive(Drop)]
pub(crate) struct KnownChain {
    chain: Chain,
    /// The title after the chain, or the rule that refuses the first transaction that is refused.
    title: Result<Option<Title>, FoldRefusal>,
}

impl Model for KnownChain {
    ghost use Rattle.std.specs.Prelude.{◌≡◌, List};
    ghost use Rattle.ebl_base.specs.declared.chain.ChainLink.{ChainLink};
    ghost use Rattle.bill_chain.specs.Chain.{title_after_chain};
    ghost use Rattle.bill_diary.specs.Titles.{unplaced};

    ghost Value = { List ChainLink };

    ghost view = { λ s. s.chain };

    ghost invariant = { λ s. s.title ≡ unplaced (title_after_chain s.chain) };
}

impl KnownChain {
    /// The chain without an entry.
    pub(crate) fn empty() -> Self
        ensures { result ≡ [] }
    {
        KnownChain {
            chain: Chain::new(),
            title: Ok(None),
        }
    }

    /// A chain, which is folded for that.
    pub(crate) fn of(chain: Chain) -> Self
        ensures { result ≡ chain }
    {
        let title = title_after_chain(chain.as_slice());
        KnownChain { chain, title }
    }

    /// This chain, followed by an entry. The texts of both stay where they are, and only the entry's transactions are
    /// folded.
    pub(crate) fn followed_by(&self, alloc: Global, link: &ChainLink) -> Result<Self, NoMemory>
        ensures { IfOk result (λ longer. longer ≡ self.now ++ link.now ∷ []) }
    {
        let title = self.title_with(link.entry.transactions.as_slice());
        let chain = self.chain.followed_by(alloc, link.copy(alloc)?)?;
        Ok(KnownChain { chain, title })
    }

    /// The chain itself.
    pub(crate) fn chain(&self) -> &Chain
        ensures { result.now ≡ self.now }
    {
        &self.chain
    }

    /// The entries.
    pub(crate) fn as_slice(&self) -> &[ChainLink]
        ensures { result.now ≡ self.now }
    {
        self.chain.as_slice()
    }

    /// How many entries there are.
    pub(crate) fn len(&self) -> usize
        ensures { result ≡ length self.now }
    {
        self.chain.len()
    }

    /// The title after the chain.
    pub(crate) fn title(&self) -> Result<Option<Title>, FoldRefusal>
        ensures { result ≡ unplaced (title_after_chain self.now) }
    {
        self.title
    }

    /// The title after the chain and these transactions, which alone are folded.
    pub(crate) fn title_with(&self, more: &[Transaction]) -> Result<Option<Title>, FoldRefusal>
        ensures { result ≡ unplaced (fold (transactions_of self.now ++ more.now)) }
    {
        match self.title {
            Ok(title) => fold_more(more, title),
            Err(rule) => Err(rule),
        }
    }
}
