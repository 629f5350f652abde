//! Whether accepted chains part ways.
ghost use Rattle.std.specs.Prelude.{◌≡◌};
ghost use Rattle.std.specs.List.{list_any};
ghost use Rattle.bill_lines.specs.Bills.{is_front, is_same, part_ways};

use bill_chain::common_front;
use ebl_base::ChainLink;

/// Whether two of the chains part ways. It compares each with each; a bill has few.
pub(crate) fn is_forked(chains: &[&[ChainLink]]) -> bool
    ensures { result ≡ list_any (λ a. list_any (λ b. part_ways a.now b.now) chains.now) chains.now }
{
    chains.iter().any(|a| parts_from_any(*a, chains))
}

fn parts_from_any(a: &[ChainLink], chains: &[&[ChainLink]]) -> bool
    ensures { result ≡ list_any (λ b. part_ways a.now b.now) chains.now }
{
    chains.iter().any(|b| part_ways(a, *b))
}

fn part_ways(a: &[ChainLink], b: &[ChainLink]) -> bool
    ensures { result ≡ part_ways a.now b.now }
{
    !(is_front(a, b) || is_front(b, a))
}

#[tactic(auto, using(crate::proofs::ChainLists::fronts))]
fn is_front(front: &[ChainLink], chain: &[ChainLink]) -> bool
    ensures { result ≡ is_front front.now chain.now }
{
    common_front(front, chain) == front.len()
}

/// Whether two chains have the same entries, by their names.
pub(crate) fn is_same(a: &[ChainLink], b: &[ChainLink]) -> bool
    ensures { result ≡ is_same a.now b.now }
{
    is_front(a, b) && is_front(b, a)
}
