//! What two chains have in common in front.
ghost use Rattle.std.specs.Prelude.{◌≡◌};
ghost use Rattle.bill_chain.specs.Chain.{common_front, goes_beyond};

use ebl_base::ChainLink;

/// How many entries two chains have in common, by their names from the first on. So it is the place, counted from 0, of
/// the first entries that differ, or the length of the shorter chain. It looks at no entry behind that place.
pub fn common_front(a: &[ChainLink], b: &[ChainLink]) -> usize
    ensures { result ≡ common_front a.now b.now }
{
    let mut place = 0;
    while place < a.len() && place < b.len() && a[place].name == b[place].name {
        place += 1;
    }
    place
}

/// Whether a chain goes on beyond another one: it has all its entries in front, by their names, and is longer.
pub fn goes_beyond(before: &[ChainLink], chain: &[ChainLink]) -> bool
    ensures { result ≡ goes_beyond before.now chain.now }
{
    common_front(before, chain) == before.len() && before.len() < chain.len()
}
