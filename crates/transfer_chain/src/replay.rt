//! The pass over a chain, entry by entry, with the title so far: each transaction is folded once.
ghost use Rattle.std.specs.Prelude.{◌≡◌, None, true};
ghost use Rattle.transfer_chain.specs.GoodChain.{first_actor};
ghost use Rattle.transfer_chain.specs.Steps.{agree, is_by_carrier, is_expected_platform, check_entry, pass, run, same_name, same_party, turn_of};

use crate::fault::ChainRefusal;
use ebl_base::{ChainLink, Checksum, Entry, Party, PlatformCode, Transaction};
use title_fold::{FoldAt, Title, apply, moves, possessor};

/// The title after an entry's transactions, and whether the last of them alone moves.
#[derive(Clone, Copy, Debug, PartialEq, Eq)]
pub(crate) struct Replayed {
    pub(crate) title: Option<Title>,
    pub(crate) moves_last: bool,
}

/// The title after the links of a chain for this carrier and this bill, or the first refusal.
pub(crate) fn pass(
    carrier: Option<Party>,
    bill: Checksum,
    chain: &[ChainLink],
) -> Result<Option<Title>, ChainRefusal>
    ensures { result ≡ pass carrier bill chain.now None None 0 }
{
    let mut previous = None;
    let mut title = None;
    for (place, link) in chain.iter().enumerate() {
        match check_entry(carrier, bill, previous, title, place, &link.entry) {
            Ok(after) => title = after,
            Err(refusal) => return Err(refusal),
        }
        previous = Some(link.name);
    }
    Ok(title)
}

fn check_entry(
    carrier: Option<Party>,
    bill: Checksum,
    previous: Option<Checksum>,
    title: Option<Title>,
    place: usize,
    entry: &Entry,
) -> Result<Option<Title>, ChainRefusal>
    ensures { result ≡ check_entry carrier bill previous title place entry.now }
{
    let transactions = entry.transactions.as_slice();
    if !same_name(entry.previous, previous) {
        return Err(ChainRefusal::BrokenLink(place));
    }
    if entry.bill != bill {
        return Err(ChainRefusal::WrongBill(place));
    }
    if !is_by_carrier(carrier, title, transactions) {
        return Err(ChainRefusal::Carrier);
    }
    if !is_expected_platform(turn_of(title, transactions), entry.platform) {
        return Err(ChainRefusal::WrongPlatform(place));
    }
    match run(title, transactions) {
        Ok(ran) if ran.moves_last => Ok(ran.title),
        Ok(_) => Err(ChainRefusal::Move(place)),
        Err(at) => Err(ChainRefusal::Fold(place, at.place, at.rule)),
    }
}

fn same_name(a: Option<Checksum>, b: Option<Checksum>) -> bool
    ensures { result ≡ same_name a b }
{
    match (a, b) {
        (None, None) => true,
        (Some(a), Some(b)) => a == b,
        _ => false,
    }
}

fn same_party(a: Option<Party>, b: Option<Party>) -> bool
    ensures { result ≡ same_party a b }
{
    match (a, b) {
        (Some(a), Some(b)) => a == b,
        _ => false,
    }
}

fn first_actor(transactions: &[Transaction]) -> Option<Party>
    ensures { result ≡ first_actor transactions.now }
{
    match transactions {
        [first, ..] => Some(first.actor),
        [] => None,
    }
}

fn is_by_carrier(carrier: Option<Party>, title: Option<Title>, transactions: &[Transaction]) -> bool
    ensures { result ≡ is_by_carrier carrier title transactions.now }
{
    match title {
        None => same_party(carrier, first_actor(transactions)),
        Some(_) => true,
    }
}

fn turn_of(title: Option<Title>, transactions: &[Transaction]) -> Option<PlatformCode>
    ensures { result ≡ turn_of title transactions.now }
{
    match title {
        None => match first_actor(transactions) {
            Some(party) => Some(party.platform),
            None => None,
        },
        Some(title) => Some(possessor(title).platform),
    }
}

fn is_expected_platform(turn: Option<PlatformCode>, platform: PlatformCode) -> bool
    ensures { result ≡ is_expected_platform turn platform }
{
    match turn {
        None => false,
        Some(turn) => turn == platform,
    }
}

fn agree(moved: bool, is_last: bool) -> bool
    ensures { result ≡ agree moved is_last }
{
    if is_last { moved } else { !moved }
}

/// The title after transactions that are made one after the other on a title, and whether the last of them alone
/// moves; or the first that is refused.
pub(crate) fn run(before: Option<Title>, transactions: &[Transaction]) -> Result<Replayed, FoldAt>
    ensures { result ≡ run transactions.now before true 0 }
{
    let mut title = before;
    let mut moves_last = true;
    let mut rest = transactions;
    let mut place = 0;
    while let [t, behind @ ..] = rest {
        match apply(title, t) {
            Ok(after) => {
                moves_last = moves_last && agree(moves(title, after), behind.is_empty());
                title = Some(after);
            }
            Err(rule) => return Err(FoldAt { place, rule }),
        }
        rest = behind;
        place += 1;
    }
    Ok(Replayed { title, moves_last })
}
