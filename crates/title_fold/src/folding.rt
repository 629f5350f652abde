//! The fold of a list of transactions.
ghost use Rattle.std.specs.Prelude.{◌≡◌, ◌+◌, ◌≤◌, length};
ghost use Rattle.title_fold.specs.Fold.{fold, fold_from};

use crate::refusal::FoldAt;
use crate::step::apply;
use crate::title::Title;
use ebl_base::Transaction;

/// The title after the transactions of a list, made one after the other from none; or the first that is refused, with
/// its rule.
///
/// The empty list leaves no title. Each transaction is looked at once.
pub fn fold(list: &[Transaction]) -> Result<Option<Title>, FoldAt>
    ensures { result ≡ fold list.now }
{
    fold_from(list, None, 0)
}

/// The title after the transactions of a list, made one after the other on a title; or the first that is refused, with
/// its rule. The first of the list has this place. So a fold goes on over a list that isn't in one piece.
pub fn fold_from(
    list: &[Transaction],
    before: Option<Title>,
    place: usize,
) -> Result<Option<Title>, FoldAt>
    requires { place + length list.now ≤ usize.MAX }
    ensures { result ≡ fold_from list.now before place }
{
    let mut title = before;
    for (ahead, t) in list.iter().enumerate() {
        match apply(title, t) {
            Ok(next) => title = Some(next),
            Err(rule) => {
                let place = place + ahead;
                return Err(FoldAt { place, rule });
            }
        }
    }
    Ok(title)
}
