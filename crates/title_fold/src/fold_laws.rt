//! Laws of folds. Each function does nothing: its contract is the law, of every list of transactions.
#![tactic(auto, using(crate::proofs::FoldLemmas::fold_laws))]

ghost use Rattle.std.specs.Prelude.{◌≡◌, List, [], ◌∷◌, ◌++◌, length, Option, Some, Ok, Err};
ghost use Rattle.title_fold.specs.Fold.{fold, fold_on, IsBegunBy, StopsAt};
ghost use Rattle.title_fold.specs.Step.{step_title};

use crate::refusal::{FoldAt, FoldRefusal};
use crate::title::Title;
use ebl_base::Transaction;

/// The fold of a list is the fold of its front, and then of its rest.
pub fn fold_of_front_and_rest()
    ensures { (front rest : List Transaction)
        → fold (front ++ rest) ≡ fold_on (fold front) rest (length front) }
{}

/// The fold of one transaction more is its step on the title so far. So a title that is kept beside a list needs one
/// step for each transaction.
pub fn fold_of_one_more()
    ensures allowed { (list : List Transaction) (t : Transaction)
        → (before : Option Title) (after : Title)
        → fold list ≡ Ok before → step_title before t ≡ Ok after
        → fold (list ++ t ∷ []) ≡ Ok (Some after) }
    ensures refused { (list : List Transaction) (t : Transaction)
        → (before : Option Title) (rule : FoldRefusal)
        → fold list ≡ Ok before → step_title before t ≡ Err rule
        → fold (list ++ t ∷ []) ≡ Err (record { place = length list; rule = rule }) }
{}

/// No transaction, no title. Else the title begins with the first transaction: a SIGN, whose actor is the carrier of
/// every title after it.
pub fn fold_begins_with_its_first_transaction()
    ensures { (list : List Transaction) (title : Option Title)
        → fold list ≡ Ok title → IsBegunBy list title }
{}

/// A fold stops at the first transaction that is refused: all before it are allowed, and its rule is the one that
/// refuses there.
pub fn fold_stops_at_the_first_refusal()
    ensures stops { (list : List Transaction) (at : FoldAt) → fold list ≡ Err at → StopsAt list at }
    ensures there { (list : List Transaction) (at : FoldAt) → StopsAt list at → fold list ≡ Err at }
{}

/// A fold that was refused stays refused, whatever follows.
pub fn refused_fold_stays_refused()
    ensures { (front rest : List Transaction) (at : FoldAt)
        → fold front ≡ Err at → fold (front ++ rest) ≡ Err at }
{}
