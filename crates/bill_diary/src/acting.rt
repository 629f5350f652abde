//! Whether a bill's possessor may act.
#![tactic(auto, using(crate::proofs::TitleLemmas::titles))]

ghost use Rattle.std.specs.Prelude.{◌≡◌, IfOk, Some};
ghost use Rattle.bill_diary.specs.Known.{known};
ghost use Rattle.bill_diary.specs.Place.{may_act_by};
ghost use Rattle.bill_diary.specs.Titles.{FoldedBy, is_ended_by};

use crate::bill_place::is_left;
use crate::known::known_links;
use crate::links::Links;
use crate::parting::parting;
use crate::since::since;
use crate::walk::History;
use ebl_base::NoMemory;
use std::alloc::Global;
use title_fold::{FoldRefusal, Title};

/// Whether the possessor of a bill may act by what is left of its history: the bill is held, and its title isn't ended.
///
/// It goes over the history several times, and folds the known chain where it is: no link is copied.
pub fn may_act_by(alloc: Global, h: History) -> Result<bool, NoMemory>
    ensures { IfOk result (λ may. may ≡ may_act_by h.entry) }
{
    match known_links(alloc, h.restart())? {
        Some(links) => may_act_with(alloc, h, &links),
        None => Ok(false),
    }
}

// Whether the possessor of a bill whose known chain this is may act.
fn may_act_with(alloc: Global, h: History, links: &Links) -> Result<bool, NoMemory>
    requires { known h ≡ Some links.now }
    ensures { IfOk result (λ may. may ≡ may_act_by h.entry) }
{
    if parting(h.restart()).is_some() {
        return Ok(false);
    }
    if is_left(links.last(), h.restart()) {
        return Ok(false);
    }
    let made = since(alloc, h)?;
    Ok(!is_ended(links.title_with(made.as_slice())))
}

// Whether a title is ended.
fn is_ended(folded: Result<Option<Title>, FoldRefusal>) -> bool
    ensures { result ≡ is_ended_by folded }
{
    match folded {
        Ok(Some(Title::Ended { .. })) => true,
        _ => false,
    }
}
