//! Laws of one transaction. Each function does nothing: its contract is the law, of every title and transaction.
#![tactic(auto, using(crate::proofs::TitleLaws::title_laws))]

ghost use Rattle.std.specs.Prelude.{◌≡◌, ◌≢◌, Option, Some, None, Ok, Err, if◌then◌else◌};
ghost use Rattle.title_fold.specs.Changes.{GivesPossession, GivesTitle};
ghost use Rattle.title_fold.specs.Rules.{is_sign};
ghost use Rattle.title_fold.specs.Step.{step_title};
ghost use Rattle.title_fold.specs.Allowed.{IsAllowed};
ghost use Rattle.title_fold.specs.Title.{carrier, possessor, title_holder};
ghost use Rattle.title_fold.specs.declared.title.Title.TheVariants.{Signed, Live, Ended};

use crate::refusal::FoldRefusal;
use crate::title::Title;
use ebl_base::{Kind, Party, Transaction};

/// The rules and the table of kinds let through what the table of the allowed transactions has, and nothing else.
pub fn step_makes_what_is_allowed()
    ensures allowed { (before : Option Title) (t : Transaction) (after : Title)
        → step_title before t ≡ Ok after → IsAllowed before t after }
    ensures made { (before : Option Title) (t : Transaction) (after : Title)
        → IsAllowed before t after → step_title before t ≡ Ok after }
{}

/// A title begins with a SIGN that has no recipient, and its actor is the carrier.
pub fn title_begins_with_a_sign()
    ensures kind { (t : Transaction) (after : Title)
        → step_title None t ≡ Ok after → t.kind ≡ Kind.Sign }
    ensures recipient { (t : Transaction) (after : Title)
        → step_title None t ≡ Ok after → t.recipient ≡ None }
    ensures title { (t : Transaction) (after : Title)
        → step_title None t ≡ Ok after → after ≡ Signed t.actor }
{}

/// The carrier stays the carrier.
pub fn carrier_stays()
    ensures { (before : Title) (t : Transaction) (after : Title)
        → step_title (Some before) t ≡ Ok after → carrier after ≡ carrier before }
{}

/// On a title that stands, the possessor alone acts. Before the issue and while a surrender is asked for, that is the
/// carrier.
pub fn possessor_alone_acts()
    ensures { (before : Title) (t : Transaction) (after : Title)
        → step_title (Some before) t ≡ Ok after → t.actor ≡ possessor before }
{}

/// An ISSUE and a TRANSFER give possession to the recipient, a surrender to the carrier, its refusal to the asker
/// again. An ENDORSE and the acceptance of a surrender leave it.
pub fn possession_goes_by_the_kind()
    ensures { (before : Title) (t : Transaction) (after : Title)
        → step_title (Some before) t ≡ Ok after → GivesPossession t.kind t.recipient before after }
{}

/// An ISSUE and an ENDORSE give the title to the recipient, the acceptance of a surrender to the carrier. All other
/// kinds leave it.
pub fn title_goes_by_the_kind()
    ensures { (before : Title) (t : Transaction) (after : Title)
        → step_title (Some before) t ≡ Ok after → GivesTitle t.kind t.recipient before after }
{}

/// Of a live title only an ENDORSE changes the title holder, and it changes nothing else.
pub fn endorse_alone_changes_the_title_holder()
    ensures others { (c p h : Party) (t : Transaction) (after : Title)
        → step_title (Some (Live c p h)) t ≡ Ok after
        → t.kind ≢ Kind.Endorse → title_holder after ≡ h }
    ensures endorse { (c p h : Party) (t : Transaction) (after : Title)
        → step_title (Some (Live c p h)) t ≡ Ok after
        → t.kind ≡ Kind.Endorse → after ≡ Live c p (title_holder after) }
{}

/// A title that is ended refuses everything: a SIGN because a title stands, all else because it is ended.
pub fn ended_title_refuses_everything()
    ensures { (kind : Kind) (c : Party) (t : Transaction)
        → step_title (Some (Ended kind c)) t
        ≡ Err (if is_sign t.kind then FoldRefusal.F1 else FoldRefusal.F3) }
{}
