//! The step of a title.
ghost use Rattle.std.specs.Prelude.{◌≡◌, Some, None, Ok, Err, ok_or, is_none, if◌then◌else◌, IsTrue};
ghost use Rattle.ebl_base.specs.Party.{party_eq};
ghost use Rattle.title_fold.specs.Step.{step_title};
ghost use Rattle.title_fold.specs.Table.{is_surrender};
ghost use Rattle.title_fold.specs.declared.title.Title.TheVariants.{Signed, Live, Asked, Ended};

use crate::refusal::FoldRefusal;
use crate::title::Title;
use ebl_base::{Kind, Party, Transaction};

/// The title after a transaction, or the first rule that refuses it. Where no title stands, a SIGN alone is allowed.
pub fn apply(before: Option<Title>, t: &Transaction) -> Result<Title, FoldRefusal>
    ensures { result ≡ step_title before t.now }
{
    match before {
        None => on_none(t),
        Some(Title::Signed { carrier }) => on_signed(carrier, t),
        Some(
            Title::Live {
                carrier,
                possessor,
                holder,
            },
        ) => on_live(carrier, possessor, holder, t),
        Some(Title::Asked { kind, carrier, by }) => on_asked(kind, carrier, by, t),
        Some(Title::Ended { .. }) => on_ended(t),
    }
}

fn on_none(t: &Transaction) -> Result<Title, FoldRefusal>
    ensures { result ≡ step_title None t.now }
{
    if t.kind != Kind::Sign {
        return Err(FoldRefusal::F2);
    }
    without_recipient(t)?;
    Ok(Title::Signed { carrier: t.actor })
}

fn on_signed(carrier: Party, t: &Transaction) -> Result<Title, FoldRefusal>
    ensures { result ≡ step_title (Some (Signed carrier)) t.now }
{
    match t.kind {
        Kind::Sign => Err(FoldRefusal::F1),
        Kind::Issue => issue(carrier, t),
        _ => Err(FoldRefusal::F4),
    }
}

fn on_live(
    carrier: Party,
    possessor: Party,
    holder: Party,
    t: &Transaction,
) -> Result<Title, FoldRefusal>
    ensures { result ≡ step_title (Some (Live carrier possessor holder)) t.now }
{
    match t.kind {
        Kind::Sign => Err(FoldRefusal::F1),
        Kind::Endorse => endorse(carrier, possessor, holder, t),
        Kind::Transfer => transfer(carrier, possessor, holder, t),
        Kind::SurrenderForDelivery | Kind::SurrenderForAmendment => surrender(
            carrier, possessor, holder, t,
        ),
        _ => Err(FoldRefusal::F4),
    }
}

fn on_asked(kind: Kind, carrier: Party, by: Party, t: &Transaction) -> Result<Title, FoldRefusal>
    ensures { result ≡ step_title (Some (Asked kind carrier by)) t.now }
{
    match t.kind {
        Kind::Sign => Err(FoldRefusal::F1),
        Kind::SurrenderAccepted => accept(kind, carrier, t),
        Kind::SurrenderRefused => refuse(carrier, by, t),
        _ => Err(FoldRefusal::F4),
    }
}

fn on_ended(t: &Transaction) -> Result<Title, FoldRefusal>
    ensures { (kind : Kind) (carrier : Party) → result ≡ step_title (Some (Ended kind carrier)) t.now }
{
    if t.kind == Kind::Sign {
        Err(FoldRefusal::F1)
    } else {
        Err(FoldRefusal::F3)
    }
}

fn issue(carrier: Party, t: &Transaction) -> Result<Title, FoldRefusal>
    requires { t.now.kind ≡ Kind.Issue }
    ensures { result ≡ step_title (Some (Signed carrier)) t.now }
{
    let recipient = recipient_of(t)?;
    acts_as(carrier, FoldRefusal::F6, t)?;
    Ok(Title::Live {
        carrier,
        possessor: recipient,
        holder: recipient,
    })
}

fn endorse(
    carrier: Party,
    possessor: Party,
    holder: Party,
    t: &Transaction,
) -> Result<Title, FoldRefusal>
    requires { t.now.kind ≡ Kind.Endorse }
    ensures { result ≡ step_title (Some (Live carrier possessor holder)) t.now }
{
    let new_holder = recipient_of(t)?;
    acts_as(possessor, FoldRefusal::F7, t)?;
    acts_as(holder, FoldRefusal::F8, t)?;
    to_another(new_holder, t)?;
    Ok(Title::Live {
        carrier,
        possessor,
        holder: new_holder,
    })
}

fn transfer(
    carrier: Party,
    possessor: Party,
    holder: Party,
    t: &Transaction,
) -> Result<Title, FoldRefusal>
    requires { t.now.kind ≡ Kind.Transfer }
    ensures { result ≡ step_title (Some (Live carrier possessor holder)) t.now }
{
    let new_possessor = recipient_of(t)?;
    acts_as(possessor, FoldRefusal::F7, t)?;
    to_another(new_possessor, t)?;
    Ok(Title::Live {
        carrier,
        possessor: new_possessor,
        holder,
    })
}

// A surrender for delivery or for amendment.
fn surrender(
    carrier: Party,
    possessor: Party,
    holder: Party,
    t: &Transaction,
) -> Result<Title, FoldRefusal>
    requires { IsTrue (is_surrender t.now.kind) }
    ensures { result ≡ step_title (Some (Live carrier possessor holder)) t.now }
{
    without_recipient(t)?;
    acts_as(possessor, FoldRefusal::F7, t)?;
    acts_as(holder, FoldRefusal::F8, t)?;
    Ok(Title::Asked {
        kind: t.kind,
        carrier,
        by: t.actor,
    })
}

fn accept(kind: Kind, carrier: Party, t: &Transaction) -> Result<Title, FoldRefusal>
    requires { t.now.kind ≡ Kind.SurrenderAccepted }
    ensures { (by : Party) → result ≡ step_title (Some (Asked kind carrier by)) t.now }
{
    without_recipient(t)?;
    acts_as(carrier, FoldRefusal::F6, t)?;
    Ok(Title::Ended { kind, carrier })
}

fn refuse(carrier: Party, by: Party, t: &Transaction) -> Result<Title, FoldRefusal>
    requires { t.now.kind ≡ Kind.SurrenderRefused }
    ensures { (kind : Kind) → result ≡ step_title (Some (Asked kind carrier by)) t.now }
{
    without_recipient(t)?;
    acts_as(carrier, FoldRefusal::F6, t)?;
    Ok(Title::Live {
        carrier,
        possessor: by,
        holder: by,
    })
}

// The recipient of a kind that needs one.
fn recipient_of(t: &Transaction) -> Result<Party, FoldRefusal>
    ensures { result ≡ ok_or t.now.recipient FoldRefusal.F5 }
{
    t.recipient.ok_or(FoldRefusal::F5)
}

// A kind that has no recipient.
fn without_recipient(t: &Transaction) -> Result<(), FoldRefusal>
    ensures { result ≡ (if is_none t.now.recipient then Ok tt else Err FoldRefusal.F5) }
{
    match t.recipient {
        None => Ok(()),
        Some(_) => Err(FoldRefusal::F5),
    }
}

// The actor is this party, else the rule refuses.
fn acts_as(party: Party, rule: FoldRefusal, t: &Transaction) -> Result<(), FoldRefusal>
    ensures { result ≡ (if party_eq t.now.actor party then Ok tt else Err rule) }
{
    if t.actor == party { Ok(()) } else { Err(rule) }
}

// What is handed on goes to another than the actor.
fn to_another(recipient: Party, t: &Transaction) -> Result<(), FoldRefusal>
    ensures { result ≡ (if party_eq recipient t.now.actor then Err FoldRefusal.F9 else Ok tt) }
{
    if recipient == t.actor {
        Err(FoldRefusal::F9)
    } else {
        Ok(())
    }
}
