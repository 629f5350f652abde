//! Disputes: where the chain that is known here and the one that was shown part. Nothing is copied but the evidence.
ghost use Rattle.std.specs.Prelude.{◌≡◌, ◌∷◌, [], ◌++◌, IfOk, Some, None, if◌then◌else◌, option_copied, option_map};
ghost use Rattle.bill_chain.specs.Chain.{common_front, goes_beyond};
ghost use Rattle.title_register.specs.PlaceRef.{place_view};
ghost use Rattle.transfer_judge.specs.Dispute.{dispute_of, evidence_of, text_at};

use bill_chain::{common_front, goes_beyond, last_link};
use ebl_base::{Chain, ChainLink, Copied, Evidence, NoMemory, SignedText};
use std::alloc::Global;
use title_register::PlaceRef;

/// What disputes a chain that was shown: nothing where it continues the place.
pub(crate) fn dispute(
    alloc: Global,
    place: PlaceRef<'_>,
    shown: &Chain,
) -> Result<Option<Evidence>, NoMemory>
    ensures { IfOk result (λ evidence. evidence ≡ dispute_of (place_view place.entry) shown.now) }
{
    match place {
        PlaceRef::Absent => Ok(None),
        PlaceRef::Held { known, .. } => Ok(Some(evidence_of(alloc, known, shown)?)),
        PlaceRef::Parting { known, entry } => unless_beyond_both(alloc, known, entry, shown),
        PlaceRef::Gone { known } => evidence_unless_beyond(alloc, known, shown),
    }
}

// The evidence of a dispute, unless the chain that was shown goes on beyond the own one.
fn evidence_unless_beyond(
    alloc: Global,
    own: &Chain,
    shown: &Chain,
) -> Result<Option<Evidence>, NoMemory>
    ensures { IfOk result (λ evidence. evidence
        ≡ (if goes_beyond own.now shown.now then None else Some (evidence_of own.now shown.now))) }
{
    if goes_beyond(own.as_slice(), shown.as_slice()) {
        return Ok(None);
    }
    Ok(Some(evidence_of(alloc, own, shown)?))
}

// The evidence of a dispute: of each chain the text at the first index at which their names differ or one of them ends.
fn evidence_of(alloc: Global, own: &Chain, shown: &Chain) -> Result<Evidence, NoMemory>
    ensures { IfOk result (λ evidence. evidence ≡ evidence_of own.now shown.now) }
{
    let index = common_front(own.as_slice(), shown.as_slice());
    let own = text_at(alloc, index, own.as_slice())?;
    let theirs = text_at(alloc, index, shown.as_slice())?;
    Ok(Evidence { own, theirs })
}

// The text of a chain's entry at an index, or of the last one where there is none; none where the chain is empty.
fn text_at(alloc: Global, index: usize, chain: &[ChainLink]) -> Result<Option<SignedText>, NoMemory>
    ensures { IfOk result (λ text. text ≡ text_at index chain.now) }
{
    match link_at(index, chain) {
        Some(link) => Ok(Some(link.text.copy(alloc)?)),
        None => Ok(None),
    }
}

fn link_at(index: usize, chain: &[ChainLink]) -> Option<&ChainLink>
    ensures { option_map (λ link. link.text) (option_copied result) ≡ text_at index chain.now }
{
    match chain.get(index) {
        Some(link) => Some(link),
        None => last_link(chain),
    }
}

// ---- the known chain and the entry that is parting, by reference

// The evidence, unless the chain that was shown goes on beyond the known one and the entry that is parting.
fn unless_beyond_both(
    alloc: Global,
    known: &Chain,
    entry: &ChainLink,
    shown: &Chain,
) -> Result<Option<Evidence>, NoMemory>
    ensures { let own = known.now ++ entry.now ∷ [] in IfOk result (λ evidence. evidence
        ≡ (if goes_beyond own shown.now then None else Some (evidence_of own shown.now))) }
{
    let known = known.as_slice();
    let shown = shown.as_slice();
    if goes_beyond_both(known, entry, shown) {
        return Ok(None);
    }
    Ok(Some(evidence_of_both(alloc, known, entry, shown)?))
}

fn goes_beyond_both(known: &[ChainLink], entry: &ChainLink, shown: &[ChainLink]) -> bool
    ensures { result ≡ goes_beyond (known.now ++ entry.now ∷ []) shown.now }
{
    let front = front_with(known, entry, shown);
    front > known.len() && front < shown.len()
}

fn evidence_of_both(
    alloc: Global,
    known: &[ChainLink],
    entry: &ChainLink,
    shown: &[ChainLink],
) -> Result<Evidence, NoMemory>
    ensures { IfOk result (λ evidence. evidence ≡ evidence_of (known.now ++ entry.now ∷ []) shown.now) }
{
    let index = front_with(known, entry, shown);
    let own = Some(own_link_at(index, known, entry).text.copy(alloc)?);
    let theirs = text_at(alloc, index, shown)?;
    Ok(Evidence { own, theirs })
}

// How many entries a chain that was shown has in common with the known one and the entry that is parting.
fn front_with(known: &[ChainLink], entry: &ChainLink, shown: &[ChainLink]) -> usize
    ensures { result ≡ common_front (known.now ++ entry.now ∷ []) shown.now }
{
    let front = common_front(known, shown);
    if front == known.len() && front < shown.len() && entry.name == shown[front].name {
        front + 1
    } else {
        front
    }
}

// The known chain's entry at an index, or else the one that is parting.
fn own_link_at<'a>(index: usize, known: &'a [ChainLink], entry: &'a ChainLink) -> &'a ChainLink
    ensures { Some result.now.text ≡ text_at index (known.now ++ entry.now ∷ []) }
{
    match known.get(index) {
        Some(link) => link,
        None => entry,
    }
}
