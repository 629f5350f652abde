//! Cases of a plan that look at no diary: they go by what was found of the bill.
ghost use Rattle.std.specs.Prelude.{◌≡◌, ◌+◌, ◌≤◌, IfOk, IfErr, Ok, length, nat_le};
ghost use Rattle.ebl_base.specs.declared.limits.TheConstants.{MAX_DOCUMENT_SIZE, MAX_DOCUMENTS_SIZE};
ghost use Rattle.envelope_manifest.specs.Manifest.{total_size};
ghost use Rattle.bill_chain.specs.Chain.{last_name};
ghost use Rattle.bill_diary.specs.Pieces.{lists};
ghost use Rattle.bill_diary.specs.Sound.{most_with};
ghost use Rattle.transfer_judge.specs.Plan.{IsRefusal, attach_refusal, is_unknown, missing_party, party_if, plan_bytes, plan_stay};

use crate::planned::{PlanRefusal, Planned};
use bill_chain::last_link;
use bill_diary::Record;
use document_checksum::checksum;
use ebl_base::{
    ByteList, Chain, CharList, Checksum, Copied, Kind, LimitKind, MAX_DOCUMENT_SIZE, MAX_DOCUMENTS,
    MAX_DOCUMENTS_SIZE, MAX_ENTRY_TRANSACTIONS, Party, PlatformCode, Transaction, TransactionList,
};
use envelope_manifest::Piece;
use party_roster::Roster;
use std::alloc::Global;
use title_fold::{FoldRefusal, Title, possessor};

// ---- a transaction

/// The party to which nothing can go, by the title before: the recipient, where it is unknown; where a surrender that
/// was asked for is refused, the asker, whose platform isn't listed.
///
/// A recipient is unknown where its platform isn't listed, or is `me` and the roster doesn't know the party.
pub(crate) fn missing_party(
    roster: &Roster,
    me: PlatformCode,
    before: Option<Title>,
    kind: Kind,
    recipient: Option<Party>,
) -> Option<Party>
    ensures { result ≡ missing_party roster.now me before kind recipient }
{
    match (before, kind, recipient) {
        (_, _, Some(recipient)) => party_if(is_unknown(roster, me, recipient), recipient),
        (Some(Title::Asked { by, .. }), Kind::SurrenderRefused, None) => {
            party_if(!roster.has_platform(by.platform), by)
        }
        _ => None,
    }
}

fn party_if(so: bool, party: Party) -> Option<Party>
    ensures { result ≡ party_if so party }
{
    if so { Some(party) } else { None }
}

fn is_unknown(roster: &Roster, me: PlatformCode, party: Party) -> bool
    ensures { result ≡ is_unknown roster.now me party }
{
    !roster.has_platform(party.platform) || (party.platform == me && !roster.knows(party))
}

/// The name of a chain's last entry, which the next entry is to name; none where the chain is empty.
pub fn last_name(known: &Chain) -> Option<Checksum>
    ensures { result ≡ last_name known.now }
{
    match last_link(known.as_slice()) {
        Some(link) => Some(link.name),
        None => None,
    }
}

/// What a transaction comes to that leaves possession here: an Acted, where there is room for what has to follow.
pub(crate) fn plan_stay(
    bill: Checksum,
    since: &TransactionList,
    t: Transaction,
) -> Result<Planned, PlanRefusal>
    ensures ok { IfOk result (λ planned. plan_stay bill since.now t ≡ Ok planned) }
    ensures err { IfErr result (IsRefusal (plan_stay bill since.now t)) }
{
    if since.len() >= most_with(t.kind) {
        return Err(PlanRefusal::Limit(LimitKind::Transactions));
    }
    Ok(Planned::Add(Record::Acted {
        bill,
        transaction: t,
    }))
}

/// How many transactions may be made since the known chain, with one of this kind that stays: a place is left for what
/// has to follow, an answer to a surrender that is asked for and a move.
pub fn most_with(kind: Kind) -> usize
    ensures { result ≡ most_with kind }
{
    match kind {
        Kind::SurrenderAccepted => MAX_ENTRY_TRANSACTIONS,
        Kind::SurrenderForDelivery | Kind::SurrenderForAmendment => MAX_ENTRY_TRANSACTIONS - 2,
        _ => MAX_ENTRY_TRANSACTIONS - 1,
    }
}

// ---- an attachment

/// The rule that refuses an attachment by this party: the title is ended, or the party isn't the possessor.
pub(crate) fn attach_refusal(title: Option<Title>, party: Party) -> Option<FoldRefusal>
    ensures { result ≡ attach_refusal title party }
{
    match title {
        Some(Title::Ended { .. }) => Some(FoldRefusal::F3),
        Some(title) => if possessor(title) == party {
            None
        } else {
            Some(FoldRefusal::F7)
        },
        None => Some(FoldRefusal::F7),
    }
}

/// What an attachment comes to at a bill with these documents: nothing where its bytes are listed already, and else an
/// Attached, where the documents are at most 16 with it, of at most 4,194,304 bytes together.
///
/// The bytes are hashed once, and copied where they are added.
pub(crate) fn plan_bytes(
    alloc: Global,
    bill: Checksum,
    pieces: &[Piece],
    name: &CharList,
    media: &CharList,
    bytes: &ByteList,
) -> Result<Planned, PlanRefusal>
    requires { length bytes.now ≤ MAX_DOCUMENT_SIZE }
    ensures ok { IfOk result (λ planned.
        plan_bytes bill pieces.now name.now media.now bytes.now ≡ Ok planned) }
    ensures err { IfErr result (IsRefusal (plan_bytes bill pieces.now name.now media.now bytes.now)) }
{
    let checksum = checksum(bytes.as_slice());
    if lists(pieces, checksum) {
        return Ok(Planned::Nothing);
    }
    if pieces.len() >= MAX_DOCUMENTS {
        return Err(PlanRefusal::Limit(LimitKind::Documents));
    }
    let size = bytes.len() as u32;
    if !fits_beside(pieces, size) {
        return Err(PlanRefusal::Limit(LimitKind::DocumentBytes));
    }
    Ok(Planned::Add(Record::Attached {
        bill,
        piece: Piece {
            name: name.copy(alloc)?,
            media: media.copy(alloc)?,
            size,
            checksum,
        },
        bytes: bytes.copy(alloc)?,
    }))
}

/// Whether a document with this checksum is among some that are listed.
pub fn lists(pieces: &[Piece], checksum: Checksum) -> bool
    ensures { result ≡ lists pieces.now checksum }
{
    pieces.iter().any(|piece| piece.checksum == checksum)
}

/// Whether a document of this size fits beside others, within 4,194,304 bytes together.
pub fn fits_beside(pieces: &[Piece], size: u32) -> bool
    requires { size ≤ MAX_DOCUMENT_SIZE }
    ensures { result ≡ nat_le (total_size pieces.now + size) MAX_DOCUMENTS_SIZE }
{
    let mut room = MAX_DOCUMENTS_SIZE - size;
    for piece in pieces {
        if room < piece.size {
            return false;
        }
        room -= piece.size;
    }
    true
}
