//! Which texts are a good chain.
ghost use Rattle.std.specs.Prelude.{IfOk, IfErr, IsSome};
ghost use Rattle.bill_chain.specs.Chain.{last_of};
ghost use Rattle.transfer_chain.specs.Checked.{IsChecked, texts_of};
ghost use Rattle.transfer_chain.specs.GoodChain.{AreLinks, IsGoodChain};
ghost use Rattle.transfer_chain.specs.Refusal.{IsRefused};

use crate::fault::ChainRefusal;
use crate::replay::pass;
use crate::verify_texts::links_of;
use ebl_base::{Chain, ChainLink, MAX_CHAIN_ENTRIES, SignedText, TextList};
use party_roster::Roster;
use signed_envelope::KeyRing;
use std::alloc::Global;
use transport_document::Document;

/// The good chain that the texts are for the document's bill: 1 to 64 entries, each signed by its platform, of that
/// bill and after the one before it; the transactions of all begin with the roster's carrier of the document and fold;
/// each entry is of the platform that has possession then, and its last transaction alone moves possession to another.
///
/// The first [`ChainRefusal`] that applies is answered. Each signature is verified once, each text named and read once,
/// each transaction folded once.
pub fn check<G: KeyRing>(
    alloc: Global,
    roster: &Roster,
    ring: &G,
    document: &Document,
    texts: &TextList,
) -> Result<Chain, ChainRefusal>
    ensures ok { IfOk result (IsGoodChain roster.now (G.keys ring.now) document.now texts.now) }
    ensures checked { IfOk result IsChecked }
    ensures last { IfOk result (λ chain. IsSome (last_of chain)) }
    ensures err { IfErr result (IsRefused roster.now (G.keys ring.now) document.now texts.now) }
{
    check_texts(alloc, roster, ring, document, &[], texts.as_slice())
}

/// As [`check`](crate::check), where a chain is known whose links are those of its texts under the same keys, as that
/// of an earlier check is, of whatever roster and document. A text that is that of the known chain at its place, byte
/// for byte, isn't verified, named or read again; each transaction of all is folded again.
pub fn check_from<G: KeyRing>(
    alloc: Global,
    roster: &Roster,
    ring: &G,
    document: &Document,
    known: &Chain,
    texts: &TextList,
) -> Result<Chain, ChainRefusal>
    requires { AreLinks (G.keys ring.now) (texts_of known.now) known.now }
    ensures ok { IfOk result (IsGoodChain roster.now (G.keys ring.now) document.now texts.now) }
    ensures checked { IfOk result IsChecked }
    ensures last { IfOk result (λ chain. IsSome (last_of chain)) }
    ensures err { IfErr result (IsRefused roster.now (G.keys ring.now) document.now texts.now) }
{
    check_texts(
        alloc,
        roster,
        ring,
        document,
        known.as_slice(),
        texts.as_slice(),
    )
}

fn check_texts<G: KeyRing>(
    alloc: Global,
    roster: &Roster,
    ring: &G,
    document: &Document,
    known: &[ChainLink],
    texts: &[SignedText],
) -> Result<Chain, ChainRefusal>
    requires { AreLinks (G.keys ring.now) (texts_of known.now) known.now }
    ensures ok { IfOk result (IsGoodChain roster.now (G.keys ring.now) document.now texts.now) }
    ensures checked { IfOk result IsChecked }
    ensures last { IfOk result (λ chain. IsSome (last_of chain)) }
    ensures err { IfErr result (IsRefused roster.now (G.keys ring.now) document.now texts.now) }
{
    if texts.is_empty() {
        return Err(ChainRefusal::Empty);
    }
    if texts.len() > MAX_CHAIN_ENTRIES {
        return Err(ChainRefusal::TooLong);
    }
    let links = match links_of(alloc, ring, known, texts) {
        Ok(links) => links,
        Err(refusal) => return Err(refusal),
    };
    let carrier = roster.carrier(document.provider(), document.code());
    match pass(carrier, document.bill(), links.as_slice()) {
        Ok(_) => {
            let chain = Chain::from_vec(alloc, links)?;
            Ok(chain)
        }
        Err(refusal) => Err(refusal),
    }
}
