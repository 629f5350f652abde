//! Why texts are no good chain.

use chain_entry::EntryField;
use ebl_base::NoMemory;
use signed_envelope::BadSigned;
use title_fold::FoldRefusal;

/// Why texts aren't taken as a good chain. Places count from 0.
///
/// All texts are looked at before any entry is compared with those before it; of each, the first that is wrong is
/// named, with the first cause that applies in this order.
#[derive(Clone, Copy, Debug, PartialEq, Eq)]
pub enum ChainRefusal {
    /// There is no text.
    Empty,
    /// There are more than 64 texts. No signature was looked at.
    TooLong,
    /// This text isn't signed by a platform, within 16,384 bytes.
    BadSignature(usize, BadSigned),
    /// The payload of this text is no entry: this is the first wrong member.
    EntryForm(usize, EntryField),
    /// This entry is of another platform than the one that signed it.
    WrongSigner(usize),
    /// This entry doesn't name the one before it; or it is the first and names one.
    BrokenLink(usize),
    /// This entry is of another bill than the document's.
    WrongBill(usize),
    /// The first transaction of all isn't by the roster's carrier of the document.
    Carrier,
    /// This entry isn't of the platform that has possession then; the first, not of its first actor's platform.
    WrongPlatform(usize),
    /// In this entry, the transaction at this place is refused by this rule.
    Fold(usize, usize, FoldRefusal),
    /// In this entry, a transaction but the last moves possession to another platform, or the last doesn't.
    Move(usize),
    /// Memory ran out.
    NoMemory,
}

impl From<NoMemory> for ChainRefusal {
    ghost use Rattle.std.specs.Prelude.{◌≡◌};
    ghost use Rattle.transfer_chain.specs.declared.fault.ChainRefusal.TheVariants as refusals;

    ghost from_gives = { λ _ refusal. refusal ≡ refusals.NoMemory };

    fn from(_: NoMemory) -> ChainRefusal {
        ChainRefusal::NoMemory
    }
}
