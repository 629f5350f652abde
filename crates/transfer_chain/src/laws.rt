//! What holds of every good chain. The functions do nothing: their contracts are the laws.
ghost use Rattle.std.specs.Prelude.{◌≡◌, ◌≢◌, ◌≤◌, List, [], ◌∷◌, ◌++◌, Some, Ok, length};
ghost use Rattle.canonical_json.specs.Value.{Value};
ghost use Rattle.chain_entry.specs.Reading.{entry_of};
ghost use Rattle.ebl_base.specs.declared.chain.ChainLink.{ChainLink};
ghost use Rattle.ebl_base.specs.declared.signed_text.SignedText.{SignedText};
ghost use Rattle.party_roster.specs.RosterRecord.{RosterRecord};
ghost use Rattle.signed_envelope.specs.KeyRing.{Keys};
ghost use Rattle.signed_envelope.specs.SignedText.{IsSigned};
ghost use Rattle.bill_chain.specs.Chain.{FollowEachOther, destination, last_name, names_of};
ghost use Rattle.transport_document.specs.DocumentRecord.{DocumentRecord, bill_of};
ghost use Rattle.transfer_chain.specs.Checked.{IsChecked, texts_of};
ghost use Rattle.transfer_chain.specs.GoodChain.{AreLinks, HaveDistinctNames, HaveOwnNames, IsGoodChain};
ghost use Rattle.transfer_chain.specs.Meeting.{Meet};
ghost use Rattle.transfer_chain.specs.Refusal.{IsRefused};
ghost use Rattle.transfer_chain.specs.declared.fault.ChainRefusal.TheVariants.{NoMemory};

use crate::compare::Meeting;
use crate::fault::ChainRefusal;
use ebl_base::{MAX_CHAIN_ENTRIES, MAX_SIGNED_TEXT};

/// A front of a good chain is a good chain of its texts, if it has an entry.
pub fn front_of_good_chain_is_good()
    ensures { (roster : RosterRecord) (keys : Keys) (document : DocumentRecord) (texts : List SignedText)
        (front rest : List ChainLink) → IsGoodChain roster keys document texts (front ++ rest)
        → 1 ≤ length front → IsGoodChain roster keys document (texts_of front) front }
{}

/// The links of a good chain are those of its own texts: so [`check_from`](crate::check_from) may know it.
pub fn good_chain_has_its_links()
    ensures { (roster : RosterRecord) (keys : Keys) (document : DocumentRecord) (texts : List SignedText)
        (chain : List ChainLink) → IsGoodChain roster keys document texts chain → AreLinks keys (texts_of chain) chain }
{}

/// A good chain goes on as a good chain if and only if the links behind it are those of the texts behind its texts,
/// each may follow those before it, and there are 64 texts at most.
pub fn good_chain_goes_on()
    ensures good { (roster : RosterRecord) (keys : Keys) (document : DocumentRecord) (texts more : List SignedText)
        (front rest : List ChainLink) → IsGoodChain roster keys document texts front → AreLinks keys more rest
        → FollowEachOther (bill_of document) front rest → length (texts ++ more) ≤ MAX_CHAIN_ENTRIES
        → IsGoodChain roster keys document (texts ++ more) (front ++ rest) }
    ensures behind { (roster : RosterRecord) (keys : Keys) (document : DocumentRecord) (texts more : List SignedText)
        (front rest : List ChainLink) → IsGoodChain roster keys document texts front
        → IsGoodChain roster keys document (texts ++ more) (front ++ rest)
        → AreLinks keys more rest × FollowEachOther (bill_of document) front rest }
{}

/// A good chain is checked: it has a destination.
pub fn good_chain_is_checked()
    ensures { (roster : RosterRecord) (keys : Keys) (document : DocumentRecord) (texts : List SignedText)
        (chain : List ChainLink) → IsGoodChain roster keys document texts chain → IsChecked chain }
{}

/// Each entry of a good chain is signed by its platform, moves possession to another, and the next entry names it and
/// is of that other platform.
pub fn entries_of_good_chain_hand_over()
    ensures signed { (roster : RosterRecord) (keys : Keys) (document : DocumentRecord) (texts : List SignedText)
        (front : List ChainLink) (a : ChainLink) (rest : List ChainLink)
        → IsGoodChain roster keys document texts (front ++ a ∷ rest)
        → (value : Value) × IsSigned keys MAX_SIGNED_TEXT a.text.0 a.entry.platform value
        × (entry_of value ≡ Ok a.entry) }
    ensures moves { (roster : RosterRecord) (keys : Keys) (document : DocumentRecord) (texts : List SignedText)
        (front : List ChainLink) (a : ChainLink) (rest : List ChainLink)
        → IsGoodChain roster keys document texts (front ++ a ∷ rest)
        → destination (front ++ a ∷ []) ≢ Some a.entry.platform }
    ensures names { (roster : RosterRecord) (keys : Keys) (document : DocumentRecord) (texts : List SignedText)
        (front : List ChainLink) (a b : ChainLink) (rest : List ChainLink)
        → IsGoodChain roster keys document texts (front ++ a ∷ b ∷ rest)
        → b.entry.previous ≡ Some a.name }
    ensures receives { (roster : RosterRecord) (keys : Keys) (document : DocumentRecord) (texts : List SignedText)
        (front : List ChainLink) (a b : ChainLink) (rest : List ChainLink)
        → IsGoodChain roster keys document texts (front ++ a ∷ b ∷ rest)
        → destination (front ++ a ∷ []) ≡ Some b.entry.platform }
{}

/// Texts that are refused, except out of memory, are no good chain; and texts are one good chain at most.
pub fn refused_texts_are_no_good_chain()
    ensures refused { (roster : RosterRecord) (keys : Keys) (document : DocumentRecord) (texts : List SignedText)
        (chain : List ChainLink) (refusal : ChainRefusal) → IsRefused roster keys document texts refusal
        → refusal ≢ NoMemory → IsGoodChain roster keys document texts chain → ⊥ }
    ensures one { (roster : RosterRecord) (keys : Keys) (document : DocumentRecord) (texts : List SignedText)
        (a b : List ChainLink) → IsGoodChain roster keys document texts a → IsGoodChain roster keys document texts b
        → a ≡ b }
{}

/// Texts have one refusal at most, except out of memory: so each refusal of [`check`](crate::check) comes if and
/// only if it is the first that applies.
pub fn refused_texts_have_one_refusal()
    ensures { (roster : RosterRecord) (keys : Keys) (document : DocumentRecord) (texts : List SignedText)
        (one other : ChainRefusal) → IsRefused roster keys document texts one
        → IsRefused roster keys document texts other → one ≢ NoMemory → other ≢ NoMemory → one ≡ other }
{}

/// Where no two different texts have one name, the name of the last entry fixes a whole good chain, whatever the bills
/// and the rosters are.
pub fn last_name_determines_the_chain()
    ensures { (roster other : RosterRecord) (keys : Keys) (document another : DocumentRecord)
        (texts more : List SignedText) (a b : List ChainLink) → IsGoodChain roster keys document texts a
        → IsGoodChain other keys another more b → HaveDistinctNames (texts ++ more)
        → last_name a ≡ last_name b → a ≡ b }
{}

/// Where no two different texts have one name, two chains meet by their texts as they meet by their names.
pub fn chains_meet_as_their_texts_do()
    ensures { (a b : List ChainLink) (meeting : Meeting) → HaveOwnNames a → HaveOwnNames b
        → HaveDistinctNames (texts_of a ++ texts_of b) → Meet (names_of a) (names_of b) meeting
        → Meet (texts_of a) (texts_of b) meeting }
{}
