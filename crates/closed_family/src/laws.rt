//! Laws of sound histories and of closed families. Each function does nothing: its contract is the law.

ghost use Rattle.std.specs.Prelude.{◌≡◌, true, false, List, [], ◌∷◌, ◌++◌, Some};
ghost use Rattle.bill_diary.specs.declared.record.Record.{Record};
ghost use Rattle.bill_diary.specs.declared.record.Record.TheVariants.{Parted};
ghost use Rattle.bill_diary.specs.Known.{known};
ghost use Rattle.bill_diary.specs.Place.{place_of, title_at, is_ended, is_regained, may_act_by};
ghost use Rattle.bill_diary.specs.Receiving.{is_taken, is_declined, continues};
ghost use Rattle.bill_diary.specs.declared.bill_place.BillPlace.TheVariants.{Held};
ghost use Rattle.bill_chain.specs.Chain.{last_of, destination, IsChainOfBill};
ghost use Rattle.bill_diary.specs.Sound.{IsSoundHistory};
ghost use Rattle.closed_family.specs.Chains.{NamesDetermineLinks};
ghost use Rattle.closed_family.specs.Histories.{PartedOn, WasAccepted, is_signed, links_of, ExtendsKnown};
ghost use Rattle.closed_family.specs.Closed.{EveryEntryWasParted, Histories};
ghost use Rattle.closed_family.specs.Longest.{HaveAllRecords, longest_accepted, longest_in};
ghost use Rattle.closed_family.specs.Safe.{IsLine};
ghost use Rattle.closed_family.specs.Lacking.{lacking};
ghost use Rattle.closed_family.specs.Later.{IsLaterThan, IsEndedAt};
ghost use Rattle.closed_family.specs.Family.{histories_of, IsSignedIn, IsSoundFamily, IsClosedFamily};
ghost use Rattle.closed_family.specs.Family.{HasDistinctNames, IsSafeFamily};

use crate::family::Member;
use ebl_base::{ChainLink, Checksum, Party, PlatformCode, SignedText, Transaction};
use envelope_manifest::Manifest;

/// Through a sound history of a bill, where links that have one name are one, the known chain only grows: whatever
/// records stand after it, a chain is known that begins with it.
pub fn known_chain_stays_a_prefix()
    ensures { (me : PlatformCode) (more h : List Record) (K : List ChainLink)
        → IsSoundHistory me (more ++ h) → NamesDetermineLinks (links_of (more ++ h))
        → known h ≡ Some K → ExtendsKnown K (more ++ h) }
{}

/// Of two entries that a platform parted on one known chain, the earlier was regained before the later one was parted.
pub fn earlier_parted_entry_was_regained()
    ensures { (me : PlatformCode) (bill : Checksum) (link : ChainLink) (manifest : Manifest) (text : SignedText)
        → (h : List Record) (K : List ChainLink) (e : ChainLink)
        → IsSoundHistory me (Parted bill link manifest text ∷ h)
        → NamesDetermineLinks (links_of (Parted bill link manifest text ∷ h))
        → known h ≡ Some K → PartedOn K e h
        → is_regained e.name h ≡ true }
{}

/// The chain on which a platform parts with a bill was accepted there before: it is the empty one of a bill that was
/// signed there, or one that was taken there.
pub fn parted_chain_was_accepted_before()
    ensures { (me : PlatformCode) (bill : Checksum) (link : ChainLink) (manifest : Manifest) (text : SignedText)
        → (h : List Record) (K : List ChainLink)
        → IsSoundHistory me (Parted bill link manifest text ∷ h)
        → NamesDetermineLinks (links_of (Parted bill link manifest text ∷ h))
        → known h ≡ Some K → WasAccepted K h }
{}

/// A bill that a platform holds, and whose title is ended, stays so whatever stands after it in a sound history: it is
/// held there, by the same chain, with the same transactions.
pub fn ended_bill_stays()
    ensures { (me : PlatformCode) (more h : List Record) (K : List ChainLink) (made : List Transaction)
        → IsSoundHistory me (more ++ h) → NamesDetermineLinks (links_of (more ++ h))
        → place_of h ≡ Held K made → is_ended (title_at (Held K made)) ≡ true
        → place_of (more ++ h) ≡ Held K made }
{}

/// Every sound and closed family whose texts have distinct names is safe, in whatever order things happened on two
/// platforms. For each bill that was signed: of two accepted chains one is a prefix of the other; at the end of the
/// longest the bill is held or parting by that whole chain, and it is held nowhere else; nobody may act elsewhere;
/// folding that chain, with what its end recorded since, names possessor and title holder. Whatever bills the records
/// name, each entry is taken at most once in all diaries, and no diary has one both taken and declined.
pub fn closed_family_is_safe()
    ensures { (family : List Member)
        → IsSoundFamily family → IsClosedFamily family → HasDistinctNames family
        → IsSafeFamily family }
{}

/// A bill that is ended at a platform, after an accepted surrender, stays so in every later family.
pub fn ended_bill_stays_in_later_families()
    ensures { (before after : List Member)
        → IsSoundFamily after → IsClosedFamily after → HasDistinctNames after
        → IsLaterThan before after
        → (bill : Checksum) (p : PlatformCode) (carrier : Party)
        → IsEndedAt (place_of (histories_of bill before p)) carrier
        → IsEndedAt (place_of (histories_of bill after p)) carrier }
{}

/// Where a bill is ended, that is its carrier's platform, and nobody may act on the bill there or anywhere.
pub fn nobody_acts_on_an_ended_bill()
    ensures carrier { (family : List Member)
        → IsSoundFamily family → IsClosedFamily family → HasDistinctNames family
        → (bill : Checksum) → IsSignedIn family bill
        → (p : PlatformCode) (carrier : Party)
        → IsEndedAt (place_of (histories_of bill family p)) carrier
        → carrier.platform ≡ p }
    ensures nobody { (family : List Member)
        → IsSoundFamily family → IsClosedFamily family → HasDistinctNames family
        → (bill : Checksum) → IsSignedIn family bill
        → (p : PlatformCode) (carrier : Party)
        → IsEndedAt (place_of (histories_of bill family p)) carrier
        → (q : PlatformCode) → may_act_by (histories_of bill family q) ≡ false }
{}

/// In such a family, a good chain of a bill each of whose links was parted on its platform continues the place of the
/// bill where it ends, unless its last entry was taken or declined there: so it is never disputed.
pub fn grounded_chain_continues_the_place()
    ensures { (family : List Member)
        → IsSoundFamily family → IsClosedFamily family → HasDistinctNames family
        → (bill : Checksum) (chain : List ChainLink) (last : ChainLink) (to : PlatformCode)
        → IsChainOfBill bill chain → EveryEntryWasParted (histories_of bill family) chain
        → last_of chain ≡ Some last → destination chain ≡ Some to
        → is_taken last.name (histories_of bill family to) ≡ false
        → is_declined last.name (histories_of bill family to) ≡ false
        → continues (place_of (histories_of bill family to)) chain ≡ true }
{}

/// A sound family lacks nothing if and only if it is closed.
pub fn closed_family_lacks_nothing()
    ensures closed { (family : List Member) → lacking family ≡ [] → IsClosedFamily family }
    ensures complete { (family : List Member)
        → IsSoundFamily family → IsClosedFamily family → lacking family ≡ [] }
{}

/// The longest accepted chain of a bill that was signed, of equally long ones the first by the platforms and on each by
/// its records, is its line: no accepted chain is longer. The platforms are all that have a record of the bill.
pub fn longest_accepted_chain_is_the_line()
    ensures { (at : Histories) (platforms : List PlatformCode) (p : PlatformCode)
        → HaveAllRecords at platforms → is_signed (at p) ≡ true → IsLine at (longest_accepted at platforms) }
{}

/// In a safe family the longest accepted chain of a bill is the one line, and the known chain where it ends.
pub fn line_of_a_safe_bill_is_known_at_its_end()
    ensures line { (family : List Member) (bill : Checksum) (safe : IsSafeFamily family)
        (signed : IsSignedIn family bill) → (safe.bills bill signed).line ≡ longest_in family bill }
    ensures known { (family : List Member) (bill : Checksum) (safe : IsSafeFamily family)
        (signed : IsSignedIn family bill)
        → known (histories_of bill family (safe.bills bill signed).end) ≡ Some (longest_in family bill) }
{}
