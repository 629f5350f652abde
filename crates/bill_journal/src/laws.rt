//! What follows from the definitions alone, for the crates above.
ghost use Rattle.std.specs.Prelude.{◌≡◌, ◌⊎◌, ◌+◌, ◌++◌, ◌∷◌, [], List, length, ℕ};
ghost use Rattle.bill_journal.specs.Frames.{StandsAt, StandsFor, IsDamagedAt, front_of};
ghost use Rattle.bill_journal.specs.Journal.{IsSettled, MayHave, WithOrWithout};

use disk_model::Disk;

/// Bytes are a journal of one list of contents at most.
pub fn bytes_stand_for_one_list()
    ensures { (file : List ℕ) (h k : List (List ℕ)) → StandsFor file h → StandsFor file k → h ≡ k }
{}

/// Bytes that are a journal are damaged nowhere.
pub fn no_journal_is_damaged()
    ensures { (file : List ℕ) (h : List (List ℕ)) (place : ℕ) → StandsFor file h → IsDamagedAt file place → ⊥ }
{}

/// Bytes are damaged at one place at most.
pub fn damage_has_one_place()
    ensures { (file : List ℕ) (place other : ℕ) → IsDamagedAt file place → IsDamagedAt file other → place ≡ other }
{}

/// A settled journal has its contents, with a loose one or without it.
pub fn settled_contents_are_there<D: Disk>()
    ensures { (disk : D) (end : ℕ) (h : List (List ℕ)) (x : List ℕ) → IsSettled (D.seen disk) (D.may_leave disk) end h
        → MayHave (D.seen disk) (D.may_leave disk) h x }
{}

/// What is read with a loose content or without it is one of the two lists.
pub fn a_loose_content_is_there_or_not()
    ensures { (file : List ℕ) (h k : List (List ℕ)) (x : List ℕ) → WithOrWithout h x file → StandsFor file k → (k ≡ h)
        ⊎ (k ≡ h ++ x ∷ []) }
{}

/// The content of each frame stands at its place: behind the frames before it, a gate and a length.
pub fn content_stands_at_its_place()
    ensures { (file x : List ℕ) (before behind : List (List ℕ)) → StandsFor file (before ++ x ∷ behind)
        → StandsAt file (length (front_of before) + 5) x }
{}
