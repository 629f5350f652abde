//! The work of one turn, and what its answer reports of it.
ghost use Rattle.std.specs.Prelude.{◌≡◌, ◌⊎◌, ◌+◌, ◌<◌, ◌≤◌, ℕ, Bool, true, List, length, take};
ghost use mathlib.Core.List.{IsPrefix};
ghost use Rattle.ebl_base.specs.Faults.{Rose};
ghost use Rattle.bill_locks.specs.declared.job.Told.{Told};

use crate::grows::Grows;

/// What an answer reports of the turn in which it was made.
#[derive(Clone, Copy, Debug, PartialEq, Eq)]
pub struct Told {
    /// The number of frames before the turn's own, with a loose frame that turned out to be there.
    pub before: u64,
    /// The number of frames afterwards.
    pub after: u64,
    /// The answer is a fault of the disk.
    pub failed: bool,
    /// The answer is a fault of the ring of keys.
    pub unsigned: bool,
}

/// What is done with a value in one turn: it adds one frame at most.
pub trait Job<T: Grows> {
    /// What it answers.
    type Answer;

    // What an answer reports of its turn.
    ghost tells: { Self.Answer → Told };

    // The job, what never changes of the value, the frames before the job's own, the list as it leaves it, and its
    // answer.
    ghost does: { Self → T.Fixed → List T.Frame → List T.Frame → Self.Answer → Type 0 };

    /// Does the work.
    fn run(self, value: &mut T) -> Self::Answer
        ensures fixed { T.fixed value.new ≡ T.fixed value.old }
        ensures grows { IsPrefix (T.list value.old) (T.list value.new) }

        // A loose frame may turn out to be there.
        ensures before { ((tells result).before ≡ length (T.list value.old))
            ⊎ (((tells result).before ≡ length (T.list value.old) + 1) × (T.loose value.old ≡ true)) }
        ensures after { (tells result).after ≡ length (T.list value.new) }
        ensures one { ((tells result).after ≡ (tells result).before)
            ⊎ ((tells result).after ≡ (tells result).before + 1) }

        // A value is left loose only by a fault of the disk, or if it was loose and stays so.
        ensures loose { T.loose value.new ≡ true → ((tells result).failed ≡ true)
            ⊎ ((T.loose value.old ≡ true) × ((tells result).before ≡ length (T.list value.old))) }
        ensures disk { T.disk value.old ≤ T.disk value.new }
        ensures ring { T.ring value.old ≤ T.ring value.new }
        ensures failed { (tells result).failed ≡ true → Rose (T.disk value.old) (T.disk value.new) }
        ensures unsigned { (tells result).unsigned ≡ true → Rose (T.ring value.old) (T.ring value.new) }
        ensures does { does self (T.fixed value.old) (take (tells result).before (T.list value.new)) (T.list value.new)
            result };

    /// What an answer reports of its turn.
    fn told(answer: &Self::Answer) -> Told
        ensures { result ≡ tells answer.now };
}
