//! Counts and sums, as values of turns: each addition is a frame.
ghost use Rattle.std.specs.Prelude.{◌≡◌, ◌⊎◌, ◌+◌, ◌<◌, ◌^◌, IfOk, vec_len};

use bill_locks::{Grows, Job, Told};
use std::alloc::{AllocError, Global};

/// How many amounts were added, and their sum.
#[derive(Clone, Copy, Drop)]
pub struct Tally {
    count: u64,
    sum: u64,
    ghost few: { count < 2 ^ 62 },
}

impl Grows for Tally {
    ghost use Rattle.std.specs.Prelude.{false, replicate};

    type Frame = ();

    type Fixed = ();

    ghost fixed = { λ _. tt };

    ghost list = { λ t. replicate t.count tt };

    ghost loose = { λ _. false };

    ghost disk = { λ _. 0 };

    ghost ring = { λ _. 0 };

    fn frames(&self) -> u64 {
        self.count
    }
}

impl Tally {
    /// So many tallies of nothing.
    pub fn many(alloc: Global, count: u32) -> Result<Vec<Tally>, AllocError>
        ensures { IfOk result (λ tallies. vec_len tallies ≡ count) }
    {
        let mut tallies = Vec::new(alloc);
        for _ in 0..count {
            tallies.push(Tally { count: 0, sum: 0 })?;
        }
        Ok(tallies)
    }

    // Adds an amount, if there is room.
    fn add(&mut self, amount: u64)
        ensures { (self.new.count ≡ self.old.count) ⊎ (self.new.count ≡ self.old.count + 1) }
    {
        let count = self.count + 1;
        if count < 1 << 62 {
            self.sum = self.sum.wrapping_add(amount);
            self.count = count;
        }
    }
}

/// Adds an amount.
#[derive(Drop)]
pub struct Add {
    pub amount: u64,
}

impl Job<Tally> for Add {
    type Answer = Told;

    ghost tells = { λ t. t };

    ghost does = { λ add fixed before after t. Unit {0} };

    fn run(self, value: &mut Tally) -> Told {
        let before = value.frames();
        value.add(self.amount);
        Told {
            before,
            after: value.frames(),
            failed: false,
            unsigned: false,
        }
    }

    fn told(answer: &Told) -> Told {
        *answer
    }
}
