//! Rows of numbers, as values of the tests: each number is a frame.
ghost use Rattle.std.specs.Prelude.{◌≡◌, ◌⊎◌, ◌<◌, ◌≤◌, ◌^◌, ◌+◌, ◌++◌, ◌∷◌, [], ℕ, true, false, IfOk, Some, None, vec_len, length, is_some, All};
ghost use mathlib.Core.List.{IsPrefix};

use bill_locks::{Grows, Job, Told};
use ebl_base::count_fault;
use std::alloc::{AllocError, Global};

// A row takes fewer frames than this.
const MOST: usize = 1 << 20;

/// A row of frames, with one that may be there.
#[derive(Drop)]
pub struct Row {
    // Its place among the rows, which stays.
    place: usize,
    pub frames: Vec<u64>,
    pub loose: Option<u64>,
    pub disk: u64,
    pub ring: u64,
    ghost few: { vec_len frames < 2 ^ 62 },
}

impl Grows for Row {
    ghost use Rattle.std.specs.Prelude.{is_some};

    type Frame = u64;

    type Fixed = usize;

    ghost fixed = { λ r. r.place };

    ghost list = { λ r. r.frames.items };

    ghost loose = { λ r. is_some r.loose };

    ghost disk = { λ r. r.disk };

    ghost ring = { λ r. r.ring };

    fn frames(&self) -> u64 {
        self.frames.len() as u64
    }
}

impl Row {
    /// An empty row for this place.
    pub fn new(alloc: Global, place: usize) -> Row
        ensures { result.loose ≡ None }
    {
        Row {
            place,
            frames: Vec::new(alloc),
            loose: None,
            disk: 0,
            ring: 0,
        }
    }

    /// So many empty rows.
    pub fn many(alloc: Global, count: usize) -> Result<Vec<Row>, AllocError>
        ensures count { IfOk result (λ rows. vec_len rows ≡ count) }
        ensures firm { IfOk result (λ rows. All (λ r. is_some r.loose ≡ false) rows.items) }
    {
        let mut rows = Vec::new(alloc);
        for place in 0..count {
            rows.push(Row::new(alloc, place))?;
        }
        Ok(rows)
    }

    // Adds a frame, if there is room.
    fn push(&mut self, frame: u64) -> bool
        ensures added { result ≡ true → self.new.frames.items ≡ self.old.frames.items ++ frame ∷ [] }
        ensures full { result ≡ false → self.new.frames.items ≡ self.old.frames.items }
        ensures grows { IsPrefix self.old.frames.items self.new.frames.items }
        ensures place { self.new.place ≡ self.old.place }
        ensures loose { self.new.loose ≡ self.old.loose }
        ensures faults { (self.new.disk ≡ self.old.disk) × (self.new.ring ≡ self.old.ring) }
    {
        if self.frames.len() >= MOST {
            return false;
        }
        self.frames.push(frame).is_ok()
    }

    // Settles whether a loose frame is there, and counts the frames.
    fn resolve(&mut self, finds: bool) -> u64
        ensures grows { IsPrefix self.old.frames.items self.new.frames.items }
        ensures before { (result ≡ vec_len self.old.frames)
            ⊎ ((result ≡ vec_len self.old.frames + 1) × (is_some self.old.loose ≡ true)) }
        ensures count { result ≡ length self.new.frames.items }
        ensures place { self.new.place ≡ self.old.place }
        ensures firm { self.new.loose ≡ None }
        ensures faults { (self.new.disk ≡ self.old.disk) × (self.new.ring ≡ self.old.ring) }
    {
        if let Some(frame) = self.loose {
            self.loose = None;
            if finds {
                self.push(frame);
            }
        }
        self.frames()
    }
}

/// How a job ends.
#[derive(Clone, Copy, Debug, PartialEq, Eq)]
pub enum Ending {
    /// The frame is added.
    Adds,
    /// The disk fails, and the frame is loose.
    LosesDisk,
    /// The ring of keys fails, and nothing is added.
    LosesRing,
}

/// Adds a frame to a row.
#[derive(Debug, Drop)]
pub struct Append {
    pub frame: u64,
    pub ending: Ending,
    // A loose frame turns out to be there.
    pub finds: bool,
}

impl Append {
    pub fn of(frame: u64) -> Append {
        Append {
            frame,
            ending: Ending::Adds,
            finds: false,
        }
    }
}

impl Job<Row> for Append {
    ghost use Rattle.std.specs.Prelude.{◌≡◌, ◌+◌, ◌++◌, ◌∷◌, []};

    type Answer = Told;

    ghost tells = { λ t. t };

    // A frame that was added stands behind those before.
    ghost does = { λ a place before after t. t.after ≡ t.before + 1 → after ≡ before ++ a.frame ∷ [] };

    fn run(self, value: &mut Row) -> Told {
        let before = value.resolve(self.finds);
        let told = |after, failed, unsigned| Told {
            before,
            after,
            failed,
            unsigned,
        };
        match self.ending {
            Ending::Adds => {
                let added = value.push(self.frame);
                told(if added { before + 1 } else { before }, false, false)
            }
            Ending::LosesDisk => {
                value.loose = Some(self.frame);
                count_fault(&mut value.disk);
                told(before, true, false)
            }
            Ending::LosesRing => {
                count_fault(&mut value.ring);
                told(before, false, true)
            }
        }
    }

    fn told(answer: &Told) -> Told {
        *answer
    }
}
