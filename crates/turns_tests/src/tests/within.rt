//! A job that tries other turns while it has one.
ghost use Rattle.std.specs.Prelude.{◌≡◌, ◌<◌};
ghost use Rattle.std.specs.Arc.{arc_value};

use super::row::{Append, Row};
use bill_locks::{Grows, Job, Pass, Told, Turns};
use std::alloc::Global;
use std::sync::Arc;

/// Tries, by a pass of its own, the turns of rows 0 and 1.
#[derive(Drop)]
pub struct Within {
    turns: Arc<Turns<Row>, Global>,
    pass: Pass<Row>,
    ghost of: { pass.table ≡ arc_value turns },
    ghost two: { 1 < (arc_value turns).slots },
}

/// Whether each of the two turns was free, and the pass.
#[derive(Drop)]
pub struct Found {
    pub told: Told,
    pub pass: Pass<Row>,
    pub free: [bool; 2],
}

impl Within {
    pub fn new(turns: Arc<Turns<Row>, Global>, pass: Pass<Row>) -> Self
        requires of { pass.table ≡ arc_value turns }
        requires two { 1 < (arc_value turns).slots }
        ensures { result.pass ≡ pass }
    {
        Within { turns, pass }
    }
}

impl Job<Row> for Within {
    ghost use Rattle.std.specs.Prelude.{◌≡◌};

    type Answer = Found;

    ghost tells = { λ f. f.told };

    ghost does = { λ w place before after f. f.pass.table ≡ w.pass.table };

    fn run(self, value: &mut Row) -> Found {
        let Within { turns, mut pass } = self;
        let first = turns.try_turn(&mut pass, 0, Append::of(1)).is_ok();
        let second = turns.try_turn(&mut pass, 1, Append::of(2)).is_ok();
        let count = value.frames();
        let told = Told {
            before: count,
            after: count,
            failed: false,
            unsigned: false,
        };
        Found {
            told,
            pass,
            free: [first, second],
        }
    }

    fn told(answer: &Found) -> Told {
        answer.told
    }
}
