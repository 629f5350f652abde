//! Whether a transaction moves a bill.
ghost use Rattle.std.specs.Bool.{OnTrue, OnFalse};
ghost use Rattle.std.specs.Prelude.{◌≡◌, ◌≢◌, IsSomeAnd, IfSome};
ghost use Rattle.title_fold.specs.Movement.{moves};
ghost use Rattle.title_fold.specs.Title.{possessor};

use crate::title::{Title, possessor};

/// Whether the step from one title to the next moves the bill: the possessor's platform after it is another than before
/// it. The first step, a SIGN, doesn't move.
pub fn moves(before: Option<Title>, after: Title) -> bool
    ensures value { result ≡ moves before after }
    ensures moved { OnTrue result
        (IsSomeAnd before (λ title. (possessor title).platform ≢ (possessor after).platform)) }
    ensures stays { OnFalse result
        (IfSome before (λ title. (possessor title).platform ≡ (possessor after).platform)) }
{
    match before {
        None => false,
        Some(title) => possessor(title).platform != possessor(after).platform,
    }
}
