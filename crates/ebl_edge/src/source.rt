//! Sources: bytes that come in.
ghost use Rattle.std.specs.Prelude.{ℕ, List, Option};
ghost use Rattle.std.specs.Io.{ReadsAtMost};
ghost use Rattle.std.specs.Io.KnownBytes.{ReadConsumes};
ghost use Rattle.ebl_base.specs.Faults.{HasCause};

use ebl_base::Failed;

/// Bytes that come from outside, in order.
pub trait Source {
    /// The bytes that reads will hand out from here on, if that is known.
    ghost left: { Self → Option (List ℕ) };

    /// How often a read has failed. The count never falls.
    ghost faults: { Self → ℕ };

    /// Hands out the next bytes, at the front of `into`, and answers how many: at most as many as `into` has room for.
    ///
    /// For an `into` that isn't empty, `Ok(0)` comes if and only if nothing is left. `Failed` hands out nothing, and
    /// comes only if the count of faults rose.
    fn read(&mut self, into: &mut [u8]) -> Result<usize, Failed>
        ensures within { ReadsAtMost result into.new }
        ensures bytes { ReadConsumes (left self.old) (left self.new) result into.new }
        ensures cause { HasCause (faults self.old) (faults self.new) result };
}
