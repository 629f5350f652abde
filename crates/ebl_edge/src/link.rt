//! Links: bytes in both directions.
ghost use Rattle.std.specs.Prelude.{◌≡◌, ℕ, List, Option, OnOk, OnErr};
ghost use Rattle.std.specs.Io.{ReadsAtMost};
ghost use Rattle.std.specs.Io.KnownBytes.{Appends, ReadConsumes};
ghost use Rattle.ebl_base.specs.Faults.{HasCause};
ghost use Rattle.ebl_edge.specs.Sink.{AppendsFirst};

use ebl_base::Failed;

/// Bytes that come from a peer and bytes that go to it, as over a socket. Both directions have one count of faults.
pub trait Link {
    /// The bytes that reads will hand out from here on, if that is known.
    ghost left: { Self → Option (List ℕ) };

    /// The bytes that were written, if that is known.
    ghost written: { Self → Option (List ℕ) };

    /// How often a call has failed. The count never falls.
    ghost faults: { Self → ℕ };

    /// Hands out the next bytes, at the front of `into`, and answers how many: at most as many as `into` has room for.
    /// What was written stays.
    ///
    /// For an `into` that isn't empty, `Ok(0)` comes if and only if nothing is left. `Failed` hands out nothing, and
    /// comes only if the count of faults rose.
    fn read(&mut self, into: &mut [u8]) -> Result<usize, Failed>
        ensures within { ReadsAtMost result into.new }
        ensures bytes { ReadConsumes (left self.old) (left self.new) result into.new }
        ensures written { written self.new ≡ written self.old }
        ensures cause { HasCause (faults self.old) (faults self.new) result };

    /// Writes the whole piece. `Failed` writes a first part of it, and comes only if the count of faults rose. What is
    /// left to read stays.
    fn put(&mut self, piece: &[u8]) -> Result<(), Failed>
        ensures ok { OnOk result (Appends (written self.old) (written self.new) piece.now) }
        ensures failed { OnErr result (AppendsFirst (written self.old) (written self.new) piece.now) }
        ensures left { left self.new ≡ left self.old }
        ensures cause { HasCause (faults self.old) (faults self.new) result };
}
