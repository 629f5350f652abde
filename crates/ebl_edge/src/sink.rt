//! Sinks: bytes that go out.
ghost use Rattle.std.specs.Prelude.{ℕ, List, Option, OnOk, OnErr};
ghost use Rattle.std.specs.Io.KnownBytes.{Appends};
ghost use Rattle.ebl_base.specs.Faults.{HasCause};
ghost use Rattle.ebl_edge.specs.Sink.{AppendsFirst};

use ebl_base::Failed;

/// Bytes that go out, in order.
pub trait Sink {
    /// The bytes that were written, if that is known.
    ghost written: { Self → Option (List ℕ) };

    /// How often a call has failed. The count never falls.
    ghost faults: { Self → ℕ };

    /// Writes the whole piece. `Failed` writes a first part of it, and comes only if the count of faults rose.
    fn put(&mut self, piece: &[u8]) -> Result<(), Failed>
        ensures ok { OnOk result (Appends (written self.old) (written self.new) piece.now) }
        ensures failed { OnErr result (AppendsFirst (written self.old) (written self.new) piece.now) }
        ensures cause { HasCause (faults self.old) (faults self.new) result };
}
