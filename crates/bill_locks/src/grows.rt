//! Values that stand for lists of frames.
ghost use Rattle.std.specs.Prelude.{◌≡◌, ◌<◌, ◌^◌, ℕ, Bool, List, length};

/// A value that stands for a list of frames, which only grows.
///
/// A value is loose while it may have one frame more than its list says. Its two counts of faults, of a disk and of a
/// ring of keys, never fall, and stay at 2^64 - 1 once they are there.
pub trait Grows {
    /// What the list is of.
    type Frame;

    /// What never changes of a value.
    type Fixed;

    // What no turn changes of the value.
    ghost fixed: { Self → Self.Fixed };

    // The frames that the value stands for.
    ghost list: { Self → List Self.Frame };

    // It may have one frame more.
    ghost loose: { Self → Bool };

    // How often its disk has failed.
    ghost disk: { Self → ℕ };

    // How often its ring of keys has failed.
    ghost ring: { Self → ℕ };

    /// How many frames the value stands for: fewer than 2^62.
    fn frames(&self) -> u64
        ensures count { result ≡ length (list self.now) }
        ensures room { result < 2 ^ 62 };
}
