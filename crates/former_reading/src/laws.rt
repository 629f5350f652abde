//! What holds of old texts. The function does nothing: its contract is the law.
ghost use Rattle.std.specs.Prelude.{ℕ, List};
ghost use Rattle.canonical_json.specs.Value.{Value};
ghost use Rattle.canonical_json.specs.Reading.{Reads, NamesOnce};
ghost use Rattle.former_reading.specs.Former.{FormerlyReads};

/// A text that was read before decimals were, and in which no object has a name twice, is read as
/// the same value.
pub fn formerly_read_is_read_alike()
    ensures { (bytes : List ℕ) (v : Value)
        → FormerlyReads bytes v → NamesOnce bytes → Reads bytes v }
{}
