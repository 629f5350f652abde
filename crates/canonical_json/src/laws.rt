//! What holds of every value: its text reads back, and no other value has it.
ghost use Rattle.std.specs.Prelude.{◌≡◌, ◌≤◌};
ghost use Rattle.canonical_json.specs.Value.{Value, depth};
ghost use Rattle.canonical_json.specs.Lawful.{IsLawful, HasTexts};
ghost use Rattle.canonical_json.specs.Canon.{canon};
ghost use Rattle.canonical_json.specs.Reading.{Reads};

/// The text of a lawful value, nested at most 127 deep, reads as that value.
pub fn canonical_reads()
    ensures { (v : Value) → IsLawful v → HasTexts v → depth v ≤ 127 → Reads (canon v) v }
{}

/// Two lawful values with one text are one value, however deep they nest.
pub fn equal_texts_have_equal_values()
    ensures { (v w : Value) → IsLawful v → IsLawful w → canon v ≡ canon w → v ≡ w }
{}
