//! What holds of every event. The functions do nothing: their contracts are the laws.
ghost use Rattle.std.specs.Prelude.{◌≡◌, Ok};
ghost use Rattle.canonical_json.specs.Canon.{canon};
ghost use Rattle.canonical_json.specs.Lawful.{IsLawful, HasTexts};
ghost use Rattle.world_script.specs.Event.{EventRecord};
ghost use Rattle.world_script.specs.Form.{IsEvent};
ghost use Rattle.world_script.specs.Reading.{event_of};
ghost use Rattle.world_script.specs.Writing.{event_value};

use canonical_json::equal_texts_have_equal_values;

/// An event that the rows of a script allow is read from its written form.
pub fn written_events_read_back()
    ensures { (e : EventRecord) → IsEvent e → event_of (event_value e) ≡ Ok e }
{}

/// What is written of such an event has a canonical text (RFC 8785).
pub fn written_events_are_lawful()
    ensures lawful { (e : EventRecord) → IsEvent e → IsLawful (event_value e) }
    ensures texts { (e : EventRecord) → IsEvent e → HasTexts (event_value e) }
{}

/// Different events have different canonical texts.
pub fn events_with_one_text_are_one()
    ensures { (a b : EventRecord) → IsEvent a → IsEvent b → canon (event_value a) ≡ canon (event_value b) → a ≡ b }
{
    written_events_read_back();
    written_events_are_lawful();
    equal_texts_have_equal_values();
}
