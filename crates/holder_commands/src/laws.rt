//! What holds of every command. The functions do nothing: their contracts are the laws.
ghost use Rattle.std.specs.Prelude.{◌≡◌, Ok};
ghost use Rattle.canonical_json.specs.Canon.{canon};
ghost use Rattle.canonical_json.specs.Lawful.{IsLawful, HasTexts};
ghost use Rattle.holder_commands.specs.Command.{CommandRecord};
ghost use Rattle.holder_commands.specs.Form.{IsCommand};
ghost use Rattle.holder_commands.specs.Reading.{command_of};
ghost use Rattle.holder_commands.specs.Writing.{command_value};

use canonical_json::equal_texts_have_equal_values;

/// A command that has the form is read from its written form.
pub fn written_commands_read_back()
    ensures { (c : CommandRecord) → IsCommand c → command_of (command_value c) ≡ Ok c }
{}

/// What is written of a command that has the form has a canonical text (RFC 8785).
pub fn written_commands_are_lawful()
    ensures lawful { (c : CommandRecord) → IsCommand c → IsLawful (command_value c) }
    ensures texts { (c : CommandRecord) → IsCommand c → HasTexts (command_value c) }
{}

/// Different commands that have the form have different canonical texts.
pub fn commands_with_one_text_are_one()
    ensures { (a b : CommandRecord) → IsCommand a → IsCommand b
        → canon (command_value a) ≡ canon (command_value b) → a ≡ b }
{
    written_commands_read_back();
    written_commands_are_lawful();
    equal_texts_have_equal_values();
}
