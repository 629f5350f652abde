//! What holds of every summary. The function does nothing: its contract is the law.
ghost use Rattle.std.specs.Prelude.{◌≡◌, true};
ghost use Rattle.std.specs.List.{list_any};
ghost use Rattle.std.specs.Str.{bytes_eq};
ghost use Rattle.answer_lines.specs.Words.{answer_text};
ghost use Rattle.rehearsal.specs.Summary.{words};

use answer_lines::Answer;

/// No answer is left out of a summary: each one's word is among those that are counted.
pub fn every_answer_has_its_word()
    ensures { (answer : Answer) → list_any (λ word. bytes_eq (answer_text answer) word) words ≡ true }
{}
