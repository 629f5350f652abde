//! What holds of every entry and every transaction. The functions do nothing: their contracts are the laws.
ghost use Rattle.std.specs.Prelude.{◌≡◌, ◌≤◌, Some, Ok, length};
ghost use Rattle.canonical_json.specs.Value.{Value, depth};
ghost use Rattle.canonical_json.specs.Canon.{canon};
ghost use Rattle.canonical_json.specs.Lawful.{IsLawful, HasTexts};
ghost use Rattle.ebl_base.specs.declared.entry.Entry.{Entry};
ghost use Rattle.ebl_base.specs.declared.transaction.Transaction.{Transaction};
ghost use Rattle.chain_entry.specs.Form.{IsEntry, IsTransaction};
ghost use Rattle.chain_entry.specs.Reading.{entry_of, transaction_of};
ghost use Rattle.chain_entry.specs.Writing.{entry_value, transaction_value};

use canonical_json::equal_texts_have_equal_values;

/// What some value reads as is well-formed, in each of its lengths and ranges.
pub fn decoded_entries_have_the_form()
    ensures entry { (v : Value) (entry : Entry) → entry_of v ≡ Ok entry → IsEntry entry }
    ensures transaction { (v : Value) (t : Transaction) → transaction_of v ≡ Some t → IsTransaction t }
{}

/// What is well-formed is read again as it is written.
pub fn written_entries_read_back()
    ensures entry { (entry : Entry) → IsEntry entry → entry_of (entry_value entry) ≡ Ok entry }
    ensures transaction { (t : Transaction) → IsTransaction t → transaction_of (transaction_value t) ≡ Some t }
{}

/// What is written has a canonical text (RFC 8785), and nests at most three deep.
pub fn written_entries_are_lawful()
    ensures entry { (entry : Entry) → IsLawful (entry_value entry) }
    ensures entry_texts { (entry : Entry) → HasTexts (entry_value entry) }
    ensures entry_depth { (entry : Entry) → depth (entry_value entry) ≤ 3 }
    ensures transaction { (t : Transaction) → IsLawful (transaction_value t) }
    ensures transaction_texts { (t : Transaction) → HasTexts (transaction_value t) }
    ensures transaction_depth { (t : Transaction) → depth (transaction_value t) ≤ 1 }
{}

/// Different well-formed entries have different canonical texts, and so have different transactions.
pub fn entries_with_one_text_are_one()
    ensures entry { (a b : Entry) → IsEntry a → IsEntry b → canon (entry_value a) ≡ canon (entry_value b) → a ≡ b }
    ensures transaction { (a b : Transaction) → IsTransaction a → IsTransaction b
        → canon (transaction_value a) ≡ canon (transaction_value b) → a ≡ b }
{
    equal_texts_have_equal_values();
}

/// The canonical text of a well-formed entry has at most 5,500 bytes, and that of a transaction at most 164.
pub fn written_entries_are_short()
    ensures entry { (entry : Entry) → IsEntry entry → length (canon (entry_value entry)) ≤ 5500 }
    ensures transaction { (t : Transaction) → IsTransaction t → length (canon (transaction_value t)) ≤ 164 }
{}
