//! The parts of a body as they are written.
ghost use Rattle.std.specs.Prelude.{◌≡◌, ◌++◌, false, OnOk};
ghost use Rattle.canonical_json.specs.Canon.{canon, comma_if, values_text};
ghost use Rattle.json_forms.specs.Writing.{each_written, signed_value};

use canonical_json::write_text;
use ebl_base::{ByteList, NoMemory, SignedText};
use std::alloc::Global;

/// Puts a signed text at the end, in quotation marks.
pub(crate) fn push_text(
    alloc: Global,
    out: &mut ByteList,
    text: &SignedText,
) -> Result<(), NoMemory>
    ensures { OnOk result (out.new ≡ out.old ++ canon (signed_value text.now)) }
{
    let text = write_text(alloc, text.0.as_slice())?;
    out.extend_from_slice(text.as_slice())
}

/// Puts signed texts at the end, with commas between them, and the bracket that closes their list.
pub(crate) fn push_texts(
    alloc: Global,
    out: &mut ByteList,
    texts: &[SignedText],
) -> Result<(), NoMemory>
    ensures { OnOk result (out.new ≡ out.old ++ values_text false (each_written signed_value texts.now)) }
{
    let mut later = false;
    for text in texts {
        if later {
            out.extend_from_slice(b",")?;
        }
        push_text(alloc, out, text)?;
        later = true;
    }
    out.extend_from_slice(b"]")
}
