//! The answer that an upload has started, as it is read.
ghost use Rattle.std.specs.Prelude.{◌≡◌, Some, None, IfOk, IfErr, IfSome, option_and_then};
ghost use Rattle.canonical_json.specs.Field.{text_of};
ghost use Rattle.canonical_json.specs.View.{view};
ghost use Rattle.upload_state.specs.Reference.{IsReference, reference_in};
ghost use Rattle.upload_state.specs.Started.{IsFault, IsMalformed, IsStarted, ReadsAs, fault_of, started_of};

use crate::reference::reference_from;
use crate::started::{Started, StartedFault};
use canonical_json::{Json, ReadError, read, text_of};
use ebl_base::{MAX_DOCUMENTS, Reference};
use json_forms::{checksums_in, required_items};
use std::alloc::Global;

/// The answer that a text is: an object with `reference`, a text that [`reference_from`](crate::reference_from) takes,
/// and `missing`, a list of 1 to 16 checksums. Further members are ignored.
///
/// [`StartedFault::Form`] comes exactly when the text is no such answer.
pub fn started_read(alloc: Global, bytes: &[u8]) -> Result<Started, StartedFault>
    ensures ok { IfOk result (λ started. ReadsAs bytes.now started) }
    ensures form { IfOk result (λ started. IsStarted started) }
    ensures err { IfErr result (IsFault bytes.now) }
{
    match read(alloc, bytes) {
        Ok(json) => started_of(alloc, &json),
        Err(error) => Err(fault_of(error)),
    }
}

fn fault_of(error: ReadError) -> StartedFault
    ensures { result ≡ fault_of error }
{
    match error {
        ReadError::NotJson | ReadError::Repeated | ReadError::Fraction | ReadError::Range => {
            StartedFault::Form
        }
        ReadError::NoMemory => StartedFault::NoMemory,
    }
}

fn started_of(alloc: Global, json: &Json) -> Result<Started, StartedFault>
    ensures ok { IfOk result (λ started. started_of (view json.now) ≡ Some started) }
    ensures form { IfOk result (λ started. IsStarted started) }
    ensures err { IfErr result (IsMalformed (started_of (view json.now))) }
{
    let Some(reference) = required_reference(json, "reference") else {
        return Err(StartedFault::Form);
    };
    let Some(items) = required_items(json, "missing", 1, MAX_DOCUMENTS) else {
        return Err(StartedFault::Form);
    };
    let Some(missing) = checksums_in(alloc, items)? else {
        return Err(StartedFault::Form);
    };
    Ok(Started { reference, missing })
}

fn required_reference(json: &Json, name: &str) -> Option<Reference>
    ensures value { result ≡ option_and_then reference_in (text_of name.now (view json.now)) }
    ensures form { IfSome result (λ reference. IsReference reference) }
{
    let text = text_of(json, name)?;
    reference_from(text.as_str().as_bytes())
}
