//! A source, read to its end.
ghost use Rattle.std.specs.Prelude.{◌≡◌, ◌<◌, ◌≤◌, length, IfOk, IfSome, IsErrOf, vec_len};
ghost use Rattle.ebl_base.specs.Faults.{Rose};
ghost use Rattle.ebl_run.specs.declared.reading.ReadError.TheVariants.{ReadFault, TooLong};

use ebl_edge::Source;
use std::alloc::{AllocError, Global};

/// The most bytes of a script.
pub const MOST_BYTES: usize = 67_108_864;

// How many bytes are asked for at once.
const PIECE: usize = 65_536;

/// Why a source was not read to its end.
#[derive(Clone, Copy, Debug, PartialEq, Eq)]
pub enum ReadError {
    /// The source failed.
    ReadFault,
    /// The source gave more than [`MOST_BYTES`].
    TooLong,
    /// Memory ran out.
    NoMemory,
}

impl From<AllocError> for ReadError {
    ghost use Rattle.std.specs.Prelude.{◌≡◌};
    ghost use Rattle.ebl_run.specs.declared.reading.ReadError.TheVariants as errors;

    ghost from_gives = { λ _ e. e ≡ errors.NoMemory };

    fn from(_: AllocError) -> ReadError {
        ReadError::NoMemory
    }
}

/// All the bytes of a source. It stops at the first piece that passes [`MOST_BYTES`].
pub fn read_all<S: Source>(alloc: Global, source: &mut S) -> Result<Vec<u8>, ReadError>
    ensures ok { IfOk result (λ bytes. IfSome (S.left source.old) (λ script. bytes.items ≡ script)) }
    ensures fits { IfOk result (λ bytes. vec_len bytes ≤ MOST_BYTES) }
    ensures read_fault { IsErrOf result ReadFault → Rose (S.faults source.old) (S.faults source.new) }
    ensures too_long { IsErrOf result TooLong → IfSome (S.left source.old) (λ script. MOST_BYTES < length script) }
    ensures later { S.faults source.old ≤ S.faults source.new }
{
    let mut piece = zeros(alloc, PIECE)?;
    let mut bytes = Vec::new(alloc);
    loop {
        let count = match source.read(piece.as_mut_slice()) {
            Ok(count) => count,
            Err(_) => return Err(ReadError::ReadFault),
        };
        if count == 0 {
            return Ok(bytes);
        }
        bytes.extend_from_slice(&piece[..count])?;
        if bytes.len() > MOST_BYTES {
            return Err(ReadError::TooLong);
        }
    }
}

fn zeros(alloc: Global, len: usize) -> Result<Vec<u8>, AllocError>
    ensures { IfOk result (λ bytes. vec_len bytes ≡ len) }
{
    vec![in alloc; 0; len]
}
