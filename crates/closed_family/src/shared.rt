//! The first name that two different texts share.
ghost use Rattle.std.specs.Prelude.{◌≡◌, false, not, bytes_eq, option_copied, IfOk, MatchOption};
ghost use Rattle.std.specs.Option.{option_map_or};
ghost use Rattle.closed_family.specs.Texts.{AreDistinct, IsSharedFirst};

use crate::texts::NamedText;
use ebl_base::{Checksum, NoMemory};
use std::alloc::Global;
use std::collections::BTreeMap;

/// The first name that two different ones of the texts share: that of the first text before which another one has its
/// name. None where texts of one name are one; `NoMemory` where memory runs out.
///
/// Texts are compared only where their names agree.
pub fn first_shared(alloc: Global, texts: &[NamedText]) -> Result<Option<Checksum>, NoMemory>
    ensures { IfOk result (λ shared.
        MatchOption shared (AreDistinct texts.now) (λ name. IsSharedFirst texts.now name)) }
{
    let mut seen = BTreeMap::new(alloc);
    for text in texts {
        let name = text.name();
        let bytes = text.as_slice();
        let earlier = seen.insert(name, bytes)?;
        if is_other(earlier, bytes) {
            return Ok(Some(name));
        }
    }
    Ok(None)
}

// Whether a name stood for other bytes before.
fn is_other(earlier: Option<&[u8]>, bytes: &[u8]) -> bool
    ensures { result ≡ option_map_or (λ e. not (bytes_eq e bytes.now)) (option_copied earlier.entry) false }
{
    match earlier {
        Some(earlier) => earlier != bytes,
        None => false,
    }
}
