//! Whether the diaries of all platforms, taken together, show that each bill is safe.
ghost use Rattle.std.specs.Prelude.{◌≡◌, ◌↔◌, IfOk};
ghost use Rattle.ebl_base.specs.declared.checksum.Checksum.{Checksum};
ghost use Rattle.closed_family.specs.Family.{IsSoundFamily, IsClosedFamily, HasDistinctNames, IsSafeFamily};
ghost use Rattle.closed_family.specs.Survey.{IsVerdict};
ghost use Rattle.closed_family.specs.Texts.{SharesName};
ghost use Rattle.closed_family.specs.declared.verdict.Verdict.TheVariants.{Consistent, SameName};

use crate::family::Family;
use crate::lacking::{Lacking, first_lacking};
use crate::shared::first_shared;
use crate::texts::texts_in;
use crate::verdict::Verdict;
use ebl_base::NoMemory;
use std::alloc::Global;

/// What the diaries of all platforms say together: that they are closed and their texts have distinct names, else the
/// first name that two different texts share, else the first record that is lacking, in the order of the family (by
/// platform, shard, frame and record, and within a record as `docs/safety.md` says).
///
/// It answers for every family. Where the family is sound, it answers [`Verdict::Consistent`] exactly when the family
/// is closed and its texts have distinct names, and then each bill is safe.
///
/// Shared names are found with about n log n comparisons of names for n texts; each text is hashed once, and each body
/// read once. What is lacking is looked for among the records of one bill at a time, which are found by about n log n
/// comparisons of bills for n frames; only the records of a single bill may be gone over once for each of them.
pub fn survey(alloc: Global, family: &Family) -> Result<Verdict, NoMemory>
    ensures verdict { IfOk result (IsVerdict family.now) }
    ensures consistent { IsSoundFamily family.now → IfOk result
        (λ verdict. (verdict ≡ Consistent) ↔ (IsClosedFamily family.now × HasDistinctNames family.now)) }
    ensures same_name { IsSoundFamily family.now → IfOk result
        (λ verdict. (name : Checksum) → verdict ≡ SameName name → SharesName family.now name) }
    ensures safe { IsSoundFamily family.now → IfOk result
        (λ verdict. verdict ≡ Consistent → IsSafeFamily family.now) }
{
    verdict_of(alloc, family)
}

fn verdict_of(alloc: Global, family: &Family) -> Result<Verdict, NoMemory>
    ensures { IfOk result (IsVerdict family.now) }
{
    let texts = texts_in(alloc, family)?;
    match first_shared(alloc, &texts)? {
        Some(name) => Ok(Verdict::SameName(name)),
        None => match first_lacking(alloc, family)? {
            Some(
                Lacking {
                    platform,
                    what,
                    text,
                },
            ) => Ok(Verdict::Lacks {
                platform,
                what,
                text,
            }),
            None => Ok(Verdict::Consistent),
        },
    }
}
