//! A family whose diaries are indexed by their bills.
ghost use Rattle.std.specs.Prelude.{◌≡◌, IfOk};

use crate::family::{Family, Member};
use bill_diary::{Diary, DiaryIndex};
use ebl_base::{NoMemory, PlatformCode};
use std::alloc::Global;
use std::marker::Model;

/// A platform with its diaries, each indexed by its bills.
#[derive(Drop)]
pub(crate) struct MemberIndex<'a> {
    pub(crate) platform: PlatformCode,
    pub(crate) diaries: Vec<DiaryIndex<'a>>,
}

impl<'a> Model for MemberIndex<'a> {
    ghost use Rattle.closed_family.specs.declared.family.Member.{Member};

    ghost Value = { Member };

    ghost view = { λ s. record { platform = s.platform; diaries = s.diaries.items } };
}

impl<'a> MemberIndex<'a> {
    fn of(alloc: Global, member: &'a Member) -> Result<Self, NoMemory>
        ensures { IfOk result (λ index. index ≡ member.now) }
    {
        let diaries = diaries_of(alloc, member.diaries.as_slice())?;
        Ok(MemberIndex {
            platform: member.platform,
            diaries,
        })
    }

    /// Its platform.
    pub(crate) fn platform(&self) -> PlatformCode
        ensures { result ≡ self.now.platform }
    {
        self.platform
    }

    /// Its diaries.
    pub(crate) fn diaries(&self) -> &[DiaryIndex<'a>]
        ensures { result.now ≡ self.now.diaries }
    {
        &self.diaries
    }
}

fn diaries_of<'a>(alloc: Global, diaries: &'a [Diary]) -> Result<Vec<DiaryIndex<'a>>, NoMemory>
    ensures { IfOk result (λ indices. indices.items ≡ diaries.now) }
{
    let mut indices = Vec::new(alloc);
    for diary in diaries {
        indices.push(DiaryIndex::of(alloc, diary.as_slice())?)?;
    }
    Ok(indices)
}

/// The members of a family, each with its diaries indexed. It costs a search of an ordered map for each frame.
pub(crate) fn indexed(alloc: Global, family: &Family) -> Result<Vec<MemberIndex<'_>>, NoMemory>
    ensures { IfOk result (λ members. members.items ≡ family.now) }
{
    let mut members = Vec::new(alloc);
    for member in family.as_slice() {
        members.push(MemberIndex::of(alloc, member)?)?;
    }
    Ok(members)
}
