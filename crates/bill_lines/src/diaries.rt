//! The diaries of a bill's shard on the platforms.
ghost use Rattle.std.specs.Prelude.{◌≡◌, find, option_copied};
ghost use Rattle.ebl_base.specs.PlatformCode.{code_eq};
ghost use Rattle.bill_diary.specs.History.{history};
ghost use Rattle.bill_lines.specs.Diaries.{frames_of, histories_in};

use bill_diary::{Diary, DiaryIndex, History};
use ebl_base::{Checksum, PlatformCode};

/// A diary, or its index by bills.
///
/// The history of a bill costs a walk over the whole diary, or over the frames of the bill alone. So whoever asks for
/// the lines of many bills indexes each diary once, and whoever asks for one bill doesn't.
#[derive(Clone, Copy)]
pub enum DiaryRef<'a> {
    Whole(&'a Diary),
    Indexed(&'a DiaryIndex<'a>),
}

impl<'a> DiaryRef<'a> {
    fn history(self, bill: Checksum) -> History<'a>
        ensures { result ≡ history bill (frames_of self.entry) }
    {
        match self {
            DiaryRef::Whole(diary) => History::of(diary.as_slice(), bill),
            DiaryRef::Indexed(index) => index.history(bill),
        }
    }
}

/// A platform, with the diary of a bill's shard there.
#[derive(Clone, Copy)]
pub struct PlatformDiary<'a> {
    pub platform: PlatformCode,
    pub diary: DiaryRef<'a>,
}

/// The history of a bill on a platform.
pub(crate) fn history_on<'a>(
    diaries: &[PlatformDiary<'a>],
    bill: Checksum,
    p: PlatformCode,
) -> History<'a>
    ensures { result ≡ histories_in bill diaries.now p }
{
    match diary_on(diaries, p) {
        Some(d) => d.diary.history(bill),
        None => History::of(&[], bill),
    }
}

// The diary of a platform, if one is given.
fn diary_on<'a, 'b>(
    diaries: &'b [PlatformDiary<'a>],
    p: PlatformCode,
) -> Option<&'b PlatformDiary<'a>>
    ensures { option_copied result ≡ find (λ d. code_eq d.platform p) diaries.now }
{
    diaries.iter().find(|d| d.platform == p)
}
