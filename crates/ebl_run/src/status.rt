//! How a run of the program ends.
ghost use Rattle.std.specs.Prelude.{◌≡◌};
ghost use Rattle.ebl_run.specs.Status.{exit_of};

use canonical_json::ReadError;

/// How a run of the program ends. A bad line is reported before `WrongRacks` and `NotBlank`. A disk or a sink that
/// fails is told where it is met, and so is memory that runs out: also before a later bad line.
#[derive(Clone, Copy, Debug, PartialEq, Eq)]
pub enum Status {
    /// Each line was answered, and the bill lines stand; or the one line of the command does.
    Done,
    /// The words are no command.
    Usage,
    /// The source failed.
    ReadFault,
    /// The source has more than 67,108,864 bytes.
    TooLong,
    /// `canon` alone: the input is no JSON that `canonical_json` reads, and why.
    BadJson(ReadError),
    /// The line of this number, counted from 1, is the first outside the grammar, or the line 100,001. The answers
    /// before it stand, unless too few racks came or a disk isn't blank: then nothing does.
    BadScript(u64),
    /// Fewer racks came than sixteen for each platform of the roster: how many came, and how many are needed. Nothing
    /// was written. A bad line is reported before it.
    WrongRacks { given: u64, needed: u64 },
    /// The disk at this place, counted from 0, is the first of those needed that has a byte already. Nothing was
    /// written. A bad line is reported before it.
    NotBlank(usize),
    /// The disk at this place, counted from 0, failed while the disks were measured and opened. Nothing was written.
    OpenFault(usize),
    /// The sink failed. What it took is whole lines and a first part of the next one.
    WriteFault,
    /// Memory ran out. What was written is whole lines.
    NoMemory,
}

/// The program's exit for a status.
#[tactic(auto, unfolding(crate::specs::Status::exit_of))]
pub fn exit_of(status: Status) -> u8
    ensures { result ≡ exit_of status }
{
    match status {
        Status::Done => 0,
        Status::Usage => 2,
        Status::BadScript(_) => 3,
        Status::TooLong => 4,
        Status::BadJson(_) => 5,
        Status::WrongRacks { .. } => 6,
        Status::NotBlank(_) => 7,
        Status::OpenFault(_) => 8,
        Status::ReadFault => 10,
        Status::WriteFault => 11,
        Status::NoMemory => 12,
    }
}
