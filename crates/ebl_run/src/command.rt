//! The commands that the program's words name.
ghost use Rattle.std.specs.Prelude.{◌≡◌, ◌<◌, ◌^◌, ◌-◌, min, IfSome};
ghost use Rattle.std.specs.Char.{is_ascii_digit};
ghost use Rattle.std.specs.List.{list_all};
ghost use Rattle.ebl_run.specs.Command.{IsInRange, command_of, has_first, is_number, number_in, reads_source, rehearse_of, value_of};

use rehearsal::{MOST_BILLS, MOST_STEPS};

/// The greatest seed of a rehearsal.
pub const MOST_SEED: u64 = 9_223_372_036_854_775_807;

/// What the program is to do.
#[derive(Clone, Copy, Debug, PartialEq, Eq)]
pub enum Command {
    /// Run a script.
    Drive,
    /// Write a JSON value's canonical text and its checksum.
    Canon,
    /// Run a generated script from a seed, with so many bills and steps, and sum it up.
    Rehearse { seed: u64, bills: u64, steps: u64 },
}

impl Command {
    /// Whether it reads the source.
    pub fn reads_source(self) -> bool
        ensures { result ≡ reads_source self }
    {
        match self {
            Command::Drive | Command::Canon => true,
            Command::Rehearse { .. } => false,
        }
    }
}

/// The command that the words name; `None` where they name none. Numbers are decimal digits without a zero in front,
/// and lie in their ranges.
pub fn command_of(words: &Vec<String>) -> Option<Command>
    ensures command { result ≡ command_of words.now.items }
    ensures ranges { IfSome result IsInRange }
{
    match words.as_slice() {
        [word] => match word.as_str() {
            "drive" => Some(Command::Drive),
            "canon" => Some(Command::Canon),
            _ => None,
        },
        [word, seed, bills, steps] if word.as_str() == "rehearse" => rehearse_of(
            number_in(0, MOST_SEED, seed.as_bytes()),
            number_in(1, MOST_BILLS, bills.as_bytes()),
            number_in(1, MOST_STEPS, steps.as_bytes()),
        ),
        _ => None,
    }
}

fn rehearse_of(seed: Option<u64>, bills: Option<u64>, steps: Option<u64>) -> Option<Command>
    ensures { result ≡ rehearse_of seed bills steps }
{
    match (seed, bills, steps) {
        (Some(seed), Some(bills), Some(steps)) => Some(Command::Rehearse { seed, bills, steps }),
        _ => None,
    }
}

// The number that a text is, if it lies in this range.
fn number_in(least: u64, most: u64, text: &[u8]) -> Option<u64>
    requires { most < 2 ^ 64 - 1 }
    ensures { result ≡ number_in least most text.now }
{
    if !is_number(text) {
        return None;
    }
    let number = value_of(text);
    (least <= number && number <= most).then_some(number)
}

fn is_number(text: &[u8]) -> bool
    ensures { result ≡ is_number text.now }
{
    if !are_digits(text) {
        return false;
    }
    has_first(text)
}

fn are_digits(text: &[u8]) -> bool
    ensures { result ≡ list_all is_ascii_digit text.now }
{
    text.iter().all(|digit| digit.is_ascii_digit())
}

fn has_first(digits: &[u8]) -> bool
    ensures { result ≡ has_first digits.now }
{
    match digits {
        [] => false,
        [_] => true,
        [first, ..] => *first != b'0',
    }
}

// The number that digits spell; one past 2^64 - 1 is that.
fn value_of(digits: &[u8]) -> u64
    ensures { result ≡ min (value_of digits.now) (2 ^ 64 - 1) }
{
    let mut number: u64 = 0;
    for digit in digits {
        number = number
            .saturating_mul(10)
            .saturating_add(u64::from(digit.saturating_sub(b'0')));
    }
    number
}
