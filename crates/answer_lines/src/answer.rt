//! What an event of a script is answered.
ghost use Rattle.std.specs.Prelude.{◌≡◌};
ghost use Rattle.answer_lines.specs.Words.{answer_text};

use crate::parcel::Parcel;
use platform_requests::Reply;

/// What an event of a script is answered.
#[derive(Debug, Drop)]
pub enum Answer {
    /// What the platform that was asked replied.
    Replied(Reply),
    /// The platform started again.
    Opened,
    /// The script has signed no bill of that number.
    NoBill,
    /// No message of that number was sent, or it is for nobody and no platform was named.
    NoMessage,
    /// The message that was to be shown.
    Shown(Parcel),
}

impl Answer {
    /// The word of the answer in its line, as `DONE`; of a signed answer its code, as `RECE`.
    pub fn as_str(&self) -> &'static str
        ensures { result.now ≡ answer_text self.now }
    {
        match self {
            Answer::Replied(reply) => reply.as_str(),
            Answer::Opened => "OPENED",
            Answer::NoBill => "NO_BILL",
            Answer::NoMessage => "NO_MESSAGE",
            Answer::Shown(_) => "SHOWN",
        }
    }
}
