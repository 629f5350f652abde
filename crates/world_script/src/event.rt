//! The events of a script.
ghost use Rattle.std.specs.Prelude.{◌≡◌, IfOk};
ghost use Rattle.world_script.specs.Event.{event_view};

use crate::deed::{BillName, Deed};
use crate::foreign::Foreign;
use ebl_base::{Moment, NoMemory, Party, PlatformCode};
use std::alloc::Global;

/// What a line of a script asks.
#[derive(Drop)]
pub enum Event {
    /// A party's command.
    Command {
        /// The platform that is asked.
        at: PlatformCode,
        /// The party that asks.
        party: Party,
        /// The moment of the command.
        now: Moment,
        /// What it asks.
        deed: Deed,
    },
    /// A message is delivered.
    Deliver {
        /// The message's number, from 1.
        number: u64,
        /// The platform to which it goes, if not the one that it is for.
        at: Option<PlatformCode>,
    },
    /// A platform forgets its memory and reads its journals.
    Restart {
        /// The platform.
        at: PlatformCode,
    },
    /// A platform sends the start of a bill's transfer again.
    Resend {
        /// The platform.
        at: PlatformCode,
        /// The bill.
        bill: BillName,
    },
    /// A platform is asked how a bill is.
    Ask {
        /// The platform.
        at: PlatformCode,
        /// The bill.
        bill: BillName,
    },
    /// Bytes from outside come to a platform.
    Foreign {
        /// The platform.
        at: PlatformCode,
        /// The bytes.
        bytes: Foreign,
    },
    /// A message is shown. It changes nothing.
    Show {
        /// The message's number, from 1.
        number: u64,
    },
}

impl Event {
    /// An event equal to this one, with copies of what it holds.
    pub fn copy(&self, alloc: Global) -> Result<Event, NoMemory>
        ensures { IfOk result (λ event. event_view event ≡ event_view self.now) }
    {
        match self {
            Event::Command {
                at,
                party,
                now,
                deed,
            } => Ok(Event::Command {
                at: *at,
                party: *party,
                now: *now,
                deed: deed.copy(alloc)?,
            }),
            Event::Deliver { number, at } => Ok(Event::Deliver {
                number: *number,
                at: *at,
            }),
            Event::Restart { at } => Ok(Event::Restart { at: *at }),
            Event::Resend { at, bill } => Ok(Event::Resend {
                at: *at,
                bill: *bill,
            }),
            Event::Ask { at, bill } => Ok(Event::Ask {
                at: *at,
                bill: *bill,
            }),
            Event::Foreign { at, bytes } => Ok(Event::Foreign {
                at: *at,
                bytes: bytes.copy(alloc)?,
            }),
            Event::Show { number } => Ok(Event::Show { number: *number }),
        }
    }
}
