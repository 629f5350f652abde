//! A desk that gives the same outcome for every request.
ghost use Rattle.std.specs.Prelude.{false};

use ebl_base::{Checksum, Moment, Party, PlaceTag};
use platform_requests::{Desk, MessageList, Outcome, Reply, Request, View};
use std::alloc::Global;
use title_fold::Title;

/// It shows a bill that its one party holds, whatever it is asked, and keeps nothing.
#[derive(Drop)]
pub(crate) struct SameDesk {
    pub party: Party,
}

impl Desk for SameDesk {
    ghost run = { λ before calls after. Unit {0} };

    ghost known = { λ desk party. false };

    fn take(&mut self, alloc: Global, now: Moment, request: Request) -> Outcome {
        let _ = now;
        drop(request);
        let title = Title::Live {
            carrier: self.party,
            possessor: self.party,
            holder: self.party,
        };
        let view = View {
            bill: Checksum([0x44; 32]),
            place: PlaceTag::Held,
            entries: 2,
            title: Some(title),
        };
        Outcome {
            reply: Reply::Done(view),
            messages: MessageList::new(alloc),
        }
    }

    fn knows(&self, party: Party) -> bool {
        let _ = party;
        false
    }

    ghost starts = { λ desk. tt };
}
