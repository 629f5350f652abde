//! The work of a turn: one request.
ghost use Rattle.std.specs.Prelude.{◌≡◌};
ghost use Rattle.platform_office.specs.Served.{is_disk, is_sign};

use crate::served::Served;
use crate::shard::OfficeShard;
use bill_locks::{Job, Told};
use disk_model::Disk;
use ebl_base::Moment;
use platform_requests::{Reply, Request};
use signed_envelope::KeyRing;
use std::alloc::Global;
use std::marker::Model;

/// A request, which goes to the shard of this number.
#[derive(Drop)]
pub(crate) struct Ask {
    pub(crate) alloc: Global,
    pub(crate) shard: u32,
    pub(crate) now: Moment,
    pub(crate) request: Request,
}

impl Model for Ask {
    ghost use Rattle.std.specs.Prelude.{◌≡◌};
    ghost use Rattle.platform_requests.specs.Request.{request_view};
    ghost use Rattle.platform_requests.specs.Shard.{shard_of};
    ghost use Rattle.platform_office.specs.Asked.{AskRecord};
    ghost use Rattle.platform_office.specs.Served.{MayBeServed};
    ghost use Rattle.canonical_json.specs.contracts.value.Json as json;
    ghost use Rattle.std.specs.Coded.{codes};

    ghost Value = { AskRecord };

    ghost coded = { Prim.hlevel (codes, json.the_row.coded) };

    ghost view = { λ a. record { shard = a.shard; now = a.now; request = a.request } };

    ghost invariant = { λ a. MayBeServed a.now (request_view a.request)
        × (shard_of (request_view a.request) ≡ a.shard) };
}

impl<D: Disk, G: KeyRing> Job<OfficeShard<D, G>> for Ask {
    ghost use Rattle.std.specs.Prelude.{◌≡◌};
    ghost use Rattle.platform_requests.specs.Request.{request_view};
    ghost use Rattle.platform_office.specs.Answered.{told_by};
    ghost use Rattle.platform_office.specs.Served.{IsServedBy};

    type Answer = Served;

    ghost tells = { told_by };

    ghost does = { λ ask post before after served. (served.shard ≡ ask.shard)
        × IsServedBy D.tells G.keys post ask.now (request_view ask.request) before after served.outcome };

    fn run(self, value: &mut OfficeShard<D, G>) -> Served {
        let Ask {
            alloc,
            shard,
            now,
            request,
        } = self;
        value.serve(alloc, shard, now, request)
    }

    fn told(answer: &Served) -> Told {
        Told {
            before: answer.before,
            after: answer.after,
            failed: is_disk(&answer.outcome.reply),
            unsigned: is_sign(&answer.outcome.reply),
        }
    }
}

fn is_disk(reply: &Reply) -> bool
    ensures { result ≡ is_disk reply.now }
{
    matches!(reply, Reply::Disk)
}

fn is_sign(reply: &Reply) -> bool
    ensures { result ≡ is_sign reply.now }
{
    matches!(reply, Reply::Sign)
}
