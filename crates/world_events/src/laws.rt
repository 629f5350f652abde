//! What holds of all that is sent. The functions do nothing: their contracts are the laws.
ghost use Rattle.std.specs.Prelude.{◌≡◌, List};
ghost use Rattle.platform_requests.specs.declared.message.Message.{Message};
ghost use Rattle.platform_requests.specs.declared.reply.Reply.{Reply};
ghost use Rattle.world_events.specs.declared.parcels.ReplyPath.{ReplyPath};
ghost use Rattle.world_events.specs.Happening.{Asking};
ghost use Rattle.world_events.specs.Parcels.{IsPathOf, parcels_of, sends};

/// What is sent along the way of a request's reply is what the request sends.
pub fn parcels_go_the_way_of_their_request()
    ensures { (a : Asking) (path : ReplyPath) (reply : Reply) (own : List Message) → IsPathOf a path
        → sends path.from path.sender path.kind path.brought reply own ≡ parcels_of a reply own }
{}
