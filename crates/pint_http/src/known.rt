//! The reply to a receiver validation.
ghost use Rattle.std.specs.Prelude.{◌≡◌, IfOk};
ghost use Rattle.pint_http.specs.Reply.{known_body};

use canonical_json::{Json, write};
use ebl_base::NoMemory;
use json_forms::{member, object_json};
use reply_forms::ReplyBody;
use std::alloc::Global;

/// `{"known":true}`, or `false`.
pub(crate) fn known_body(alloc: Global, known: bool) -> Result<ReplyBody, NoMemory>
    ensures { IfOk result (λ body. body ≡ known_body known) }
{
    let members = vec![in alloc; member(alloc, "known", Json::Flag(known))?]?;
    Ok(ReplyBody::Json(write(alloc, &object_json(members))?))
}
