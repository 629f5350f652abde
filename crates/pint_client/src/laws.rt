//! Laws of replies. Each function does nothing: its contract is the law.
ghost use Rattle.std.specs.Prelude.{◌≡◌, ℕ, List, ◌++◌};
ghost use Rattle.pint_client.specs.Reply.{IsReply};

/// Bytes begin with one reply at most.
pub fn bytes_begin_with_one_reply_at_most()
    ensures { (came : List ℕ) (s t : ℕ) (a b x y : List ℕ) → IsReply came s a x → IsReply came t b y
        → (s ≡ t) × (a ≡ b) }
{}

/// A reply at the front of some bytes stays when more bytes come.
pub fn reply_stays_when_more_bytes_come()
    ensures { (came more : List ℕ) (status : ℕ) (body after : List ℕ) → IsReply came status body after
        → IsReply (came ++ more) status body (after ++ more) }
{}
