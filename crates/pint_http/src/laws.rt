//! What holds of every session. The function does nothing: its contract is the law.
ghost use Rattle.std.specs.Prelude.{◌≡◌, Bool, List, Option, ℕ};
ghost use Rattle.ebl_base.specs.declared.moment.Moment.{Moment};
ghost use Rattle.ebl_base.specs.declared.party.Party.{Party};
ghost use Rattle.http_requests.specs.declared.end.LinkEnd.{LinkEnd};
ghost use Rattle.pint_http.specs.Session.{GoesOn, Served};

use platform_requests::Desk;

/// A session of a desk is told alike by every test of parties that gives the same answers. A desk's test stays over its
/// sessions, so all of them are told by the test at the beginning of the first.
pub fn session_is_told_by_any_equal_test_of_parties<K: Desk>()
    ensures { (end : LinkEnd) (left left_after written written_after : Option (List ℕ))
        (given given_after : Option (List Moment)) (later_test test : Party → Bool) (before after : K)
        → ((party : Party) → later_test party ≡ test party)
        → Served end left left_after written written_after given given_after later_test
        (λ calls. GoesOn K.run before calls after)
        → Served end left left_after written written_after given given_after test
        (λ calls. GoesOn K.run before calls after) }
{}
