//! Clocks: what gives moments.
ghost use Rattle.std.specs.Prelude.{List, Option, [], ◌∷◌};
ghost use Rattle.ebl_base.specs.declared.moment.Moment.{Moment};
ghost use Rattle.ebl_edge.specs.Clock.{Gives};

use ebl_base::Moment;

/// What gives moments. A call never fails; nothing says that moments rise.
pub trait Clock {
    /// The moments that were given, in order, if that is known.
    ghost given: { Self → Option (List Moment) };

    /// The moment now.
    fn now(&mut self) -> Moment
        ensures { Gives (given self.old) (result ∷ []) (given self.new) };
}
