//! Moments of a clock.
ghost use Rattle.std.specs.Prelude.{◌≡◌, ◌↔◌, IfSome, IsTrue};
ghost use Rattle.ebl_base.specs.Moment.{IsMoment, moment_of, moment_number};

use crate::limits::MAX_WHOLE_NUMBER;

/// A moment that a clock gave: 0 to 2^53 - 1, in the clock's own unit.
#[derive(Clone, Copy, Debug, PartialEq, Eq, PartialOrd, Ord)]
pub struct Moment {
    number: u64,
}

impl Moment {
    /// The number of the last moment, the largest that canonical JSON has.
    pub const LAST: u64 = MAX_WHOLE_NUMBER;

    /// The moment of this number; `None` if and only if it is past [`Moment::LAST`].
    pub fn try_new(number: u64) -> Option<Moment>
        ensures value { result ≡ moment_of number }
        ensures form { IfSome result (λ moment. IsMoment moment) }
    {
        if number <= Moment::LAST {
            Some(Moment { number })
        } else {
            None
        }
    }

    /// Whether the moment has its form, as each that was made does.
    pub fn is_well_formed(self) -> bool
        ensures { IsTrue result ↔ IsMoment self }
    {
        self.number <= Moment::LAST
    }

    /// The number of the moment.
    pub fn number(self) -> u64
        ensures { result ≡ moment_number self }
    {
        self.number
    }
}
