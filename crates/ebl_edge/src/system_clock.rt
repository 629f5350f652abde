//! The system's clock.
ghost use Rattle.std.specs.Prelude.{None};

use crate::clock::Clock;
use ebl_base::Moment;
use std::time;
use std::time::{SystemTime, UNIX_EPOCH};

/// The system's wall clock in milliseconds since 1970; its moments aren't known to contracts.
///
/// While the system gives no time, or one outside the range of moments, the clock gives its last moment again, at first
/// the one that it was made with. It goes back where the system's clock does.
#[derive(Drop)]
pub struct SystemClock<'a, R> {
    rt: &'a R,
    last: Moment,
}

impl<'a, R: time::Clock> SystemClock<'a, R> {
    /// The clock of this system; `first` is what it gives until the system gives a time.
    pub fn new(rt: &'a R, first: Moment) -> Self {
        SystemClock { rt, last: first }
    }

    // The moment that the system gives, if it gives one in range.
    fn moment(&self) -> Option<Moment> {
        let now = SystemTime::now(self.rt).ok()?;
        let since = now.duration_since(UNIX_EPOCH).ok()?;
        Moment::try_new(u64::try_from(since.as_millis()).ok()?)
    }
}

impl<R: time::Clock> Clock for SystemClock<'_, R> {
    ghost given = { λ _. None };

    fn now(&mut self) -> Moment {
        if let Some(moment) = self.moment() {
            self.last = moment;
        }
        self.last
    }
}
