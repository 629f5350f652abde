//! How the generator draws numbers.
ghost use Rattle.std.specs.Prelude.{◌≡◌, ◌<◌};
ghost use Rattle.rehearsal.specs.Draws.{drawn, next};

// The factor and the summand of the generator: a linear congruential one over 64 bits.
const FACTOR: u64 = 6_364_136_223_846_793_005;

const SUMMAND: u64 = 1_442_695_040_888_963_407;

/// The state from which numbers are drawn.
#[derive(Clone, Copy, Debug, PartialEq, Eq)]
pub struct Draws {
    state: u64,
}

impl Draws {
    /// The draws from a seed.
    pub fn new(seed: u64) -> Draws
        ensures { result.state ≡ seed }
    {
        Draws { state: seed }
    }

    /// Draws a number below `n`, by the upper 31 bits of the next state.
    #[tactic(auto, unfolding(crate::specs::Draws::next, crate::specs::Draws::drawn))]
    pub fn draw(&mut self, n: u64) -> u64
        requires { 0 < n }
        ensures state { self.new.state ≡ next self.old.state }
        ensures number { result ≡ drawn n self.new.state }
        ensures below { result < n }
    {
        self.state = self.state.wrapping_mul(FACTOR).wrapping_add(SUMMAND);
        (self.state >> 33) % n
    }
}
