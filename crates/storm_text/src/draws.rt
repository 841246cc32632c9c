//! Numbers that are drawn by chance from a first number.

ghost use Rattle.std.specs.Prelude.{◌≡◌};
ghost use Rattle.storm_script.specs.Storm.{next_state};

const FACTOR: u64 = 6_364_136_223_846_793_005;

const STEP: u64 = 1_442_695_040_888_963_407;

/// The state of the draws.
#[derive(Clone, Copy, Debug)]
pub(crate) struct Draws {
    pub(crate) state: u64,
}

impl Draws {
    ghost use Rattle.std.specs.Prelude.{◌≡◌, ◌<◌};
    ghost use Rattle.storm_script.specs.Storm.{drawn, next_state};

    /// One more draw: a number below this one.
    pub(crate) fn draw(&mut self, below: u64) -> u64
        requires { 0 < below }
        ensures state { self.new.state ≡ next_state self.old.state }
        ensures drawn { result ≡ drawn (next_state self.old.state) below }
        ensures below { result < below }
    {
        self.state = next_state(self.state);
        (self.state / (1 << 33)) % below
    }
}

/// The state after one more draw.
fn next_state(state: u64) -> u64
    ensures { result ≡ next_state state }
{
    state.wrapping_mul(FACTOR).wrapping_add(STEP)
}
