//! Numbers that are drawn one after another.
ghost use Rattle.std.specs.Prelude.{◌≡◌, ◌<◌, ◌^◌, ◌-ℤ◌, pos};
ghost use Rattle.generator.specs.Draws.{first_draw_state, next_state, drawn};

use fixed_point::Fix;

// There are so many states.
const STATES: u64 = 1 << 31;

/// The state from which the next number is drawn.
#[derive(Clone, Copy)]
pub(crate) struct Draws {
    state: u32,
    ghost small: { state < 2 ^ 31 },
}

impl Draws {
    /// The draws of a number.
    pub(crate) fn new(number: u32) -> Draws
        ensures { result.state ≡ first_draw_state number }
    {
        Draws {
            state: (u64::from(number) % STATES) as u32,
        }
    }

    /// Draws a number below `most`.
    #[tactic(auto, unfolding(crate::specs::Draws::next_state, crate::specs::Draws::drawn))]
    pub(crate) fn draw(&mut self, most: u32) -> u32
        requires { 0 < most }
        ensures state { self.new.state ≡ next_state self.old.state }
        ensures number { result ≡ drawn most self.new.state }
        ensures small { result < most }
    {
        self.state = ((1_103_515_245 * u64::from(self.state) + 12_345) % STATES) as u32;
        self.state / 65_536 % most
    }

    /// Draws a slope, from -1 to 1.
    pub(crate) fn slope(&mut self) -> Fix
        ensures state { self.new.state ≡ next_state self.old.state }
        ensures slope { result ≡ pos (drawn 2001 self.new.state) -ℤ pos 1000 }
    {
        Fix::of(i64::from(self.draw(2001)) - 1000).unwrap()
    }
}
