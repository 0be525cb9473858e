//! The digits that a demo draws, one after another.
//! They are the widths of its labels, and what its script sets.
ghost use Rattle.std.specs.Prelude.{◌≡◌, ◌≤◌, ℕ};
ghost use Rattle.fx_gen.specs.Draws.{digit, step};

/// A linear congruential generator.
#[derive(Drop)]
pub(crate) struct Draws {
    pub(crate) state: u32,
}

impl Draws {
    /// The generator before its first step.
    pub(crate) fn new(number: u32) -> Draws
        ensures { result.state ≡ number }
    {
        Draws { state: number }
    }

    /// Takes a step, and gives a digit from 1 to 9.
    pub(crate) fn draw(&mut self) -> u32
        ensures state { self.new.state ≡ step self.old.state }
        ensures digit { result ≡ digit self.new.state }
    {
        let next = (1_103_515_245 * u64::from(self.state) + 12_345) % (1 << 31);
        self.state = next as u32;
        self.state / 65_536 % 9 + 1
    }
}
