//! The game.
ghost use Rattle.std.specs.Prelude.{IsTrue};
ghost use Rattle.fx_play_frames.specs.Resting.{IsAtRest};

use fx_play_times::Clock;
use fx_pulse::Renderer;
use fx_stage::Stage;

/// A stage with its timelines, what was drawn of it last, and how many frames were made. Behind a frame that published
/// no other size it rests, until a line is taken that isn't a `pulse`: a further frame is the last one again.
#[derive(Drop)]
pub struct Game {
    pub(crate) stage: Stage,
    pub(crate) clock: Clock,
    pub(crate) renderer: Renderer,
    pub(crate) frames: u64,
    /// Is it known that a further frame changes nothing?
    pub(crate) rests: bool,
    ghost still: { IsTrue rests → IsAtRest stage renderer },
}
